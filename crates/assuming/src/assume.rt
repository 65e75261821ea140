// What a call with assumptions says, by the verdicts of its two runs.
ghost use Rattle.std.specs.Prelude.{◌≡◌};
ghost use Rattle.ground.specs.Verdict.{verdict_numbers};
ghost use Rattle.assuming.specs.declared.assume.Assumed.TheVariants.{Always};
ghost use Rattle.assuming.specs.terms.Made.{is_refuted, said_with_all, said_by};

use ground::verdict::Verdict;

// A refusal's number; whether there is no model with any choice of the facts, with some but not all choices, or with none; or that a run is spent.
#[derive(Clone, Copy, Debug, PartialEq, Eq)]
pub enum Assumed {
    Refused(u8),
    Always,
    Sometimes,
    Never,
    Exhausted,
}

// The answer, and the count of each run, 0 for one that is not made.
#[derive(Clone, Copy, Debug, PartialEq, Eq)]
pub struct Counted {
    pub assumed: Assumed,
    pub first: u32,
    pub second: u32,
}

// The count of a run.
fn count_of(verdict: Verdict) -> u32
    ensures { result ≡ (verdict_numbers verdict).value }
{
    match verdict {
        Verdict::Refused(_) => 0,
        Verdict::Satisfied(n) => n,
        Verdict::Refuted(n) => n,
        Verdict::Exhausted(n) => n,
    }
}

// Whether a run's verdict is none.
pub fn is_refuted(verdict: Verdict) -> bool
    ensures { result ≡ is_refuted verdict }
{
    match verdict {
        Verdict::Refused(_) => false,
        Verdict::Satisfied(_) => false,
        Verdict::Refuted(_) => true,
        Verdict::Exhausted(_) => false,
    }
}

// What two runs say, where the problem by itself has a model.
fn said_with_all(all: Verdict) -> Assumed
    ensures { result ≡ said_with_all all }
{
    match all {
        Verdict::Refused(_) => Assumed::Exhausted,
        Verdict::Satisfied(_) => Assumed::Never,
        Verdict::Refuted(_) => Assumed::Sometimes,
        Verdict::Exhausted(_) => Assumed::Exhausted, // the second run is spent
    }
}

// What two runs say, the first of the problem by itself, the second of it with all facts.
fn said(alone: Verdict, all: Verdict) -> Assumed
    ensures { result ≡ said_by alone all }
{
    match alone {
        Verdict::Refused(_) => Assumed::Exhausted,
        Verdict::Satisfied(_) => said_with_all(all),
        Verdict::Refuted(_) => Assumed::Always,
        Verdict::Exhausted(_) => Assumed::Exhausted, // the first run is spent
    }
}

// A call whose first run is none: the second is not made.
pub fn once(alone: Verdict) -> Counted
    ensures { (result.assumed ≡ Always) × (result.first ≡ (verdict_numbers alone).value) × (result.second ≡ 0) }
{
    Counted {
        assumed: Assumed::Always,
        first: count_of(alone),
        second: 0,
    }
}

// Both runs of a call, by their verdicts.
pub fn twice(alone: Verdict, all: Verdict) -> Counted
    ensures { (result.assumed ≡ said_by alone all) × (result.first ≡ (verdict_numbers alone).value) × (result.second ≡ (verdict_numbers all).value) }
{
    Counted {
        assumed: said(alone, all),
        first: count_of(alone),
        second: count_of(all),
    }
}
