// The calls with assumptions, for a host in C: the facts are lent as a slice of numbers, the two counts as numbers to write to.
ghost use Rattle.std.specs.Prelude.{◌≡◌};
ghost use Rattle.assuming.specs.Assume.{assumed_of, first_left, second_left, work_left};
ghost use Rattle.assuming.specs.Engines.{relevancy_runs, magic_runs, rules_left};
ghost use Rattle.lutsamik.specs.Pack.{pack_assumed};

use crate::packed;
use assume_calls::by_magic::assume_magic;
use assume_calls::by_relevancy::assume_relevancy;
use assuming::assume::Assumed;

fn pack_assumed(a: Assumed) -> u64
    ensures { result ≡ pack_assumed a }
{
    match a {
        Assumed::Refused(e) => packed(e, 0, 0, 0),
        Assumed::Always => packed(0, 0, 0, 0),
        Assumed::Never => packed(0, 1, 0, 0),
        Assumed::Exhausted => packed(0, 2, 0, 0),
        Assumed::Sometimes => packed(0, 3, 0, 0),
    }
}

// Whether a table has no model, whichever of up to 16 facts are added, by the relevancy engine. Of the answer only the length counts.
#[unsafe(no_mangle)]
pub extern "C" fn lutsamik_assume_relevancy(
    table: &[u8],
    facts: &[u32],
    first: &mut u32,
    second: &mut u32,
    answer: &[u8],
    work: &mut [u8],
) -> u64
    ensures { (result ≡ pack_assumed (assumed_of (relevancy_runs table.now facts.now answer.now work.old))) × (first.new ≡ first_left (relevancy_runs table.now facts.now answer.now work.old) first.old) × (second.new ≡ second_left (relevancy_runs table.now facts.now answer.now work.old) second.old) × (work.new ≡ work_left (relevancy_runs table.now facts.now answer.now work.old) work.old) }
{
    pack_assumed(assume_relevancy(table, facts, first, second, answer, work))
}

// The same, by the magic engine.
#[unsafe(no_mangle)]
pub extern "C" fn lutsamik_assume_magic(
    table: &[u8],
    facts: &[u32],
    first: &mut u32,
    second: &mut u32,
    rules: &mut [u8],
    answer: &[u8],
    work: &mut [u8],
) -> u64
    ensures { (result ≡ pack_assumed (assumed_of (magic_runs table.now facts.now rules.old answer.now work.old))) × (first.new ≡ first_left (magic_runs table.now facts.now rules.old answer.now work.old) first.old) × (second.new ≡ second_left (magic_runs table.now facts.now rules.old answer.now work.old) second.old) × (rules.new ≡ rules_left (magic_runs table.now facts.now rules.old answer.now work.old) table.now facts.now rules.old) × (work.new ≡ work_left (magic_runs table.now facts.now rules.old answer.now work.old) work.old) }
{
    pack_assumed(assume_magic(table, facts, first, second, rules, answer, work))
}
