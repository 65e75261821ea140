// Assumptions by the relevancy engine.
ghost use Rattle.std.specs.Prelude.{◌≡◌, length, replicate};
ghost use Rattle.ground.specs.Verdict.{verdict_of};
ghost use Rattle.relevancy.specs.Engine.{outcome_in};
ghost use Rattle.assuming.specs.Assume.{assumed_table, runs, assumed_of, first_left, second_left, work_left};
ghost use Rattle.assuming.specs.Engines.{relevancy_runs};
ghost use Rattle.assuming.specs.terms.Made.{Addable, Made};

use assuming::assume::{Assumed, Counted, is_refuted, once, twice};
use assuming::check::refused;
use assuming::fact::add_facts;
use ground::verdict::Verdict;
use problem::table::Table;
use relevancy::alone::run;
use writing::lent::too_small;

// A run whose model is not kept.
fn verdict_of(table: &Table<'_>, work: &mut [u8]) -> Verdict
    requires work_len { length work.old ≡ 65536 }
    ensures { (result ≡ verdict_of (outcome_in table.now)) × (work.new ≡ replicate 65536 0) }
{
    let mut model = [0u8; 1024];
    let reply = run(table.bytes, &mut model, work);
    let verdict = reply.verdict;
    verdict
}

// The runs of a call: the table by itself and, unless that is none, with all facts.
fn run_both(table: &Table<'_>, facts: &[u32], work: &mut [u8]) -> Counted
    requires addable { Addable table.now facts.now × (length work.old ≡ 65536) }
    ensures { Made (runs (outcome_in table.now) (outcome_in (assumed_table table.now facts.now))) result × (work.new ≡ replicate 65536 0) }
{
    let alone = verdict_of(table, work);
    if is_refuted(alone) {
        return once(alone);
    }
    let mut longer = [0u8; 4096];
    lists::copy(&mut longer, table.bytes);
    add_facts(&mut longer, facts);
    let longer = Table { bytes: &longer };
    let all = verdict_of(&longer, work);
    twice(alone, all)
}

// Whether there is no model, whichever of the facts are added. Of the answer only the length counts; a refusal leaves the lent numbers and bytes as they were.
pub fn assume_relevancy(
    table: &[u8],
    facts: &[u32],
    first: &mut u32,
    second: &mut u32,
    answer: &[u8],
    work: &mut [u8],
) -> Assumed
    ensures { (result ≡ assumed_of (relevancy_runs table.now facts.now answer.now work.old)) × (first.new ≡ first_left (relevancy_runs table.now facts.now answer.now work.old) first.old) × (second.new ≡ second_left (relevancy_runs table.now facts.now answer.now work.old) second.old) × (work.new ≡ work_left (relevancy_runs table.now facts.now answer.now work.old) work.old) }
{
    let e = refused(table, facts, too_small(answer.len(), work.len()));
    if 0 < e {
        return Assumed::Refused(e);
    }
    let table = Table {
        bytes: &table[..4096],
    };
    let made = run_both(&table, facts, &mut work[..65536]);
    *first = made.first;
    *second = made.second;
    let assumed = made.assumed;
    assumed
}
