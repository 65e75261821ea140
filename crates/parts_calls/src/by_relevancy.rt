// Fitting part by part, by the relevancy engine.
ghost use Rattle.std.specs.Prelude.{false, ◌≡◌};
ghost use Rattle.relevancy.specs.Engine.{too_short, fit_work};
ghost use Rattle.parting.specs.Runs.{parts_result, parts_count, parts_answer};

use parting::parts::{Parting, fit_parts};
use writing::lent::too_small;
use writing::taken::taken;

// Fits a lent table part by part. A refusal leaves the lent number and bytes as they were.
pub fn parts_relevancy(table: &[u8], count: &mut u64, answer: &mut [u8], work: &mut [u8]) -> Parting
    ensures { (result ≡ parts_result false (too_short table.now answer.old work.old) table.now) × (count.new ≡ parts_count false (too_short table.now answer.old work.old) table.now count.old) × (answer.new ≡ parts_answer false (too_short table.now answer.old work.old) table.now answer.old) × (work.new ≡ fit_work table.now answer.old work.old) }
{
    let table = match taken(table, too_small(answer.len(), work.len())) {
        Ok(table) => table,
        Err(e) => return Parting::Refused(e),
    };
    let counted = fit_parts(table.bytes, false, answer, &mut work[..65536]);
    *count = counted.count;
    let parting = counted.parting;
    parting
}
