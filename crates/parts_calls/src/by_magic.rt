// Fitting part by part, by the magic engine.
ghost use Rattle.std.specs.Prelude.{true, ◌≡◌};
ghost use Rattle.magic.specs.Engine.{magic_too_short, magic_rules, magic_work};
ghost use Rattle.parting.specs.Runs.{parts_result, parts_count, parts_answer};

use parting::parts::{Parting, fit_parts};
use rewriting::rewrite::write_rules;
use writing::lent::any_too_small;
use writing::taken::taken;

// Fits a lent table part by part, and leaves the rules of the whole table in the rules buffer. A refusal leaves the lent number and bytes as they were.
pub fn parts_magic(
    table: &[u8],
    count: &mut u64,
    rules: &mut [u8],
    answer: &mut [u8],
    work: &mut [u8],
) -> Parting
    ensures { (result ≡ parts_result true (magic_too_short table.now rules.old answer.old work.old) table.now) × (count.new ≡ parts_count true (magic_too_short table.now rules.old answer.old work.old) table.now count.old) × (rules.new ≡ magic_rules table.now rules.old answer.old work.old) × (answer.new ≡ parts_answer true (magic_too_short table.now rules.old answer.old work.old) table.now answer.old) × (work.new ≡ magic_work table.now rules.old answer.old work.old) }
{
    let table = match taken(table, any_too_small(rules.len(), answer.len(), work.len())) {
        Ok(table) => table,
        Err(e) => return Parting::Refused(e),
    };
    write_rules(table.bytes, &mut rules[..16384]);
    let counted = fit_parts(table.bytes, true, answer, &mut work[..65536]);
    *count = counted.count;
    let parting = counted.parting;
    parting
}
