// Fitting part by part, for a host in C: the sum of the counts goes into a lent number, and one number comes back.
ghost use Rattle.std.specs.Prelude.{true, false, ◌≡◌};
ghost use Rattle.relevancy.specs.Engine.{too_short, fit_work};
ghost use Rattle.magic.specs.Engine.{magic_too_short, magic_rules, magic_work};
ghost use Rattle.parting.specs.Runs.{parts_result, parts_count, parts_answer};
ghost use Rattle.lutsamik.specs.Pack.{pack_parting};

use crate::packed;
use parting::parts::Parting;

fn pack_parting(p: Parting) -> u64
    ensures { result ≡ pack_parting p }
{
    match p {
        Parting::Refused(e) => packed(e, 0, 0, 0),
        Parting::Satisfied => packed(0, 1, 0, 0),
        Parting::Refuted => packed(0, 0, 0, 0),
        Parting::Exhausted => packed(0, 2, 0, 0),
    }
}

// Fits a table by the relevancy engine, part by part, with 1,024 answer bytes and 65,536 to work in.
#[unsafe(no_mangle)]
pub extern "C" fn lutsamik_parts_relevancy(
    table: &[u8],
    count: &mut u64,
    answer: &mut [u8],
    work: &mut [u8],
) -> u64
    ensures { (result ≡ pack_parting (parts_result false (too_short table.now answer.old work.old) table.now)) × (count.new ≡ parts_count false (too_short table.now answer.old work.old) table.now count.old) × (answer.new ≡ parts_answer false (too_short table.now answer.old work.old) table.now answer.old) × (work.new ≡ fit_work table.now answer.old work.old) }
{
    pack_parting(parts_calls::by_relevancy::parts_relevancy(table, count, answer, work))
}

// Fits a table by the magic engine, part by part, with 16,384 bytes for the rules, 1,024 answer bytes and 65,536 to work in.
#[unsafe(no_mangle)]
pub extern "C" fn lutsamik_parts_magic(
    table: &[u8],
    count: &mut u64,
    rules: &mut [u8],
    answer: &mut [u8],
    work: &mut [u8],
) -> u64
    ensures { (result ≡ pack_parting (parts_result true (magic_too_short table.now rules.old answer.old work.old) table.now)) × (count.new ≡ parts_count true (magic_too_short table.now rules.old answer.old work.old) table.now count.old) × (rules.new ≡ magic_rules table.now rules.old answer.old work.old) × (answer.new ≡ parts_answer true (magic_too_short table.now rules.old answer.old work.old) table.now answer.old) × (work.new ≡ magic_work table.now rules.old answer.old work.old) }
{
    pack_parting(parts_calls::by_magic::parts_magic(table, count, rules, answer, work))
}
