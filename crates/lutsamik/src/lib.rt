// The operations, for a host in C: numbers and byte slices go in, and one number comes back.
#![tactic(auto)]

pub mod assume;
pub mod by_stages;
pub mod calls;
pub mod parts;

ghost use Rattle.std.specs.Prelude.{◌≡◌};
ghost use Rattle.problem.specs.Numbers.{answered};
ghost use Rattle.reading.specs.Read.{read_result, read_leaves};
ghost use Rattle.writing.specs.Write.{write_result, write_leaves, writing_numbers};
ghost use Rattle.offering.specs.Offer.{offer_result, offer_leaves, set_result, set_leaves};
ghost use Rattle.judging.specs.ModelCheck.{judge_result};
ghost use Rattle.judging.specs.Holding.{holding_result, holding_numbers};
ghost use Rattle.relevancy.specs.Engine.{fit_result, fit_deepest, fit_answer, fit_work};
ghost use Rattle.magic.specs.Engine.{magic_result, magic_deepest, magic_rules, magic_answer, magic_work};
ghost use Rattle.rewriting.specs.Rewrite.{rewrite_result, rewrite_leaves, rewriting_numbers};
ghost use Rattle.lutsamik.specs.Pack.{packed, pack_reading, pack_offering, pack_judging, with_deepest, pack_verdict};

use ground::verdict::{Verdict, number_of};
use judging::judge::Judgement;
use problem::fault::{Fault, Refusal};
use session::record::Reply;

// An answer's numbers as one.
fn packed(refusal: u8, number: u8, clause: u8, value: u32) -> u64
    ensures { result ≡ packed (record { refusal = refusal; number = number; clause = clause; value = value }) }
{
    (refusal as u64)
        + 256 * (number as u64)
        + 16777216 * (clause as u64)
        + 4294967296 * (value as u64)
}

fn pack_reading(r: Result<(), Refusal>) -> u64
    ensures { result ≡ pack_reading r }
{
    match r {
        Err(refusal) => packed(refusal.fault.number(), 0, 0, refusal.line as u32),
        Ok(()) => packed(0, 0, 0, 0),
    }
}

// A count, or the refusal.
fn pack_count(r: Result<u16, Fault>) -> u64
    ensures writing { result ≡ packed (writing_numbers r) }
    ensures rewriting { result ≡ packed (rewriting_numbers r) }
{
    match r {
        Err(fault) => packed(fault.number(), 0, 0, 0),
        Ok(count) => packed(0, 0, 0, count as u32),
    }
}

fn pack_offering(o: Result<(), Fault>) -> u64
    ensures { result ≡ pack_offering o }
{
    match o {
        Err(fault) => packed(fault.number(), 0, 0, 0),
        Ok(()) => packed(0, 0, 0, 0),
    }
}

fn pack_judging(j: Result<Judgement, Fault>) -> u64
    ensures { result ≡ pack_judging j }
{
    match j {
        Err(fault) => packed(fault.number(), 0, 0, 0),
        Ok(Judgement::Model) => packed(0, 1, 0, 0),
        Ok(Judgement::Violated(k, a, b, c, d)) => packed(0, 2, k, number_of(d, c, b, a)),
    }
}

fn pack_holding(h: Result<u8, Fault>) -> u64
    ensures { result ≡ packed (holding_numbers h) }
{
    match h {
        Err(fault) => packed(fault.number(), 0, 0, 0),
        Ok(held) => packed(0, 0, 0, held as u32),
    }
}

// A verdict's number and count, with the deepest figure beside them.
fn with_deepest(number: u8, count: u32, deepest: u32) -> u64
    ensures { result ≡ with_deepest (answered number count) deepest }
{
    packed(0, number, 0, count) + 65536 * ((deepest % 65536) as u64)
}

fn pack_verdict(v: Verdict, deepest: u32) -> u64
    ensures { result ≡ pack_verdict v deepest }
{
    match v {
        Verdict::Refused(e) => packed(e, 0, 0, 0),
        Verdict::Satisfied(count) => with_deepest(1, count, deepest),
        Verdict::Refuted(count) => with_deepest(0, count, deepest),
        Verdict::Exhausted(count) => with_deepest(2, count, deepest),
    }
}

// What a run without a session gives back, as one number.
fn pack_reply(reply: Reply) -> u64
    ensures { result ≡ pack_verdict reply.verdict reply.deepest }
{
    let verdict = reply.verdict;
    pack_verdict(verdict, reply.deepest)
}

// Reads a text into a table of 4,096 bytes.
#[unsafe(no_mangle)]
pub extern "C" fn lutsamik_read(text: &[u8], table: &mut [u8]) -> u64
    ensures { (result ≡ pack_reading (read_result text.now table.old)) × (table.new ≡ read_leaves text.now table.old) }
{
    pack_reading(reading::read::read(text, table))
}

// Writes a table out as text, into 7,168 bytes.
#[unsafe(no_mangle)]
pub extern "C" fn lutsamik_write(table: &[u8], out: &mut [u8]) -> u64
    ensures { (result ≡ packed (writing_numbers (write_result table.now out.old))) × (out.new ≡ write_leaves table.now out.old) }
{
    pack_count(writing::write::write(table, out))
}

// Offers the bytes of a clause frame to a table, with a slip of 37 bytes.
#[unsafe(no_mangle)]
pub extern "C" fn lutsamik_offer(table: &[u8], frame: &[u8], slip: &mut [u8]) -> u64
    ensures { (result ≡ pack_offering (offer_result table.now frame.now slip.old)) × (slip.new ≡ offer_leaves table.now frame.now slip.old) }
{
    pack_offering(offering::offer::offer(table, frame, slip))
}

// Sets the clause frame that a slip holds.
#[unsafe(no_mangle)]
pub extern "C" fn lutsamik_set(table: &mut [u8], slip: &[u8]) -> u64
    ensures { (result ≡ pack_offering (set_result table.old slip.now)) × (table.new ≡ set_leaves table.old slip.now) }
{
    pack_offering(offering::offer::set(table, slip))
}

// Judges an answer of 1,024 bytes by a table.
#[unsafe(no_mangle)]
pub extern "C" fn lutsamik_judge(table: &[u8], answer: &[u8]) -> u64
    ensures { result ≡ pack_judging (judge_result table.now answer.now) }
{
    pack_judging(judging::judge::judge(table, answer))
}

// How many conditions of the instance of a clause with four values an answer of 1,024 bytes marks, from the left, before the first that it does not.
#[unsafe(no_mangle)]
pub extern "C" fn lutsamik_holding(
    table: &[u8],
    answer: &[u8],
    clause: u32,
    a: u32,
    b: u32,
    c: u32,
    d: u32,
) -> u64
    ensures { result ≡ packed (holding_numbers (holding_result table.now answer.now clause a b c d)) }
{
    pack_holding(judging::how_far::how_far(table, answer, clause, a, b, c, d))
}

// Fits a table by the relevancy engine, with 1,024 answer bytes and 65,536 to work in.
#[unsafe(no_mangle)]
pub extern "C" fn lutsamik_fit_relevancy(table: &[u8], answer: &mut [u8], work: &mut [u8]) -> u64
    ensures { (result ≡ pack_verdict (fit_result table.now answer.old work.old) (fit_deepest table.now answer.old work.old)) × (answer.new ≡ fit_answer table.now answer.old work.old) × (work.new ≡ fit_work table.now answer.old work.old) }
{
    pack_reply(relevancy_calls::fit::fit(table, answer, work))
}

// Rewrites a table into magic rules, in a rules buffer of 16,384 bytes.
#[unsafe(no_mangle)]
pub extern "C" fn lutsamik_rewrite(table: &[u8], rules: &mut [u8]) -> u64
    ensures { (result ≡ packed (rewriting_numbers (rewrite_result table.now rules.old))) × (rules.new ≡ rewrite_leaves table.now rules.old) }
{
    pack_count(rewriting::rewrite::rewrite(table, rules))
}

// Fits a table by the magic engine, with 16,384 bytes for the rules, 1,024 answer bytes and 65,536 to work in.
#[unsafe(no_mangle)]
pub extern "C" fn lutsamik_fit_magic(
    table: &[u8],
    rules: &mut [u8],
    answer: &mut [u8],
    work: &mut [u8],
) -> u64
    ensures { (result ≡ pack_verdict (magic_result table.now rules.old answer.old work.old) (magic_deepest table.now rules.old answer.old work.old)) × (rules.new ≡ magic_rules table.now rules.old answer.old work.old) × (answer.new ≡ magic_answer table.now rules.old answer.old work.old) × (work.new ≡ magic_work table.now rules.old answer.old work.old) }
{
    pack_reply(magic_calls::fit::fit(table, rules, answer, work))
}
