// Whether a lent table, and the buffers lent with it, are taken.
ghost use Rattle.std.specs.Prelude.{◌||◌, ◌≡◌, ltb};
ghost use Rattle.writing.specs.terms.Lent.{refusal_of, taken_of};

use crate::write::valid;
use problem::fault::Fault;

// Refused if the table is too short or a buffer lent with it is, and else if the table is not valid.
#[tactic(auto, unfolding(crate::specs::terms::Lent::taken_of))]
pub fn taken(table: &[u8], short: bool) -> Result<(), Fault>
    ensures { result ≡ taken_of table.now short }
{
    if table.len() < 4096 || short {
        return Err(Fault::ShortBuffer);
    }
    if !valid(&table[..4096]) {
        return Err(Fault::NoTable);
    }
    Ok(())
}

// The number of the refusal, or 0.
pub fn refusal(table: &[u8], short: bool) -> u8
    ensures { result ≡ refusal_of table.now short }
{
    match taken(table, short) {
        Ok(()) => 0,
        Err(fault) => fault.number(),
    }
}

// Whether an answer or a work buffer of so many bytes is too short for a run.
pub fn too_small(answer: usize, work: usize) -> bool
    ensures { result ≡ (ltb answer 1024 || ltb work 65536) }
{
    answer < 1024 || work < 65536
}

// The same with a rules buffer.
pub fn any_too_small(rules: usize, answer: usize, work: usize) -> bool
    ensures { result ≡ (ltb rules 16384 || ltb answer 1024 || ltb work 65536) }
{
    rules < 16384 || too_small(answer, work)
}
