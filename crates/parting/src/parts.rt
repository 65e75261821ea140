// Fitting a table part by part.
ghost use Rattle.std.specs.Prelude.{cond, ◌++◌, ◌≡◌, ◌≤◌, eqb, length, take, drop, replicate};
ghost use Rattle.problem.specs.Table.{Lawful};
ghost use Rattle.problem.specs.Layout.{problem_in};
ghost use Rattle.parting.specs.Runs.{runs_of, said_by, sum_of, joined_bits, answer_by};
ghost use Rattle.parting.specs.terms.Tally.{parting_by};

use crate::turns::run_parts;
use lists::pair;

// A refusal's number, or what the parts together say. The count of entries is told apart from it.
#[derive(Clone, Copy, Debug, PartialEq, Eq)]
pub enum Parting {
    Refused(u8),
    Satisfied,
    Refuted,
    Exhausted,
}

// What the runs say, and the sum of their counts.
#[derive(Clone, Copy, Debug, PartialEq, Eq)]
pub struct Counted {
    pub parting: Parting,
    pub count: u64,
}

// The answer that a tally's number stands for.
fn said(verdict: u8) -> Parting
    ensures { result ≡ parting_by verdict }
{
    match verdict {
        0 => Parting::Refuted,
        1 => Parting::Satisfied,
        _ => Parting::Exhausted,
    }
}

// Puts the joined bits into the answer, where all parts have a model.
fn give(verdict: u8, joined: &[u8], atoms: usize, answer: &mut [u8])
    requires { (atoms ≤ 1024) × (length joined.now ≡ 1024) × (1024 ≤ length answer.old) }
    ensures { answer.new ≡ cond (eqb verdict 1) (take atoms joined.now ++ drop atoms answer.old) answer.old }
{
    if verdict == 1 {
        lists::copy(answer, &joined[..atoms]);
    }
}

// Fits a valid table part by part.
pub fn fit_parts(table: &[u8], magic: bool, answer: &mut [u8], work: &mut [u8]) -> Counted
    requires lawful { Lawful table.now }
    requires in_bounds { (1024 ≤ length answer.old) × (length work.old ≡ 65536) }
    ensures { (result.parting ≡ said_by (runs_of magic (problem_in table.now))) × (result.count ≡ sum_of (runs_of magic (problem_in table.now))) × (answer.new ≡ answer_by (said_by (runs_of magic (problem_in table.now))) (joined_bits magic (problem_in table.now)) answer.old) × (work.new ≡ replicate 65536 0) }
{
    let mut joined = [0u8; 1024];
    let tally = run_parts(table, magic, &mut joined, work);
    give(tally.verdict, &joined, pair(table[8], table[9]), answer);
    Counted {
        parting: said(tally.verdict),
        count: tally.count,
    }
}
