// The staged engine's operation: a run that keeps no session.
ghost use Rattle.std.specs.Prelude.{◌≡◌, ◌≤◌, length, replicate};
ghost use Rattle.problem.specs.Table.{Lawful};
ghost use Rattle.ground.specs.Verdict.{verdict_of, answer_of};
ghost use Rattle.relevancy.specs.Engine.{fit_work};
ghost use Rattle.staged.specs.Engine.{staged_outcome, staged_result, staged_answer};

use crate::whole::walk_whole;
use ground::verdict::{Verdict, limit_in};
use relevancy_walk::place::atoms;
use session::end::{give_model, verdict_by};
use writing::lent::{refusal, too_small};

// The run of a valid table under its own limit, in a buffer for its facts.
fn decide(table: &[u8], answer: &mut [u8], facts: &mut [u8]) -> Verdict
    requires lawful { Lawful table.now }
    requires in_bounds { (1024 ≤ length answer.old) × (length facts.old ≡ 6150) }
    ensures { (result ≡ verdict_of (staged_outcome table.now)) × (answer.new ≡ answer_of (staged_outcome table.now) answer.old) }
{
    let mut path = [0u8; 9227];
    let limit = limit_in(table);
    let walked = walk_whole(table, facts, &mut path, limit);
    give_model(walked, facts, answer, atoms(table));
    verdict_by(walked, limit)
}

// The same, in the first part of the work buffer, which is left zero.
fn run(table: &[u8], answer: &mut [u8], work: &mut [u8]) -> Verdict
    requires lawful { Lawful table.now }
    requires in_bounds { (1024 ≤ length answer.old) × (length work.old ≡ 65536) }
    ensures { (result ≡ verdict_of (staged_outcome table.now)) × (answer.new ≡ answer_of (staged_outcome table.now) answer.old) × (work.new ≡ replicate 65536 0) }
{
    let verdict = decide(table, answer, &mut work[0..6150]);
    lists::zero(work);
    verdict
}

// Fits a lent table: the staged walk under the table's own limit.
pub fn fit(table: &[u8], answer: &mut [u8], work: &mut [u8]) -> Verdict
    ensures { (result ≡ staged_result table.now answer.old work.old) × (answer.new ≡ staged_answer table.now answer.old work.old) × (work.new ≡ fit_work table.now answer.old work.old) }
{
    let e = refusal(table, too_small(answer.len(), work.len()));
    if 0 < e {
        return Verdict::Refused(e);
    }
    run(&table[..4096], answer, &mut work[..65536])
}
