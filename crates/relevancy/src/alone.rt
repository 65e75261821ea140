// A first run that keeps no session.
ghost use Rattle.std.specs.Prelude.{◌≡◌, ◌≤◌, length, replicate};
ghost use Rattle.problem.specs.Problem.{limit_of};
ghost use Rattle.problem.specs.Layout.{problem_in};
ghost use Rattle.problem.specs.Table.{Lawful};
ghost use Rattle.ground.specs.Verdict.{verdict_of, answer_of};
ghost use Rattle.session.specs.terms.End.{Replied};
ghost use Rattle.relevancy_walk.specs.terms.Place.{relevancy_walker};
ghost use Rattle.relevancy.specs.Engine.{outcome_in, deepest_in};

use crate::whole::walk_whole;
use ending::reply;
use ground::verdict::limit_in;
use relevancy_walk::place::ByTable;
use session::record::Reply;

// The run of a valid table under its own limit, in a buffer for its path.
fn decide(table: &[u8], answer: &mut [u8], path: &mut [u8]) -> Reply
    requires lawful { Lawful table.now }
    requires in_bounds { (1024 ≤ length answer.old) × (length path.old ≡ 9227) }
    ensures { Replied (relevancy_walker table.now) (limit_of (problem_in table.now).limit) answer.old result answer.new }
{
    let mut facts = [0u8; 6150];
    let limit = limit_in(table);
    let whole = walk_whole(table, &mut facts, path, limit);
    reply(
        &ByTable { table },
        &facts,
        path,
        answer,
        whole.walked,
        limit,
    )
}

// The same, in the first part of the work buffer, which is left zero.
pub fn run(table: &[u8], answer: &mut [u8], work: &mut [u8]) -> Reply
    requires lawful { Lawful table.now }
    requires in_bounds { (1024 ≤ length answer.old) × (length work.old ≡ 65536) }
    ensures { (result.verdict ≡ verdict_of (outcome_in table.now)) × (result.deepest ≡ deepest_in table.now) × (answer.new ≡ answer_of (outcome_in table.now) answer.old) × (work.new ≡ replicate 65536 0) }
{
    let reply = decide(table, answer, &mut work[0..9227]);
    lists::zero(work);
    reply
}
