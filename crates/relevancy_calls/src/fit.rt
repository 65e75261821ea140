// The relevancy engine's operations: a first run, and going on with a session.
ghost use Rattle.std.specs.Prelude.{◌≡◌, ◌≤◌, length, replicate};
ghost use Rattle.search.specs.Relevancy.{find_r};
ghost use Rattle.search.specs.Session.{first_session};
ghost use Rattle.problem.specs.Problem.{limit_of};
ghost use Rattle.problem.specs.Layout.{problem_in};
ghost use Rattle.ground.specs.Verdict.{verdict_of, answer_of};
ghost use Rattle.ground.specs.Instance.{ground_in};
ghost use Rattle.session.specs.Record.{laid};
ghost use Rattle.session.specs.Calls.{verdict_told, record_left, answer_left, work_left};
ghost use Rattle.relevancy.specs.Engine.{outcome_in, fit_result, fit_deepest, fit_answer, fit_work};
ghost use Rattle.relevancy.specs.Sessions.{begun, resumed};

use ending::conclude;
use ground::verdict::{Verdict, limit_in};
use problem::table::Table;
use relevancy::alone;
use relevancy::further::go_further;
use relevancy::whole::walk_whole;
use relevancy_walk::place::ByTable;
use session::record::{Moved, Reply, Session, refused};
use writing::lent::too_small;
use writing::taken::taken;

// The run of a valid table under its own limit, in a buffer for its path.
fn decide(table: &Table<'_>, answer: &mut [u8], path: &mut [u8]) -> Moved
    requires in_bounds { (1024 ≤ length answer.old) × (length path.old ≡ 9227) }
    ensures { (result.verdict ≡ verdict_of (outcome_in table.now)) × (result.session ≡ laid (first_session (find_r (ground_in table.now)) (limit_of (problem_in table.now).limit))) × (answer.new ≡ answer_of (outcome_in table.now) answer.old) }
{
    let bytes = table.bytes;
    let mut facts = [0u8; 6150];
    let limit = limit_in(bytes);
    let whole = walk_whole(bytes, &mut facts, path, limit);
    let walked = whole.walked;
    let sites = ByTable { table: bytes };
    conclude(&sites, &facts, path, answer, walked, limit, whole.used)
}

// The same, in the first part of the work buffer, which is left zero.
fn run(table: &Table<'_>, answer: &mut [u8], work: &mut [u8]) -> Moved
    requires in_bounds { (1024 ≤ length answer.old) × (length work.old ≡ 65536) }
    ensures { (result.verdict ≡ verdict_of (outcome_in table.now)) × (result.session ≡ laid (first_session (find_r (ground_in table.now)) (limit_of (problem_in table.now).limit))) × (answer.new ≡ answer_of (outcome_in table.now) answer.old) × (work.new ≡ replicate 65536 0) }
{
    let moved = decide(table, answer, &mut work[0..9227]);
    lists::zero(work);
    moved
}

// Fits a lent table: the relevancy walk under the table's own limit, which leaves a session.
pub fn begin(session: Session, table: &[u8], answer: &mut [u8], work: &mut [u8]) -> Moved
    ensures { (result.verdict ≡ fit_result table.now answer.old work.old) × (result.session ≡ record_left (begun table.now answer.old work.old) session) × (answer.new ≡ fit_answer table.now answer.old work.old) × (work.new ≡ fit_work table.now answer.old work.old) }
{
    let table = match taken(table, too_small(answer.len(), work.len())) {
        Ok(table) => table,
        Err(e) => return refused(session, e),
    };
    run(&table, answer, &mut work[..65536])
}

// The same, without a session.
pub fn fit(table: &[u8], answer: &mut [u8], work: &mut [u8]) -> Reply
    ensures { (result.verdict ≡ fit_result table.now answer.old work.old) × (result.deepest ≡ fit_deepest table.now answer.old work.old) × (answer.new ≡ fit_answer table.now answer.old work.old) × (work.new ≡ fit_work table.now answer.old work.old) }
{
    let table = match taken(table, too_small(answer.len(), work.len())) {
        Ok(table) => table,
        Err(e) => {
            return Reply {
                verdict: Verdict::Refused(e),
                deepest: 0,
            };
        }
    };
    alone::run(table.bytes, answer, &mut work[..65536])
}

// Goes on with a session on a lent table, under a further limit.
pub fn resume(
    session: Session,
    further: u32,
    table: &[u8],
    answer: &mut [u8],
    work: &mut [u8],
) -> Moved
    ensures { (result.verdict ≡ verdict_told (resumed session further table.now answer.old work.old)) × (result.session ≡ record_left (resumed session further table.now answer.old work.old) session) × (answer.new ≡ answer_left (resumed session further table.now answer.old work.old) answer.old) × (work.new ≡ work_left (resumed session further table.now answer.old work.old) work.old) }
{
    let table = match taken(table, too_small(answer.len(), work.len())) {
        Ok(table) => table,
        Err(e) => return refused(session, e),
    };
    go_further(session, further, table.bytes, answer, &mut work[..65536])
}
