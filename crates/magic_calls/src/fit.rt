// The magic engine's operations: a first run, and going on with a session.
ghost use Rattle.std.specs.Prelude.{◌≡◌, ◌≤◌, length, replicate};
ghost use Rattle.search.specs.Session.{first_session};
ghost use Rattle.problem.specs.Problem.{limit_of};
ghost use Rattle.problem.specs.Layout.{problem_in};
ghost use Rattle.ground.specs.Verdict.{verdict_of, answer_of};
ghost use Rattle.rewriting.specs.Facts.{find_in};
ghost use Rattle.rewriting.specs.Rewrite.{rules_over};
ghost use Rattle.session.specs.Record.{laid};
ghost use Rattle.session.specs.Calls.{verdict_told, record_left, answer_left, work_left};
ghost use Rattle.magic.specs.Engine.{rules_outcome, magic_outcome, magic_result, magic_deepest, magic_rules, magic_answer, magic_work};
ghost use Rattle.magic.specs.Sessions.{magic_begun, magic_resumed, rules_left};

use ending::conclude;
use ground::verdict::{Verdict, limit_in};
use magic::alone;
use magic::further::run_on;
use magic::whole::walk_whole;
use magic_walk::place::ByRules;
use problem::table::Table;
use rewriting::rewrite::write_rules;
use rewriting::rules::Rules;
use session::record::{Moved, Reply, Session, refused};
use writing::lent::any_too_small;
use writing::taken::taken;

// The run by the rules of a buffer under a limit, in a buffer for its path.
fn decide(rules: &Rules<'_>, limit: u32, answer: &mut [u8], path: &mut [u8]) -> Moved
    requires in_bounds { (1024 ≤ length answer.old) × (length path.old ≡ 9227) }
    ensures { (result.verdict ≡ verdict_of (rules_outcome rules.now limit)) × (result.session ≡ laid (first_session (find_in rules.now) limit)) × (answer.new ≡ answer_of (rules_outcome rules.now limit) answer.old) }
{
    let bytes = rules.bytes;
    let mut facts = [0u8; 6150];
    let whole = walk_whole(bytes, &mut facts, path, limit);
    let walked = whole.walked;
    let sites = ByRules { rules: bytes };
    conclude(&sites, &facts, path, answer, walked, limit, whole.used)
}

// Rewrites a valid table, walks by the rules alone in the first part of the work buffer, and leaves it zero.
fn run(table: &Table<'_>, rules: &mut [u8], answer: &mut [u8], work: &mut [u8]) -> Moved
    requires rules_len { (length rules.old ≡ 16384) × (1024 ≤ length answer.old) × (length work.old ≡ 65536) }
    ensures { (result.verdict ≡ verdict_of (magic_outcome table.now rules.old)) × (result.session ≡ laid (first_session (find_in (rules_over table.now rules.old)) (limit_of (problem_in table.now).limit))) × (rules.new ≡ rules_over table.now rules.old) × (answer.new ≡ answer_of (magic_outcome table.now rules.old) answer.old) × (work.new ≡ replicate 65536 0) }
{
    write_rules(table.bytes, rules);
    let limit = limit_in(table.bytes);
    let written = Rules { bytes: rules };
    let moved = decide(&written, limit, answer, &mut work[0..9227]);
    lists::zero(work);
    moved
}

// Fits a lent table: the magic walk under the table's own limit, which leaves a session.
pub fn begin(
    session: Session,
    table: &[u8],
    rules: &mut [u8],
    answer: &mut [u8],
    work: &mut [u8],
) -> Moved
    ensures { (result.verdict ≡ magic_result table.now rules.old answer.old work.old) × (result.session ≡ record_left (magic_begun table.now rules.old answer.old work.old) session) × (rules.new ≡ magic_rules table.now rules.old answer.old work.old) × (answer.new ≡ magic_answer table.now rules.old answer.old work.old) × (work.new ≡ magic_work table.now rules.old answer.old work.old) }
{
    let table = match taken(table, any_too_small(rules.len(), answer.len(), work.len())) {
        Ok(table) => table,
        Err(e) => return refused(session, e),
    };
    run(&table, &mut rules[..16384], answer, &mut work[..65536])
}

// The same, without a session.
pub fn fit(table: &[u8], rules: &mut [u8], answer: &mut [u8], work: &mut [u8]) -> Reply
    ensures { (result.verdict ≡ magic_result table.now rules.old answer.old work.old) × (result.deepest ≡ magic_deepest table.now rules.old answer.old work.old) × (rules.new ≡ magic_rules table.now rules.old answer.old work.old) × (answer.new ≡ magic_answer table.now rules.old answer.old work.old) × (work.new ≡ magic_work table.now rules.old answer.old work.old) }
{
    let table = match taken(table, any_too_small(rules.len(), answer.len(), work.len())) {
        Ok(table) => table,
        Err(e) => {
            return Reply {
                verdict: Verdict::Refused(e),
                deepest: 0,
            };
        }
    };
    alone::run(table.bytes, &mut rules[..16384], answer, &mut work[..65536])
}

// Goes on with a session on a lent table, under a further limit.
pub fn resume(
    session: Session,
    further: u32,
    table: &[u8],
    rules: &mut [u8],
    answer: &mut [u8],
    work: &mut [u8],
) -> Moved
    ensures { (result.verdict ≡ verdict_told (magic_resumed session further table.now rules.old answer.old work.old)) × (result.session ≡ record_left (magic_resumed session further table.now rules.old answer.old work.old) session) × (rules.new ≡ rules_left (magic_resumed session further table.now rules.old answer.old work.old) table.now rules.old) × (answer.new ≡ answer_left (magic_resumed session further table.now rules.old answer.old work.old) answer.old) × (work.new ≡ work_left (magic_resumed session further table.now rules.old answer.old work.old) work.old) }
{
    let table = match taken(table, any_too_small(rules.len(), answer.len(), work.len())) {
        Ok(table) => table,
        Err(e) => return refused(session, e),
    };
    run_on(
        session,
        further,
        table.bytes,
        &mut rules[..16384],
        answer,
        &mut work[..65536],
    )
}
