// Going on with the session of a record: 41 and 42, then the run from where it stands.
ghost use Rattle.std.specs.Prelude.{◌≡◌, ◌+◌, ◌≤◌, length, replicate};
ghost use Rattle.problem.specs.Table.{Lawful};
ghost use Rattle.ground.specs.Instance.{ground_in};
ghost use Rattle.rewriting.specs.terms.Ruled.{Ruled};
ghost use Rattle.rewriting.specs.Facts.{find_in};
ghost use Rattle.rewriting.specs.Rewrite.{rules_over};
ghost use Rattle.session.specs.Calls.{called_in, verdict_told, record_left, answer_left, work_left};
ghost use Rattle.magic.specs.Sessions.{rules_left};

use ending::conclude;
use engine::left::root_alternatives;
use engine::resume::go_on;
use ground::verdict::Verdict;
use lists::pair;
use magic_plan::index::build;
use magic_walk::place::Magic;
use rewriting::rewrite::write_rules;
use session::record::{Moved, Session, is_kept, refused};
use walk::node::bring;
use walk::standing::Onward;

// The run by the rules of a buffer, in memory of its own: the answer is written only where the session is one of the walk.
fn further_run(
    session: Session,
    further: u32,
    rules: &[u8],
    answer: &mut [u8],
    atoms: usize,
) -> Moved
    requires ruled { Ruled rules.now }
    requires in_bounds { 1024 ≤ length answer.old }
    requires verdict_bound { (session.verdict ≤ 2) × (session.length ≤ 1024) × (session.count + further ≤ 4294967295) }
    requires length_le_deepest { (session.length ≤ session.deepest) × (session.deepest ≤ atoms) × (atoms ≤ 1024) }
    ensures { (result.verdict ≡ verdict_told (called_in (find_in rules.now) atoms session further)) × (result.session ≡ record_left (called_in (find_in rules.now) atoms session further) session) × (answer.new ≡ answer_left (called_in (find_in rules.now) atoms session further) answer.old) }
{
    let mut index = [0u16; 6656];
    build(rules, &mut index);
    let mut facts = [0u8; 6150];
    let mut path = [0u8; 9227];
    let entered = session.atoms;
    let nexts = session.nexts;
    let steps = session.length as usize;
    let limit = session.count + further;
    bring(&mut path, session.deepest as usize);
    let engine = Magic {
        rules,
        index: &index,
    };
    let found = engine.root(&mut facts, &mut path);
    let used = root_alternatives(&engine, &path, found);
    let on = Onward {
        standing: session.verdict,
        next: session.next,
        count: session.count,
        limit,
    };
    let went = go_on(
        &engine, &mut facts, &mut path, &entered, &nexts, steps, found, on,
    );
    let Some(walked) = went else {
        return refused(session, 42);
    };
    conclude(&engine, &facts, &path, answer, walked, limit, used)
}

// 41, then 42 where the record can hold no session of the table, then the run by the table's rules, which are written in memory of its own too.
fn go_further(session: Session, further: u32, table: &[u8], answer: &mut [u8]) -> Moved
    requires lawful { Lawful table.now }
    requires in_bounds { 1024 ≤ length answer.old }
    ensures { (result.verdict ≡ verdict_told (called_in (find_in (rules_over table.now (replicate 16384 0))) (ground_in table.now).atoms session further)) × (result.session ≡ record_left (called_in (find_in (rules_over table.now (replicate 16384 0))) (ground_in table.now).atoms session further) session) × (answer.new ≡ answer_left (called_in (find_in (rules_over table.now (replicate 16384 0))) (ground_in table.now).atoms session further) answer.old) }
{
    if further > 4294967295 - session.count {
        return refused(session, 41);
    }
    let atoms = pair(table[8], table[9]);
    if !is_kept(session.verdict, session.length, session.deepest, atoms) {
        return refused(session, 42);
    }
    let mut own = [0u8; 16384];
    write_rules(table, &mut own);
    further_run(session, further, &own, answer, atoms)
}

// The same, and where it is not refused the rules are left in the rules buffer, and the work buffer zero.
pub fn run_on(
    session: Session,
    further: u32,
    table: &[u8],
    rules: &mut [u8],
    answer: &mut [u8],
    work: &mut [u8],
) -> Moved
    requires lawful { Lawful table.now }
    requires rules_len { (length rules.old ≡ 16384) × (1024 ≤ length answer.old) × (length work.old ≡ 65536) }
    ensures { (result.verdict ≡ verdict_told (called_in (find_in (rules_over table.now rules.old)) (ground_in table.now).atoms session further)) × (result.session ≡ record_left (called_in (find_in (rules_over table.now rules.old)) (ground_in table.now).atoms session further) session) × (rules.new ≡ rules_left (called_in (find_in (rules_over table.now rules.old)) (ground_in table.now).atoms session further) table.now rules.old) × (answer.new ≡ answer_left (called_in (find_in (rules_over table.now rules.old)) (ground_in table.now).atoms session further) answer.old) × (work.new ≡ work_left (called_in (find_in (rules_over table.now rules.old)) (ground_in table.now).atoms session further) work.old) }
{
    let moved = go_further(session, further, table, answer);
    let verdict = moved.verdict;
    let Verdict::Refused(_) = verdict else {
        write_rules(table, rules);
        lists::zero(work);
        return moved;
    };
    moved
}
