// Going on with the session of a record: 41 and 42, then the run from where it stands.
ghost use Rattle.std.specs.Prelude.{◌≡◌, ◌+◌, ◌≤◌, length};
ghost use Rattle.search.specs.Relevancy.{find_r};
ghost use Rattle.problem.specs.Table.{Lawful};
ghost use Rattle.ground.specs.Instance.{ground_in};
ghost use Rattle.session.specs.Calls.{called_in, verdict_told, record_left, answer_left, work_left};

use ending::conclude;
use engine::left::root_alternatives;
use engine::resume::go_on;
use relevancy_rule::index::build;
use relevancy_walk::place::{ByTable, Relevancy, atoms, root};
use session::record::{Moved, Session, is_kept, refused};
use walk::node::bring;
use walk::standing::Onward;

// The run, in memory of its own: what is lent is written only where the session is one of the walk.
fn further_run(
    session: Session,
    further: u32,
    table: &[u8],
    answer: &mut [u8],
    work: &mut [u8],
) -> Moved
    requires lawful { Lawful table.now }
    requires in_bounds { (1024 ≤ length answer.old) × (length work.old ≡ 65536) }
    requires verdict_bound { (session.verdict ≤ 2) × (session.length ≤ 1024) × (session.count + further ≤ 4294967295) }
    requires length_le_deepest { (session.length ≤ session.deepest) × (session.deepest ≤ (ground_in table.now).atoms) }
    ensures { (result.verdict ≡ verdict_told (called_in (find_r (ground_in table.now)) (ground_in table.now).atoms session further)) × (result.session ≡ record_left (called_in (find_r (ground_in table.now)) (ground_in table.now).atoms session further) session) × (answer.new ≡ answer_left (called_in (find_r (ground_in table.now)) (ground_in table.now).atoms session further) answer.old) × (work.new ≡ work_left (called_in (find_r (ground_in table.now)) (ground_in table.now).atoms session further) work.old) }
{
    let conds = build(table, false);
    let alts = build(table, true);
    let mut facts = [0u8; 6150];
    let mut path = [0u8; 9227];
    let entered = session.atoms;
    let nexts = session.nexts;
    let steps = session.length as usize;
    let limit = session.count + further;
    bring(&mut path, session.deepest as usize);
    let found = root(table, &conds, &alts, &mut facts, &mut path);
    let used = root_alternatives(&ByTable { table }, &path, found);
    let mut new = [0u16; 1409];
    relevancy_close::sweep::build(table, &facts, 0 < used, &mut new);
    let on = Onward {
        standing: session.verdict,
        next: session.next,
        count: session.count,
        limit,
    };
    let engine = Relevancy {
        table,
        conds: &conds,
        alts: &alts,
        new: &new,
    };
    let went = go_on(
        &engine, &mut facts, &mut path, &entered, &nexts, steps, found, on,
    );
    let Some(walked) = went else {
        return refused(session, 42);
    };
    lists::zero(work);
    conclude(&engine, &facts, &path, answer, walked, limit, used)
}

// 41, then 42 where the record can hold no session of the table, then the run from where it stands.
pub fn go_further(
    session: Session,
    further: u32,
    table: &[u8],
    answer: &mut [u8],
    work: &mut [u8],
) -> Moved
    requires lawful { Lawful table.now }
    requires in_bounds { (1024 ≤ length answer.old) × (length work.old ≡ 65536) }
    ensures { (result.verdict ≡ verdict_told (called_in (find_r (ground_in table.now)) (ground_in table.now).atoms session further)) × (result.session ≡ record_left (called_in (find_r (ground_in table.now)) (ground_in table.now).atoms session further) session) × (answer.new ≡ answer_left (called_in (find_r (ground_in table.now)) (ground_in table.now).atoms session further) answer.old) × (work.new ≡ work_left (called_in (find_r (ground_in table.now)) (ground_in table.now).atoms session further) work.old) }
{
    if further > 4294967295 - session.count {
        return refused(session, 41);
    }
    if !is_kept(
        session.verdict,
        session.length,
        session.deepest,
        atoms(table),
    ) {
        return refused(session, 42);
    }
    further_run(session, further, table, answer, work)
}
