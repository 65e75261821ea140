// The calls with a session, for a host in C: the session is a struct lent by address, and one number comes back.
ghost use Rattle.std.specs.Prelude.{◌≡◌};
ghost use Rattle.session.specs.Calls.{verdict_told, deepest_told, record_left, answer_left, work_left};
ghost use Rattle.relevancy.specs.Engine.{fit_result, fit_deepest, fit_answer, fit_work};
ghost use Rattle.relevancy.specs.Sessions.{begun, resumed};
ghost use Rattle.magic.specs.Engine.{magic_result, magic_deepest, magic_rules, magic_answer, magic_work};
ghost use Rattle.magic.specs.Sessions.{magic_begun, magic_resumed, rules_left};
ghost use Rattle.lutsamik.specs.Pack.{pack_verdict};

use crate::pack_verdict;
use session::record::{Moved, Session};

// What a call gives back, its verdict as one number.
#[derive(Drop)]
pub struct Returned {
    pub session: Session,
    pub number: u64,
}

fn pack_moved(moved: Moved) -> Returned
    ensures { (result.number ≡ pack_verdict moved.verdict moved.session.deepest) × (result.session ≡ moved.session) }
{
    let session = moved.session;
    let verdict = moved.verdict;
    let deepest = session.deepest;
    Returned {
        session: session,
        number: pack_verdict(verdict, deepest),
    }
}

fn begin_relevancy(session: Session, table: &[u8], answer: &mut [u8], work: &mut [u8]) -> Returned
    ensures { (result.number ≡ pack_verdict (fit_result table.now answer.old work.old) (fit_deepest table.now answer.old work.old)) × (result.session ≡ record_left (begun table.now answer.old work.old) session) × (answer.new ≡ fit_answer table.now answer.old work.old) × (work.new ≡ fit_work table.now answer.old work.old) }
{
    pack_moved(relevancy_calls::fit::begin(session, table, answer, work))
}

fn resume_relevancy(
    session: Session,
    further: u32,
    table: &[u8],
    answer: &mut [u8],
    work: &mut [u8],
) -> Returned
    ensures { (result.number ≡ pack_verdict (verdict_told (resumed session further table.now answer.old work.old)) (deepest_told (resumed session further table.now answer.old work.old))) × (result.session ≡ record_left (resumed session further table.now answer.old work.old) session) × (answer.new ≡ answer_left (resumed session further table.now answer.old work.old) answer.old) × (work.new ≡ work_left (resumed session further table.now answer.old work.old) work.old) }
{
    pack_moved(relevancy_calls::fit::resume(session, further, table, answer, work))
}

fn begin_magic(
    session: Session,
    table: &[u8],
    rules: &mut [u8],
    answer: &mut [u8],
    work: &mut [u8],
) -> Returned
    ensures { (result.number ≡ pack_verdict (magic_result table.now rules.old answer.old work.old) (magic_deepest table.now rules.old answer.old work.old)) × (result.session ≡ record_left (magic_begun table.now rules.old answer.old work.old) session) × (rules.new ≡ magic_rules table.now rules.old answer.old work.old) × (answer.new ≡ magic_answer table.now rules.old answer.old work.old) × (work.new ≡ magic_work table.now rules.old answer.old work.old) }
{
    pack_moved(magic_calls::fit::begin(session, table, rules, answer, work))
}

fn resume_magic(
    session: Session,
    further: u32,
    table: &[u8],
    rules: &mut [u8],
    answer: &mut [u8],
    work: &mut [u8],
) -> Returned
    ensures { (result.number ≡ pack_verdict (verdict_told (magic_resumed session further table.now rules.old answer.old work.old)) (deepest_told (magic_resumed session further table.now rules.old answer.old work.old))) × (result.session ≡ record_left (magic_resumed session further table.now rules.old answer.old work.old) session) × (rules.new ≡ rules_left (magic_resumed session further table.now rules.old answer.old work.old) table.now rules.old) × (answer.new ≡ answer_left (magic_resumed session further table.now rules.old answer.old work.old) answer.old) × (work.new ≡ work_left (magic_resumed session further table.now rules.old answer.old work.old) work.old) }
{
    pack_moved(magic_calls::fit::resume(session, further, table, rules, answer, work))
}

// A first run by the relevancy engine, which leaves a session.
#[unsafe(no_mangle)]
pub extern "C" fn lutsamik_begin_relevancy(
    session: &mut Session,
    table: &[u8],
    answer: &mut [u8],
    work: &mut [u8],
) -> u64
    ensures { (result ≡ pack_verdict (fit_result table.now answer.old work.old) (fit_deepest table.now answer.old work.old)) × (session.new ≡ record_left (begun table.now answer.old work.old) session.old) × (answer.new ≡ fit_answer table.now answer.old work.old) × (work.new ≡ fit_work table.now answer.old work.old) }
{
    let m = begin_relevancy(*session, table, answer, work);
    *session = m.session;
    m.number
}

// The relevancy engine goes on with a session, under a further limit.
#[unsafe(no_mangle)]
pub extern "C" fn lutsamik_resume_relevancy(
    session: &mut Session,
    further: u32,
    table: &[u8],
    answer: &mut [u8],
    work: &mut [u8],
) -> u64
    ensures { (result ≡ pack_verdict (verdict_told (resumed session.old further table.now answer.old work.old)) (deepest_told (resumed session.old further table.now answer.old work.old))) × (session.new ≡ record_left (resumed session.old further table.now answer.old work.old) session.old) × (answer.new ≡ answer_left (resumed session.old further table.now answer.old work.old) answer.old) × (work.new ≡ work_left (resumed session.old further table.now answer.old work.old) work.old) }
{
    let m = resume_relevancy(*session, further, table, answer, work);
    *session = m.session;
    m.number
}

// A first run by the magic engine, which leaves a session.
#[unsafe(no_mangle)]
pub extern "C" fn lutsamik_begin_magic(
    session: &mut Session,
    table: &[u8],
    rules: &mut [u8],
    answer: &mut [u8],
    work: &mut [u8],
) -> u64
    ensures { (result ≡ pack_verdict (magic_result table.now rules.old answer.old work.old) (magic_deepest table.now rules.old answer.old work.old)) × (session.new ≡ record_left (magic_begun table.now rules.old answer.old work.old) session.old) × (rules.new ≡ magic_rules table.now rules.old answer.old work.old) × (answer.new ≡ magic_answer table.now rules.old answer.old work.old) × (work.new ≡ magic_work table.now rules.old answer.old work.old) }
{
    let m = begin_magic(*session, table, rules, answer, work);
    *session = m.session;
    m.number
}

// The magic engine goes on with a session, under a further limit.
#[unsafe(no_mangle)]
pub extern "C" fn lutsamik_resume_magic(
    session: &mut Session,
    further: u32,
    table: &[u8],
    rules: &mut [u8],
    answer: &mut [u8],
    work: &mut [u8],
) -> u64
    ensures { (result ≡ pack_verdict (verdict_told (magic_resumed session.old further table.now rules.old answer.old work.old)) (deepest_told (magic_resumed session.old further table.now rules.old answer.old work.old))) × (session.new ≡ record_left (magic_resumed session.old further table.now rules.old answer.old work.old) session.old) × (rules.new ≡ rules_left (magic_resumed session.old further table.now rules.old answer.old work.old) table.now rules.old) × (answer.new ≡ answer_left (magic_resumed session.old further table.now rules.old answer.old work.old) answer.old) × (work.new ≡ work_left (magic_resumed session.old further table.now rules.old answer.old work.old) work.old) }
{
    let m = resume_magic(*session, further, table, rules, answer, work);
    *session = m.session;
    m.number
}
