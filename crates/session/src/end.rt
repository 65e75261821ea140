// The end of a run: its verdict, the model where there is one, and the record of the session that it leaves, if one is kept.
ghost use Rattle.std.specs.Prelude.{◌≡◌, ◌+◌, ◌≤◌, length};
ghost use Rattle.lists.specs.Bytes.{is_set};
ghost use Rattle.search.specs.Relevancy.{model_bits};
ghost use Rattle.session.specs.terms.End.{depth_of, answer_by, verdict_by, moved_by};

use crate::record::{Moved, Session};
use ground::verdict::{Verdict, give};
use walk::answer::Walked;

// What a run leaves of its path: the next alternative of the last node, the slots of the record, and how many entries the longest path had.
#[derive(Drop)]
pub struct Left {
    pub next: u8,
    pub atoms: [u16; 1024],
    pub nexts: [u8; 1024],
    pub deepest: u32,
}

// Gives the model where a place is open.
pub fn give_model(walked: Walked, facts: &[u8], answer: &mut [u8], atoms: usize)
    requires { (atoms ≤ 1024) × (atoms ≤ length answer.old) × (6150 ≤ length facts.now) }
    ensures { answer.new ≡ answer_by walked (model_bits atoms (is_set facts.now) (λ a. is_set facts.now (1025 + a))) answer.old }
{
    if let Walked::Opened(_, _) = walked {
        give(facts, answer, atoms);
    }
}

// The verdict of a run that ends so under a limit.
pub fn verdict_by(walked: Walked, limit: u32) -> Verdict
    ensures { result ≡ verdict_by walked limit }
{
    match walked {
        Walked::Opened(count, _) => Verdict::Satisfied(count),
        Walked::Shut(count) => Verdict::Refuted(count),
        Walked::Exhausted(_) => Verdict::Exhausted(limit),
    }
}

// The same, and its session.
pub fn moved(walked: Walked, limit: u32, left: Left) -> Moved
    requires { depth_of walked ≤ 1024 }
    ensures { result ≡ moved_by walked limit left }
{
    let Left {
        next,
        atoms,
        nexts,
        deepest,
    } = left;
    match walked {
        Walked::Opened(count, depth) => Moved {
            verdict: Verdict::Satisfied(count),
            session: Session {
                count,
                length: depth as u16,
                verdict: 1,
                next,
                atoms,
                nexts,
                deepest,
            },
        },
        Walked::Shut(count) => Moved {
            verdict: Verdict::Refuted(count),
            session: Session {
                count,
                length: 0,
                verdict: 0,
                next,
                atoms,
                nexts,
                deepest,
            },
        },
        Walked::Exhausted(depth) => Moved {
            verdict: Verdict::Exhausted(limit),
            session: Session {
                count: limit,
                length: depth as u16,
                verdict: 2,
                next,
                atoms,
                nexts,
                deepest,
            },
        },
    }
}
