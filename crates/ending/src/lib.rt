// The end of a run of any engine: its verdict, the model where there is one, and the session that it leaves, if one is kept.
#![tactic(auto)]

ghost use Rattle.std.specs.Prelude.{List, [], ◌≡◌, ℕ, ◌≤◌, length};
ghost use Rattle.search.specs.Session.{alts_found};
ghost use Rattle.ground.specs.Instance.{Instance};
ghost use Rattle.walk.specs.terms.Walker.{Run, from_root};
ghost use Rattle.walk.specs.terms.Walk.{Walks};
ghost use Rattle.session.specs.terms.End.{LeftBy, Replied, Concluded};

use engine::engine::Sites;
use engine::left::steps;
use session::end::{Left, give_model, moved, verdict_by};
use session::record::{Moved, Reply};
use walk::answer::Walked;
use walk::node::{deepest, next};

// The path at the end of a run, written down: where all is closed, the root alone, with all of its alternatives used.
fn path_left<S: Sites>(sites: &S, path: &[u8], walked: Walked, used: u8) -> Left
    requires known { S.Known sites.now }
    requires path_len { length path.now ≡ 9227 }
    requires used_value { used ≡ length (alts_found ((S.walker sites.now).find [])) }
    requires by_index { (facts : List ℕ) × ((r : Run Instance) × Walks (S.walker sites.now) r walked facts path.now) }
    ensures { LeftBy (S.walker sites.now) walked path.now result }
{
    let mut atoms = [0u16; 1024];
    let mut nexts = [0u8; 1024];
    let deepest = deepest(path) as u32;
    match walked {
        Walked::Opened(_, depth) => {
            steps(sites, path, depth, &mut atoms, &mut nexts);
            Left {
                next: 0,
                atoms,
                nexts,
                deepest,
            }
        }
        Walked::Exhausted(depth) => {
            steps(sites, path, depth, &mut atoms, &mut nexts);
            Left {
                next: next(path, depth),
                atoms,
                nexts,
                deepest,
            }
        }
        Walked::Shut(_) => Left {
            next: used,
            atoms,
            nexts,
            deepest,
        },
    }
}

// How a run ends that has made its walk in these buffers under a limit, with so many alternatives of the root used where all is closed: of every run that ends so.
// Not put in line: the session's 3,084 bytes, some four times, would lie on the stack beneath the whole walk.
#[inline(never)]
pub fn conclude<S: Sites>(
    sites: &S,
    facts: &[u8],
    path: &[u8],
    answer: &mut [u8],
    walked: Walked,
    limit: u32,
    used: u8,
) -> Moved
    requires known { S.Known sites.now }
    requires path_len { length path.now ≡ 9227 }
    requires used_value { used ≡ length (alts_found ((S.walker sites.now).find [])) }
    requires in_bounds { (1024 ≤ length answer.old) × (length facts.now ≡ 6150) }
    requires limit_value { (r : Run Instance) × ((r.limit ≡ limit) × Walks (S.walker sites.now) r walked facts.now path.now) }
    ensures { (r : Run Instance) → r.limit ≡ limit → Walks (S.walker sites.now) r walked facts.now path.now → Concluded (S.walker sites.now) r answer.old result answer.new }
{
    give_model(walked, facts, answer, sites.atoms());
    let left = path_left(sites, path, walked, used);
    moved(walked, limit, left)
}

// How a run from the root on ends that has made its walk in these buffers under a limit, and whose session is not kept.
pub fn reply<S: Sites>(
    sites: &S,
    facts: &[u8],
    path: &[u8],
    answer: &mut [u8],
    walked: Walked,
    limit: u32,
) -> Reply
    requires known { S.Known sites.now }
    requires in_bounds { (1024 ≤ length answer.old) × (length facts.now ≡ 6150) × (length path.now ≡ 9227) }
    requires walks { Walks (S.walker sites.now) (from_root (S.walker sites.now) 0 limit) walked facts.now path.now }
    ensures { Replied (S.walker sites.now) limit answer.old result answer.new }
{
    give_model(walked, facts, answer, sites.atoms());
    Reply {
        verdict: verdict_by(walked, limit),
        deepest: deepest(path) as u32,
    }
}
