// The walk: visiting a node, which calls the trying of alternatives, which calls visiting.
ghost use Rattle.std.specs.Prelude.{◌≡◌, ◌≤◌};
ghost use Rattle.ground.specs.Instance.{Instance};
ghost use Rattle.walk.specs.terms.Walker.{Run, from_root};
ghost use Rattle.walk.specs.terms.Path.{mark_at, deepest_at};
ghost use Rattle.walk.specs.terms.Place.{Parted, Reached, Visiting, Trying, Beginning};
ghost use Rattle.walk.specs.terms.Walk.{Leaves, Ended, Walks};

use crate::alternatives::alternative;
use crate::engine::Engine;
use store::undo;
use walk::answer::{Found, Walked};
use walk::node::mark;

// Visits the node at `depth`, which is entry `count` and found so; its facts are taken back to the first `done` where all is closed.
#[cycle(try_next_visit)]
pub fn visit<E: Engine>(
    engine: &E,
    facts: &mut [u8],
    path: &mut [u8],
    depth: usize,
    done: usize,
    found: Found,
    count: u32,
    limit: u32,
) -> Walked
    requires fit { E.Fit engine.now }
    requires reached { Reached (E.walker engine.now) facts.old path.old depth done found }
    requires count_le_limit { count ≤ limit }
    ensures { Leaves (E.walker engine.now) facts.old path.old depth done count limit result facts.new path.new × ((r : Run Instance) → r.limit ≡ limit → Visiting (E.walker engine.now) r facts.old path.old depth found count → Ended (E.walker engine.now) r path.old depth result facts.new path.new) }
{
    match found {
        Found::Split(n) => {
            let own = mark(path, depth);
            undo(facts, 2050, n, own);
            let walked = try_next(engine, facts, path, depth, count, limit);
            let Walked::Shut(shut) = walked else {
                return walked;
            };
            undo(facts, 2050, own, done);
            Walked::Shut(shut)
        }
        Found::Closed(n) => {
            undo(facts, 2050, n, done);
            Walked::Shut(count)
        }
        Found::Open(_) => Walked::Opened(count, depth),
    }
}

// Tries the alternatives left at the split node at `depth`, one after another, after `count` entries.
#[cycle(try_next_visit)]
pub fn try_next<E: Engine>(
    engine: &E,
    facts: &mut [u8],
    path: &mut [u8],
    depth: usize,
    count: u32,
    limit: u32,
) -> Walked
    requires fit { E.Fit engine.now }
    requires parted { Parted (E.walker engine.now) facts.old path.old depth }
    requires count_le_limit { count ≤ limit }
    ensures { Leaves (E.walker engine.now) facts.old path.old depth (mark_at path.old depth) count limit result facts.new path.new × ((r : Run Instance) → r.limit ≡ limit → Trying (E.walker engine.now) r path.old depth count → Ended (E.walker engine.now) r path.old depth result facts.new path.new) }
{
    let own = mark(path, depth);
    let mut made = count;
    while let Some(a) = alternative(engine, path, depth) {
        if made == limit {
            return Walked::Exhausted(depth);
        }
        let found = engine.place(facts, path, depth, a, made, limit);
        let walked = visit(engine, facts, path, depth + 1, own, found, made + 1, limit);
        let Walked::Shut(shut) = walked else {
            return walked;
        };
        made = shut;
    }
    Walked::Shut(made)
}

// The whole walk under a limit, from the root on, which has just been found so.
pub fn from_root<E: Engine>(
    engine: &E,
    facts: &mut [u8],
    path: &mut [u8],
    found: Found,
    limit: u32,
) -> Walked
    requires fit { E.Fit engine.now }
    requires beginning { Beginning (E.walker engine.now) found facts.old path.old }
    ensures { Walks (E.walker engine.now) (from_root (E.walker engine.now) (deepest_at path.old) limit) result facts.new path.new }
{
    visit(engine, facts, path, 0, 0, found, 0, limit)
}
