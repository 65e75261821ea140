// Going on with a session: its path is entered again without being counted, and the walk goes on from its last node.
ghost use Rattle.std.specs.Prelude.{◌≡◌, ◌≤◌, length};
ghost use Rattle.std.proofs.Math.Option.{some};
ghost use Rattle.ground.specs.Instance.{Instance};
ghost use Rattle.search.specs.Session.{path_of, place_of};
ghost use Rattle.walk.specs.terms.Walker.{Run};
ghost use Rattle.walk.specs.terms.Path.{mark_at, deepest_at, path_in};
ghost use Rattle.walk.specs.terms.Place.{Parted, Reached, Trying, Beginning};
ghost use Rattle.walk.specs.terms.Walk.{Leaves, Ended};
ghost use Rattle.walk.specs.Numbers.{steps_in, session_of};
ghost use Rattle.walk.specs.terms.Resume.{last_in, Resumes, GoesOn};

use crate::alternatives::alternatives_at;
use crate::engine::Engine;
use crate::visiting::try_next;
use store::undo;
use walk::answer::{Found, Walked};
use walk::node::mark;
use walk::standing::{Onward, closed_stands, open_stands, rewind};

// Tries the alternatives left at the split node at `depth`, and takes its facts back to the first `done` where all is closed.
fn work_off<E: Engine>(
    engine: &E,
    facts: &mut [u8],
    path: &mut [u8],
    depth: usize,
    done: usize,
    count: u32,
    limit: u32,
) -> Walked
    requires fit { E.Fit engine.now }
    requires parted { Parted (E.walker engine.now) facts.old path.old depth }
    requires done_bound { (done ≤ mark_at path.old depth) × (count ≤ limit) }
    ensures { Leaves (E.walker engine.now) facts.old path.old depth done count limit result facts.new path.new × ((r : Run Instance) → r.limit ≡ limit → Trying (E.walker engine.now) r path.old depth count → Ended (E.walker engine.now) r path.old depth result facts.new path.new) }
{
    let own = mark(path, depth);
    let walked = try_next(engine, facts, path, depth, count, limit);
    let Walked::Shut(shut) = walked else {
        return walked;
    };
    undo(facts, 2050, own, done);
    Walked::Shut(shut)
}

// The last node of a session's path, at `depth`: goes on from it, or not, where no session may stand there.
fn stand<E: Engine>(
    engine: &E,
    facts: &mut [u8],
    path: &mut [u8],
    depth: usize,
    done: usize,
    found: Found,
    on: Onward,
) -> Option<Walked>
    requires fit { E.Fit engine.now }
    requires reached { Reached (E.walker engine.now) facts.old path.old depth done found }
    ensures { Resumes (E.walker engine.now) (last_in (E.walker engine.now) path.old depth on.standing on.next) facts.old path.old depth done on.count on.limit result facts.new path.new }
{
    match found {
        Found::Split(n) => {
            let all = alternatives_at(engine, path, depth);
            if !all.split_stands(depth, on.standing, on.next) {
                return None;
            }
            rewind(facts, path, 2050, depth, n, on.next);
            let walked = work_off(engine, facts, path, depth, done, on.count, on.limit);
            Some(walked)
        }
        Found::Closed(n) => {
            if !closed_stands(depth, on.standing, on.next) {
                return None;
            }
            undo(facts, 2050, n, done);
            Some(Walked::Shut(on.count))
        }
        Found::Open(_) => {
            if !open_stands(on.standing, on.next) {
                return None;
            }
            Some(Walked::Opened(on.count, depth))
        }
    }
}

// Goes on with a session from the node at `depth` on: the steps from there on are entered again, each as the alternative that the walk takes there.
fn resume<E: Engine>(
    engine: &E,
    facts: &mut [u8],
    path: &mut [u8],
    atoms: &[u16],
    nexts: &[u8],
    steps: usize,
    depth: usize,
    done: usize,
    found: Found,
    on: Onward,
) -> Option<Walked>
    requires fit { E.Fit engine.now }
    requires reached { Reached (E.walker engine.now) facts.old path.old depth done found }
    requires depth_value { path_of (E.walker engine.now).find (steps_in atoms.now nexts.now depth) ≡ some (path_in (E.walker engine.now) path.old depth) }
    requires depth_le_steps { (depth ≤ steps) × (steps ≤ length atoms.now) × (steps ≤ length nexts.now) }
    requires steps_bound { steps ≤ deepest_at path.old }
    ensures { Resumes (E.walker engine.now) (place_of (E.walker engine.now).find (session_of on.standing on.count atoms.now nexts.now steps on.next (deepest_at path.old))) facts.old path.old depth done on.count on.limit result facts.new path.new }
{
    if depth == steps {
        return stand(engine, facts, path, depth, done, found, on);
    }
    let Found::Split(n) = found else {
        return None;
    };
    let a = atoms[depth] as usize;
    let j = nexts[depth];
    let all = alternatives_at(engine, path, depth);
    if !all.is_taken(j, a) {
        return None;
    }
    rewind(facts, path, 2050, depth, n, j - 1);
    let own = mark(path, depth);
    let made = engine.enter(facts, path, depth, a);
    let walked = resume(
        engine,
        facts,
        path,
        atoms,
        nexts,
        steps,
        depth + 1,
        own,
        made,
        on,
    )?;
    let Walked::Shut(shut) = walked else {
        return Some(walked);
    };
    let rest = work_off(engine, facts, path, depth, done, shut, on.limit);
    Some(rest)
}

// Goes on with a session of so many steps, from the root on, which has just been found so; not where it is none of the walk.
pub fn go_on<E: Engine>(
    engine: &E,
    facts: &mut [u8],
    path: &mut [u8],
    atoms: &[u16],
    nexts: &[u8],
    steps: usize,
    found: Found,
    on: Onward,
) -> Option<Walked>
    requires fit { E.Fit engine.now }
    requires beginning { Beginning (E.walker engine.now) found facts.old path.old }
    requires steps_in_bounds { (steps ≤ length atoms.now) × (steps ≤ length nexts.now) }
    requires steps_bound { steps ≤ deepest_at path.old }
    ensures { GoesOn (E.walker engine.now) (place_of (E.walker engine.now).find (session_of on.standing on.count atoms.now nexts.now steps on.next (deepest_at path.old))) on.count (deepest_at path.old) on.limit result facts.new path.new }
{
    resume(engine, facts, path, atoms, nexts, steps, 0, 0, found, on)
}
