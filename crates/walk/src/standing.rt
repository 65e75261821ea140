// Where a session may stand at a node that is not split, and a split node taken back to an alternative of it.
ghost use Rattle.std.specs.Prelude.{◌≡◌, ◌+◌, ◌≤◌, set};
ghost use Rattle.store.specs.terms.Store.{Store, Undone};
ghost use Rattle.walk.specs.terms.Path.{Room, node_at, mark_at};
ghost use Rattle.walk.specs.Numbers.{standing_by};
ghost use Rattle.walk.specs.terms.Resume.{closed_stands, open_stands};

use crate::node::{mark, turn};
use store::undo;

// How a session goes on: its verdict, the next alternative of its last node, its count, and the limit, that count included.
#[derive(Clone, Copy)]
pub struct Onward {
    pub standing: u8,
    pub next: u8,
    pub count: u32,
    pub limit: u32,
    pub ghost within: { count ≤ limit },
}

// Whether a session may stand at a closed node at `depth`.
pub fn closed_stands(depth: usize, standing: u8, next: u8) -> bool
    ensures { result ≡ closed_stands (standing_by standing) depth next }
{
    if standing == 1 {
        return false;
    }
    if next > 0 {
        return false;
    }
    if standing > 1 {
        return true;
    }
    depth == 0
}

// Whether a session may stand at an open node.
pub fn open_stands(standing: u8, next: u8) -> bool
    ensures { result ≡ open_stands (standing_by standing) next }
{
    if standing == 0 {
        return false;
    }
    next == 0
}

// Takes the set of n facts back to the own facts of the split node at `depth`, and turns the node to an alternative.
pub fn rewind(facts: &mut [u8], path: &mut [u8], capacity: usize, depth: usize, n: usize, next: u8)
    requires store { Store capacity facts.old n × (capacity ≤ 20000) }
    requires room { Room path.old depth × (mark_at path.old depth ≤ n) }
    ensures { Undone capacity facts.old (mark_at path.old depth) facts.new × (path.new ≡ set path.old (node_at depth + 6) next) }
{
    let own = mark(path, depth);
    undo(facts, capacity, n, own);
    turn(path, depth, next);
}
