// A place of the walk: making the next one, from the path and the next alternative at each node.
ghost use Rattle.std.specs.Prelude.{true, false, ◌≡◌, ℕ, ◌+◌, ◌≤◌, ◌<◌, Some, refl};
ghost use Rattle.store.specs.terms.Store.{Store};
ghost use Rattle.problem.specs.Table.{Lawful};
ghost use Rattle.relevancy_rule.specs.terms.Index.{ClausesIndexed};
ghost use Rattle.relevancy_rule.specs.terms.Sweep.{SweepIndexed};
ghost use Rattle.ground.specs.Instance.{Instance, ground_in};
ghost use Rattle.ground.specs.terms.Branching.{NextOf};
ghost use Rattle.walk.specs.terms.Walker.{Run};
ghost use Rattle.walk.specs.terms.Path.{Room, next_at, deepest_at, site_at, alts_at};
ghost use Rattle.walk.specs.terms.Place.{Parted, Making, Beginning, Trying, Visiting};
ghost use Rattle.relevancy_walk.specs.terms.Place.{relevancy_walker, OwnFew, NodeTold};
ghost use Rattle.relevancy_walk.specs.SoundLaws.{sound, small};
ghost use Rattle.relevancy_walk.specs.TiedLaws.{tied};

use engine::engine::{Engine, Sites};
use ground::branch::branch_after;
use lists::pair;
use relevancy_close::close::start;
use relevancy_node::node::{settle, settle_root};
use relevancy_rule::answer::Node;
use store::add;
use walk::answer::Found;
use walk::node::{mark, note, number, pass, values};

// Alternative j of the split node at `depth`.
pub fn alternative_at(table: &[u8], path: &[u8], depth: usize, j: u8) -> Option<usize>
    requires lawful { Lawful table.now }
    requires room { Room path.now depth × (relevancy_walker table.now).Named (site_at (relevancy_walker table.now) path.now depth) }
    ensures { NextOf (alts_at (relevancy_walker table.now) path.now depth) j result }
{
    let four = values(path, depth);
    let record = 144 + 56 * number(path, depth);
    let count = table[record + 1] as usize;
    branch_after(table, record + 32, 6, count, &four, j as usize)
}

// How many atoms a valid table has.
pub fn atoms(table: &[u8]) -> usize
    requires lawful { Lawful table.now }
    ensures { result ≡ (ground_in table.now).atoms }
{
    pair(table[8], table[9])
}

// What a path can be read by: a valid table.
#[derive(Clone, Copy)]
pub struct ByTable<'a> {
    pub table: &'a [u8],
}

impl<'a> Sites for ByTable<'a> {
    ghost walker = { λ e. relevancy_walker e.table.now };

    ghost Known = { λ e. Lawful e.table.now };

    fn alternative_at(&self, path: &[u8], depth: usize, j: u8) -> Option<usize> {
        alternative_at(self.table, path, depth, j)
    }

    fn atoms(&self) -> usize {
        atoms(self.table)
    }

    ghost sound = { λ e known. sound e.table.now known };

    ghost small = { λ e known. small e.table.now known };

    ghost genuine = { λ e known bs. (λ g. g, λ g. g) };

    ghost tied = { λ e known. tied e.table.now };
}

// What the walk goes by below the root: a valid table, the indices of its conditions and of its alternatives, and that of the sweep.
#[derive(Clone, Copy)]
pub struct Relevancy<'a> {
    pub table: &'a [u8],
    pub conds: &'a [u16; 384],
    pub alts: &'a [u16; 384],
    pub new: &'a [u16; 1409],
}

impl<'a> Sites for Relevancy<'a> {
    ghost walker = { λ e. relevancy_walker e.table.now };

    ghost Known = { λ e. Lawful e.table.now };

    fn alternative_at(&self, path: &[u8], depth: usize, j: u8) -> Option<usize> {
        alternative_at(self.table, path, depth, j)
    }

    fn atoms(&self) -> usize {
        atoms(self.table)
    }

    ghost sound = { λ e known. sound e.table.now known };

    ghost small = { λ e known. small e.table.now known };

    ghost genuine = { λ e known bs. (λ g. g, λ g. g) };

    ghost tied = { λ e known. tied e.table.now };
}

impl<'a> Engine for Relevancy<'a> {
    ghost Fit = { λ e. Lawful e.table.now × ClausesIndexed e.table.now false e.conds.now × ClausesIndexed e.table.now true e.alts.now × SweepIndexed e.table.now e.new.now };

    fn enter(&self, facts: &mut [u8], path: &mut [u8], depth: usize, a: usize) -> Found {
        let own = mark(path, depth);
        pass(path, depth);
        let n = add(facts, 2050, own, a);
        let node = settle(self.table, self.conds, self.alts, self.new, facts, n, own);
        tell(path, depth + 1, node)
    }

    fn place(
        &self,
        facts: &mut [u8],
        path: &mut [u8],
        depth: usize,
        a: usize,
        count: u32,
        limit: u32,
    ) -> Found {
        self.enter(facts, path, depth, a)
    }

    ghost capacity = { λ e. refl };

    ghost known = { λ e fit. fit.0 };
}

// Tells how the node at `depth` is settled, and writes a split down.
pub fn tell(path: &mut [u8], depth: usize, node: Node) -> Found
    requires { Room path.old depth × OwnFew node }
    ensures { NodeTold node path.old depth result path.new }
{
    match node {
        Node::Split(m, own, k, a, b, c, d) => {
            note(path, depth, k as usize, a, b, c, d, own);
            Found::Split(m)
        }
        Node::Closed(m) => Found::Closed(m),
        Node::Open(m) => Found::Open(m),
    }
}

// Makes the root, in a set without facts.
pub fn root(
    table: &[u8],
    conds: &[u16; 384],
    alts: &[u16; 384],
    facts: &mut [u8],
    path: &mut [u8],
) -> Found
    requires lawful { Lawful table.now }
    requires clauses_indexed { ClausesIndexed table.now false conds.now × ClausesIndexed table.now true alts.now }
    requires store { Store 2050 facts.old 0 × Room path.old 0 }
    ensures { Beginning (relevancy_walker table.now) result facts.new path.new × (deepest_at path.new ≡ deepest_at path.old) }
{
    let n = start(table, facts);
    let node = settle_root(table, conds, alts, facts, n);
    tell(path, 0, node)
}
