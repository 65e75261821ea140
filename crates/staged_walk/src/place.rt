// A place of the walk: making the next one, from the path and the next alternative at each node.
ghost use Rattle.std.specs.Prelude.{◌≡◌, refl};
ghost use Rattle.store.specs.terms.Store.{Store};
ghost use Rattle.problem.specs.Table.{Lawful};
ghost use Rattle.walk.specs.terms.Path.{Room, deepest_at};
ghost use Rattle.walk.specs.terms.Place.{Beginning};
ghost use Rattle.staged_walk.specs.terms.Place.{staged_walker, StagesLent};
ghost use Rattle.staged_walk.specs.SoundLaws.{sound, small};
ghost use Rattle.staged_walk.specs.TiedLaws.{tied};

use engine::engine::{Engine, Sites};
use relevancy_close::close::start;
use relevancy_walk::place::tell;
use staged_node::node::settle;
use store::add;
use walk::answer::Found;
use walk::node::{mark, pass};

// What a path can be read by: a valid table.
#[derive(Clone, Copy)]
pub struct ByTable<'a> {
    pub table: &'a [u8],
}

impl<'a> Sites for ByTable<'a> {
    ghost walker = { λ e. staged_walker e.table.now };

    ghost Known = { λ e. Lawful e.table.now };

    // It is read from the record as in the relevancy engine's walk.
    fn alternative_at(&self, path: &[u8], depth: usize, j: u8) -> Option<usize> {
        relevancy_walk::place::alternative_at(self.table, path, depth, j)
    }

    fn atoms(&self) -> usize {
        relevancy_walk::place::atoms(self.table)
    }

    ghost sound = { λ e known. sound e.table.now known };

    ghost small = { λ e known. small e.table.now known };

    ghost genuine = { λ e known bs. (λ g. g, λ g. g) };

    ghost tied = { λ e known. tied e.table.now };
}

// What the walk goes by: a valid table, the table of its chaining clauses, the index of its conditions, and the index of that table's alternatives.
#[derive(Clone, Copy)]
pub struct Staged<'a> {
    pub table: &'a [u8],
    pub horn: &'a [u8],
    pub conds: &'a [u16; 384],
    pub chains: &'a [u16; 384],
}

impl<'a> Staged<'a> {
    // Makes the root, in a set without facts.
    pub fn root(&self, facts: &mut [u8], path: &mut [u8]) -> Found
        requires lawful { Lawful self.now.table.now }
        requires stages_lent { StagesLent self.now.table.now self.now.horn.now self.now.conds.now self.now.chains.now }
        requires store { Store 2050 facts.old 0 × Room path.old 0 }
        ensures { Beginning (staged_walker self.now.table.now) result facts.new path.new × (deepest_at path.new ≡ deepest_at path.old) }
    {
        let n = start(self.table, facts);
        let node = settle(self.table, self.horn, self.conds, self.chains, facts, n, 0);
        tell(path, 0, node)
    }
}

impl<'a> Sites for Staged<'a> {
    ghost walker = { λ e. staged_walker e.table.now };

    ghost Known = { λ e. Lawful e.table.now };

    fn alternative_at(&self, path: &[u8], depth: usize, j: u8) -> Option<usize> {
        ByTable { table: self.table }.alternative_at(path, depth, j)
    }

    fn atoms(&self) -> usize {
        ByTable { table: self.table }.atoms()
    }

    ghost sound = { λ e known. sound e.table.now known };

    ghost small = { λ e known. small e.table.now known };

    ghost genuine = { λ e known bs. (λ g. g, λ g. g) };

    ghost tied = { λ e known. tied e.table.now };
}

impl<'a> Engine for Staged<'a> {
    ghost Fit = { λ e. Lawful e.table.now × StagesLent e.table.now e.horn.now e.conds.now e.chains.now };

    fn enter(&self, facts: &mut [u8], path: &mut [u8], depth: usize, a: usize) -> Found {
        let own = mark(path, depth);
        pass(path, depth);
        let n = add(facts, 2050, own, a);
        let node = settle(
            self.table,
            self.horn,
            self.conds,
            self.chains,
            facts,
            n,
            own,
        );
        tell(path, depth + 1, node)
    }

    fn place(
        &self,
        facts: &mut [u8],
        path: &mut [u8],
        depth: usize,
        a: usize,
        count: u32,
        limit: u32,
    ) -> Found {
        self.enter(facts, path, depth, a)
    }

    ghost capacity = { λ e. refl };

    ghost known = { λ e fit. fit.0 };
}
