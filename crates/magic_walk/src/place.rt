// A place of the walk: making the next one, from the path and the next alternative at each node.
ghost use Rattle.std.specs.Prelude.{◌≡◌, ℕ, ◌+◌, ◌≤◌, ◌<◌, Some, refl};
ghost use Rattle.store.specs.terms.Store.{Store};
ghost use Rattle.rewriting.specs.Facts.{false_in};
ghost use Rattle.rewriting.specs.terms.Ruled.{Ruled};
ghost use Rattle.magic_rule.specs.terms.Index.{RulesIndexed};
ghost use Rattle.magic_rule.specs.terms.Watch.{site_place};
ghost use Rattle.magic_rule.specs.terms.Node.{HeldOpening};
ghost use Rattle.ground.specs.Instance.{Instance};
ghost use Rattle.ground.specs.terms.Branching.{NextOf};
ghost use Rattle.walk.specs.terms.Walker.{Run};
ghost use Rattle.walk.specs.terms.Path.{Room, next_at, deepest_at, site_at, alts_at};
ghost use Rattle.walk.specs.terms.Place.{Parted, Finding, Making, Beginning, Trying, Visiting};
ghost use Rattle.magic_walk.specs.terms.Place.{rule_site, magic_walker, HeldFresh, OwnFacts};
ghost use Rattle.magic_walk.specs.SoundLaws.{sound, small};
ghost use Rattle.magic_walk.specs.TiedLaws.{magic_tied};

use engine::engine::{Engine, Sites};
use ground::branch::branch_after;
use lists::pair;
use magic_close::close::start;
use magic_node::node::settle;
use magic_rule::answer::Node;
use magic_rule::fact::place_at;
use store::add;
use walk::answer::Found;
use walk::node::{mark, note, number, pass, values};

// Alternative j of the split node at `depth`.
pub fn alternative_at(rules: &[u8], path: &[u8], depth: usize, j: u8) -> Option<usize>
    requires ruled { Ruled rules.now }
    requires room { Room path.now depth × (magic_walker rules.now).Named (site_at (magic_walker rules.now) path.now depth) }
    ensures { NextOf (alts_at (magic_walker rules.now) path.now depth) j result }
{
    let four = values(path, depth);
    let record = 144 + 42 * number(path, depth);
    let count = rules[record + 5] as usize;
    branch_after(rules, record + 26, 4, count, &four, j as usize)
}

// How many atoms the rules speak of.
pub fn atoms(rules: &[u8]) -> usize
    requires ruled { Ruled rules.now }
    ensures { result ≡ false_in rules.now }
{
    pair(rules[8], rules[9])
}

// What a path can be read by: the rules of a buffer.
#[derive(Clone, Copy)]
pub struct ByRules<'a> {
    pub rules: &'a [u8],
}

impl<'a> Sites for ByRules<'a> {
    ghost walker = { λ e. magic_walker e.rules.now };

    ghost Known = { λ e. Ruled e.rules.now };

    fn alternative_at(&self, path: &[u8], depth: usize, j: u8) -> Option<usize> {
        alternative_at(self.rules, path, depth, j)
    }

    fn atoms(&self) -> usize {
        atoms(self.rules)
    }

    ghost sound = { λ e known. sound e.rules.now known };

    ghost small = { λ e known. small e.rules.now known };

    ghost genuine = { λ e known bs. (λ g. g, λ g. g) };

    ghost tied = { λ e known. magic_tied e.rules.now known };
}

// What the walk goes by: the rules of a buffer and their index.
#[derive(Clone, Copy)]
pub struct Magic<'a> {
    pub rules: &'a [u8],
    pub index: &'a [u16; 6656],
}

impl<'a> Sites for Magic<'a> {
    ghost walker = { λ e. magic_walker e.rules.now };

    ghost Known = { λ e. Ruled e.rules.now };

    fn alternative_at(&self, path: &[u8], depth: usize, j: u8) -> Option<usize> {
        alternative_at(self.rules, path, depth, j)
    }

    fn atoms(&self) -> usize {
        atoms(self.rules)
    }

    ghost sound = { λ e known. sound e.rules.now known };

    ghost small = { λ e known. small e.rules.now known };

    ghost genuine = { λ e known bs. (λ g. g, λ g. g) };

    ghost tied = { λ e known. magic_tied e.rules.now known };
}

impl<'a> Magic<'a> {
    // The place, in the walk's order, of the instance that the node at `depth` is split at.
    fn split_place(&self, path: &[u8], depth: usize) -> usize
        requires ruled { Ruled self.now.rules.now }
        requires room { Room path.now depth × (magic_walker self.now.rules.now).Named (site_at (magic_walker self.now.rules.now) path.now depth) }
        ensures { result ≡ site_place self.now.rules.now (rule_site (site_at (magic_walker self.now.rules.now) path.now depth)) }
    {
        let four = values(path, depth);
        place_at(self.rules, number(path, depth) as u16, &four)
    }

    // Finds the place at `depth`, whose facts begin with n facts, of which `done` are worked off, with instances to split watched from `from` on.
    fn find(
        &self,
        facts: &mut [u8],
        path: &mut [u8],
        depth: usize,
        n: usize,
        done: usize,
        from: usize,
    ) -> Found
        requires ruled { Ruled self.now.rules.now × RulesIndexed self.now.rules.now self.now.index.now }
        requires room { Room path.old depth × HeldOpening self.now.rules.now facts.old n done from × HeldFresh self.now.rules.now facts.old path.old depth n }
        ensures { Finding (magic_walker self.now.rules.now) facts.old path.old depth n done result facts.new path.new × OwnFacts path.new depth result }
    {
        let node = settle(self.rules, self.index, facts, n, done, from);
        match node {
            Node::Split(m, q, a, b, c, d) => {
                note(path, depth, q as usize, a, b, c, d, m);
                Found::Split(m)
            }
            Node::Closed(m) => Found::Closed(m),
            Node::Open(m) => Found::Open(m),
        }
    }

    // Makes the root, in a set without facts.
    pub fn root(&self, facts: &mut [u8], path: &mut [u8]) -> Found
        requires ruled { Ruled self.now.rules.now × RulesIndexed self.now.rules.now self.now.index.now }
        requires store { Store 2050 facts.old 0 × Room path.old 0 }
        ensures { Beginning (magic_walker self.now.rules.now) result facts.new path.new × OwnFacts path.new 0 result × (deepest_at path.new ≡ deepest_at path.old) }
    {
        let n = start(self.rules, facts);
        self.find(facts, path, 0, n, 0, 0)
    }
}

impl<'a> Engine for Magic<'a> {
    ghost Fit = { λ e. Ruled e.rules.now × RulesIndexed e.rules.now e.index.now };

    // All facts at a place that is split are its node's own.
    fn enter(&self, facts: &mut [u8], path: &mut [u8], depth: usize, a: usize) -> Found
        requires fit { Ruled self.now.rules.now × RulesIndexed self.now.rules.now self.now.index.now }
        requires parted { Parted (magic_walker self.now.rules.now) facts.old path.old depth }
        requires next_of { NextOf (alts_at (magic_walker self.now.rules.now) path.old depth) (next_at path.old depth) (Some a) }
        ensures made { (count : ℕ) → Making (magic_walker self.now.rules.now) facts.old path.old depth count result facts.new path.new }
        ensures own { OwnFacts path.new (depth + 1) result }
    {
        let own = mark(path, depth);
        let from = self.split_place(path, depth);
        pass(path, depth);
        let n = add(facts, 2050, own, a);
        self.find(facts, path, depth + 1, n, own, from)
    }

    // So they are.
    fn place(
        &self,
        facts: &mut [u8],
        path: &mut [u8],
        depth: usize,
        a: usize,
        count: u32,
        limit: u32,
    ) -> Found
        requires fit { Ruled self.now.rules.now × RulesIndexed self.now.rules.now self.now.index.now }
        requires parted { Parted (magic_walker self.now.rules.now) facts.old path.old depth }
        requires next_of { NextOf (alts_at (magic_walker self.now.rules.now) path.old depth) (next_at path.old depth) (Some a) }
        requires count_lt_limit { count < limit }
        ensures made { Making (magic_walker self.now.rules.now) facts.old path.old depth count result facts.new path.new }
        ensures counted { (r : Run Instance) → r.limit ≡ limit → Trying (magic_walker self.now.rules.now) r path.old depth count → Visiting (magic_walker self.now.rules.now) r facts.new path.new (depth + 1) result (count + 1) × (count + 1 ≤ r.limit) }
        ensures own { OwnFacts path.new (depth + 1) result }
    {
        self.enter(facts, path, depth, a)
    }

    ghost capacity = { λ e. refl };

    ghost known = { λ e fit. fit.0 };
}
