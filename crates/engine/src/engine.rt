// An engine as its walk knows it: what can be read of a node's record, and how the next place is made, from the path and the next alternative at each node.
ghost use Rattle.std.specs.Prelude.{ℕ, ◌+◌, ◌≤◌, ◌<◌, List, ◌≡◌, length, get_or, Some};
ghost use Rattle.search.specs.Machine.{Branch, Genuine};
ghost use Rattle.ground.specs.Instance.{Instance};
ghost use Rattle.ground.specs.terms.Branching.{NextOf};
ghost use Rattle.walk.specs.terms.Walker.{Site, Walker, Run, Sound};
ghost use Rattle.walk.specs.terms.Path.{Room, next_at, site_at, alts_at};
ghost use Rattle.walk.specs.terms.Place.{Parted, Making, Trying, Visiting};
ghost use Rattle.walk.specs.terms.Left.{Tied};

use walk::answer::Found;

// The sites that nodes are split at, each named by a node's record: clauses of a table, or rules of a buffer.
pub trait Sites {
    // what differs between engines, as far as the walk is concerned
    ghost walker: { Self → Walker Instance };

    // the table or the rules are as they must be
    ghost Known: { Self → Type 0 };

    // Alternative j of the split node at `depth`.
    fn alternative_at(&self, path: &[u8], depth: usize, j: u8) -> Option<usize>
        requires known { Known self.now }
        requires room { Room path.now depth × (walker self.now).Named (site_at (walker self.now) path.now depth) }
        ensures { NextOf (alts_at (walker self.now) path.now depth) j result };

    // How many atoms there are.
    fn atoms(&self) -> usize
        requires known { Known self.now }
        ensures { result ≡ (walker self.now).atoms };

    ghost sound: { (e : Self) → Known e → Sound (walker e) };

    // an alternative's number fits two bytes
    ghost small: { (e : Self) → Known e → (s : Site) → (walker e).Named s → (j : ℕ) → j < length ((walker e).alts s) → get_or ((walker e).alts s) j 0 < 65536 };

    // the paths that it keeps to are those that its way of finding a node leads to
    ghost genuine: { (e : Self) → Known e → (bs : List (Branch Instance)) → ((walker e).Kept bs → Genuine (walker e).find bs) × (Genuine (walker e).find bs → (walker e).Kept bs) };

    ghost tied: { (e : Self) → Known e → Tied (walker e) };
}

pub trait Engine: Sites {
    // what it goes by, its indices too, is as it must be
    ghost Fit: { Self → Type 0 };

    // Makes the next place, without counting it: enters atom a, the next alternative of the split node at `depth`. It is the next entry of whatever run stands there.
    fn enter(&self, facts: &mut [u8], path: &mut [u8], depth: usize, a: usize) -> Found
        requires fit { Fit self.now }
        requires parted { Parted (Self.walker self.now) facts.old path.old depth }
        requires next_of { NextOf (alts_at (Self.walker self.now) path.old depth) (next_at path.old depth) (Some a) }
        ensures made { (count : ℕ) → Making (Self.walker self.now) facts.old path.old depth count result facts.new path.new };

    // Makes the next place as entry `count` + 1 of a run, where the limit allows one.
    fn place(
        &self,
        facts: &mut [u8],
        path: &mut [u8],
        depth: usize,
        a: usize,
        count: u32,
        limit: u32,
    ) -> Found
        requires fit { Fit self.now }
        requires parted { Parted (Self.walker self.now) facts.old path.old depth }
        requires next_of { NextOf (alts_at (Self.walker self.now) path.old depth) (next_at path.old depth) (Some a) }
        requires count_lt_limit { count < limit }
        ensures made { Making (Self.walker self.now) facts.old path.old depth count result facts.new path.new }
        ensures counted { (r : Run Instance) → r.limit ≡ limit → Trying (Self.walker self.now) r path.old depth count → Visiting (Self.walker self.now) r facts.new path.new (depth + 1) result (count + 1) × (count + 1 ≤ r.limit) };

    // its facts are numbers below 2,050
    ghost capacity: { (e : Self) → (Self.walker e).capacity ≡ 2050 };

    ghost known: { (e : Self) → Fit e → Self.Known e };
}
