// The alternatives of a split node, read from its record.
ghost use Rattle.std.specs.Prelude.{◌≡◌};
ghost use Rattle.ground.specs.terms.Branching.{NextOf};
ghost use Rattle.walk.specs.terms.Alternatives.{listed};
ghost use Rattle.walk.specs.terms.Path.{Room, next_at, site_at, alts_at};

use crate::engine::Sites;
use walk::answer::Alternatives;
use walk::node::next;

// The alternative that the split node at `depth` enters next.
pub fn alternative<S: Sites>(sites: &S, path: &[u8], depth: usize) -> Option<usize>
    requires known { S.Known sites.now }
    requires room { Room path.now depth × (S.walker sites.now).Named (site_at (S.walker sites.now) path.now depth) }
    ensures { NextOf (alts_at (S.walker sites.now) path.now depth) (next_at path.now depth) result }
{
    sites.alternative_at(path, depth, next(path, depth))
}

// All alternatives of the split node at `depth`.
pub fn alternatives_at<S: Sites>(sites: &S, path: &[u8], depth: usize) -> Alternatives
    requires known { S.Known sites.now }
    requires room { Room path.now depth × (S.walker sites.now).Named (site_at (S.walker sites.now) path.now depth) }
    ensures { listed result ≡ alts_at (S.walker sites.now) path.now depth }
{
    let mut atoms = [0u16; 4];
    for n in 0..4u8 {
        let Some(a) = sites.alternative_at(path, depth, n) else {
            return Alternatives { count: n, atoms };
        };
        atoms[n as usize] = a as u16;
    }
    Alternatives { count: 4, atoms }
}
