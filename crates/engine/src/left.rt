// What a walk leaves: the path written down in steps.
ghost use Rattle.std.specs.Prelude.{List, [], ◌≡◌, ℕ, length, replicate};
ghost use Rattle.search.specs.Session.{alts_found};
ghost use Rattle.walk.specs.terms.Path.{Room, path_in};
ghost use Rattle.walk.specs.terms.Place.{NodesNamed, Beginning};
ghost use Rattle.walk.specs.terms.Left.{StepsLeft};

use crate::alternatives::alternatives_at;
use crate::engine::Sites;
use walk::answer::Found;
use walk::node::next;

// How many alternatives the root has that has just been found so: none where it is not split.
pub fn root_alternatives<S: Sites>(sites: &S, path: &[u8], found: Found) -> u8
    requires known { S.Known sites.now }
    requires by_index { (facts : List ℕ) × Beginning (S.walker sites.now) found facts path.now }
    ensures { result ≡ length (alts_found ((S.walker sites.now).find [])) }
{
    let Found::Split(_) = found else {
        return 0;
    };
    alternatives_at(sites, path, 0).count
}

// The step of each node before `depth`: the atom that is entered from it, and the alternative after that one.
pub fn steps<S: Sites>(sites: &S, path: &[u8], depth: usize, atoms: &mut [u16], nexts: &mut [u8])
    requires known { S.Known sites.now }
    requires room { Room path.now depth × (S.walker sites.now).Kept (path_in (S.walker sites.now) path.now depth) × NodesNamed (S.walker sites.now) path.now depth }
    requires atoms_value { (atoms.old ≡ replicate 1024 0) × (nexts.old ≡ replicate 1024 0) }
    ensures { StepsLeft (S.walker sites.now) path.now depth atoms.new nexts.new }
{
    for i in 0..depth {
        let all = alternatives_at(sites, path, i);
        let n = next(path, i);
        atoms[i] = all.atom_before(n);
        nexts[i] = all.taken(n);
    }
}
