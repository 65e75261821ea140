// The walk by the rules of a buffer, from the root on.
ghost use Rattle.std.specs.Prelude.{[], ◌≡◌, length};
ghost use Rattle.search.specs.Session.{alts_found};
ghost use Rattle.store.specs.terms.Store.{Store};
ghost use Rattle.rewriting.specs.terms.Ruled.{Ruled};
ghost use Rattle.walk.specs.terms.Walker.{from_root};
ghost use Rattle.walk.specs.terms.Walk.{Walks};
ghost use Rattle.magic_walk.specs.terms.Place.{magic_walker};

use engine::left::root_alternatives;
use engine::visiting::from_root;
use magic_plan::index::build;
use magic_walk::place::Magic;
use walk::answer::Whole;
use walk::node::bring;

// The walk under a limit, in an empty set for its facts and a buffer for its path, which may hold anything.
pub fn walk_whole(rules: &[u8], facts: &mut [u8], path: &mut [u8], limit: u32) -> Whole
    requires ruled { Ruled rules.now }
    requires store { Store 2050 facts.old 0 × (length path.old ≡ 9227) }
    ensures { (result.used ≡ length (alts_found ((magic_walker rules.now).find []))) × Walks (magic_walker rules.now) (from_root (magic_walker rules.now) 0 limit) result.walked facts.new path.new }
{
    let mut index = [0u16; 6656];
    build(rules, &mut index);
    bring(path, 0);
    let engine = Magic {
        rules,
        index: &index,
    };
    let found = engine.root(facts, path);
    let used = root_alternatives(&engine, path, found);
    let walked = from_root(&engine, facts, path, found, limit);
    Whole { walked, used }
}
