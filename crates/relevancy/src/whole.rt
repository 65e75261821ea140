// The walk of a whole table.
ghost use Rattle.std.specs.Prelude.{[], ◌≡◌, length};
ghost use Rattle.search.specs.Session.{alts_found};
ghost use Rattle.store.specs.terms.Store.{Store};
ghost use Rattle.problem.specs.Table.{Lawful};
ghost use Rattle.walk.specs.terms.Walker.{from_root};
ghost use Rattle.walk.specs.terms.Walk.{Walks};
ghost use Rattle.relevancy_walk.specs.terms.Place.{relevancy_walker};

use engine::left::root_alternatives;
use engine::visiting::from_root;
use relevancy_rule::index::slots;
use relevancy_walk::place::{ByTable, Relevancy, root};
use walk::answer::Whole;
use walk::node::bring;

// The walk of a valid table from the root on, under a limit, in an empty set for its facts and a buffer for its path, which may hold anything.
pub fn walk_whole(table: &[u8], facts: &mut [u8], path: &mut [u8], limit: u32) -> Whole
    requires lawful { Lawful table.now }
    requires store { Store 2050 facts.old 0 × (length path.old ≡ 9227) }
    ensures { (result.used ≡ length (alts_found ((relevancy_walker table.now).find []))) × Walks (relevancy_walker table.now) (from_root (relevancy_walker table.now) 0 limit) result.walked facts.new path.new }
{
    let mut conds = [0u16; 384];
    slots(table, false, false, &mut conds);
    let mut alts = [0u16; 384];
    slots(table, true, true, &mut alts);
    bring(path, 0);
    let found = root(table, &conds, &alts, facts, path);
    let used = root_alternatives(&ByTable { table }, path, found);
    let mut new = [0u16; 1409];
    relevancy_close::sweep::build(table, facts, 0 < used, &mut new);
    let engine = Relevancy {
        table,
        conds: &conds,
        alts: &alts,
        new: &new,
    };
    let walked = from_root(&engine, facts, path, found, limit);
    Whole { walked, used }
}
