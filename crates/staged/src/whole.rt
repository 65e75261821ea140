// The walk of a whole table.
ghost use Rattle.std.specs.Prelude.{◌≡◌, length, replicate};
ghost use Rattle.problem.specs.Table.{Lawful};
ghost use Rattle.walk.specs.terms.Walker.{from_root};
ghost use Rattle.walk.specs.terms.Walk.{Walks};
ghost use Rattle.staged_walk.specs.terms.Place.{staged_walker};

use engine::visiting::from_root;
use relevancy_rule::index::build;
use staged_node::chains::chain_table;
use staged_walk::place::Staged;
use walk::answer::Walked;

// The walk of a valid table from the root on, under a limit, in buffers for its facts and its path: an empty set has its flags zero, the log may hold anything.
pub fn walk_whole(table: &[u8], facts: &mut [u8], path: &mut [u8], limit: u32) -> Walked
    requires lawful { Lawful table.now }
    requires facts_len { (length facts.old ≡ 6150) × (path.old ≡ replicate 9227 0) }
    ensures { Walks (staged_walker table.now) (from_root (staged_walker table.now) 0 limit) result facts.new path.new }
{
    let mut horn = [0u8; 4096];
    chain_table(table, &mut horn);
    let conds = build(table, false);
    let chains = build(&horn, true);
    lists::zero(&mut facts[..2050]);
    let engine = Staged {
        table,
        horn: &horn,
        conds: &conds,
        chains: &chains,
    };
    let found = engine.root(facts, path);
    from_root(&engine, facts, path, found, limit)
}
