// A first run that keeps no session.
ghost use Rattle.std.specs.Prelude.{◌≡◌, ◌≤◌, length, replicate};
ghost use Rattle.problem.specs.Table.{Lawful};
ghost use Rattle.ground.specs.Verdict.{verdict_of, answer_of};
ghost use Rattle.rewriting.specs.terms.Ruled.{Ruled};
ghost use Rattle.rewriting.specs.Rewrite.{rules_over};
ghost use Rattle.session.specs.terms.End.{Replied};
ghost use Rattle.magic_walk.specs.terms.Place.{magic_walker};
ghost use Rattle.magic.specs.Engine.{magic_outcome, magic_deepest_in};

use crate::whole::walk_whole;
use ending::reply;
use ground::verdict::limit_in;
use magic_walk::place::ByRules;
use rewriting::rewrite::write_rules;
use session::record::Reply;

// The run by the rules of a buffer under a limit, in a buffer for its path.
fn decide(rules: &[u8], limit: u32, answer: &mut [u8], path: &mut [u8]) -> Reply
    requires ruled { Ruled rules.now }
    requires in_bounds { (1024 ≤ length answer.old) × (length path.old ≡ 9227) }
    ensures { Replied (magic_walker rules.now) limit answer.old result answer.new }
{
    let mut facts = [0u8; 6150];
    let whole = walk_whole(rules, &mut facts, path, limit);
    reply(
        &ByRules { rules },
        &facts,
        path,
        answer,
        whole.walked,
        limit,
    )
}

// Rewrites a valid table, runs by the rules alone in the first part of the work buffer, and leaves it zero.
// Not put in line, so that its buffers do not lie under the check of the table.
#[inline(never)]
pub fn run(table: &[u8], rules: &mut [u8], answer: &mut [u8], work: &mut [u8]) -> Reply
    requires lawful { Lawful table.now }
    requires rules_len { (length rules.old ≡ 16384) × (1024 ≤ length answer.old) × (length work.old ≡ 65536) }
    ensures { (result.verdict ≡ verdict_of (magic_outcome table.now rules.old)) × (result.deepest ≡ magic_deepest_in table.now rules.old) × (rules.new ≡ rules_over table.now rules.old) × (answer.new ≡ answer_of (magic_outcome table.now rules.old) answer.old) × (work.new ≡ replicate 65536 0) }
{
    write_rules(table, rules);
    let limit = limit_in(table);
    let reply = decide(rules, limit, answer, &mut work[0..9227]);
    lists::zero(work);
    reply
}
