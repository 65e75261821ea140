// Assumptions by the magic engine.
ghost use Rattle.std.specs.Prelude.{◌≡◌, length, replicate};
ghost use Rattle.ground.specs.Verdict.{verdict_of};
ghost use Rattle.rewriting.specs.Rewrite.{rules_over};
ghost use Rattle.magic.specs.Engine.{magic_outcome};
ghost use Rattle.assuming.specs.Assume.{assumed_of, first_left, second_left, work_left};
ghost use Rattle.assuming.specs.Engines.{magic_runs, rules_left};
ghost use Rattle.assuming.specs.terms.Made.{Addable, MagicMade};

use assuming::assume::{Assumed, Counted, is_refuted, once, twice};
use assuming::check::refused;
use assuming::fact::add_facts;
use ground::verdict::Verdict;
use magic::alone::run;
use problem::table::Table;
use writing::lent::any_too_small;

// A run whose model is not kept.
fn verdict_of(table: &Table<'_>, rules: &mut [u8], work: &mut [u8]) -> Verdict
    requires rules_len { (length rules.old ≡ 16384) × (length work.old ≡ 65536) }
    ensures { (result ≡ verdict_of (magic_outcome table.now rules.old)) × (rules.new ≡ rules_over table.now rules.old) × (work.new ≡ replicate 65536 0) }
{
    let mut model = [0u8; 1024];
    let reply = run(table.bytes, rules, &mut model, work);
    let verdict = reply.verdict;
    verdict
}

// The runs of a call: the table by itself and, unless that is none, with all facts.
fn run_both(table: &Table<'_>, facts: &[u32], rules: &mut [u8], work: &mut [u8]) -> Counted
    requires addable { Addable table.now facts.now × (length rules.old ≡ 16384) × (length work.old ≡ 65536) }
    ensures { MagicMade table.now facts.now rules.old result rules.new × (work.new ≡ replicate 65536 0) }
{
    let alone = verdict_of(table, rules, work);
    if is_refuted(alone) {
        return once(alone);
    }
    let mut longer = [0u8; 4096];
    lists::copy(&mut longer, table.bytes);
    add_facts(&mut longer, facts);
    let longer = Table { bytes: &longer };
    let all = verdict_of(&longer, rules, work);
    twice(alone, all)
}

// Whether there is no model, whichever of the facts are added. Of the answer only the length counts; a refusal leaves the lent numbers and bytes as they were.
pub fn assume_magic(
    table: &[u8],
    facts: &[u32],
    first: &mut u32,
    second: &mut u32,
    rules: &mut [u8],
    answer: &[u8],
    work: &mut [u8],
) -> Assumed
    ensures { (result ≡ assumed_of (magic_runs table.now facts.now rules.old answer.now work.old)) × (first.new ≡ first_left (magic_runs table.now facts.now rules.old answer.now work.old) first.old) × (second.new ≡ second_left (magic_runs table.now facts.now rules.old answer.now work.old) second.old) × (rules.new ≡ rules_left (magic_runs table.now facts.now rules.old answer.now work.old) table.now facts.now rules.old) × (work.new ≡ work_left (magic_runs table.now facts.now rules.old answer.now work.old) work.old) }
{
    let e = refused(
        table,
        facts,
        any_too_small(rules.len(), answer.len(), work.len()),
    );
    if 0 < e {
        return Assumed::Refused(e);
    }
    let table = Table {
        bytes: &table[..4096],
    };
    let made = run_both(&table, facts, &mut rules[..16384], &mut work[..65536]);
    *first = made.first;
    *second = made.second;
    let assumed = made.assumed;
    assumed
}
