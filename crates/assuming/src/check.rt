// Whether a call with assumptions is taken.
ghost use Rattle.std.specs.Prelude.{not, ◌&&◌, ◌≡◌, ◌+◌, ◌<◌, ◌≤◌, ltb, length, get_or, drop};
ghost use Rattle.lists.specs.Key.{nat_key};
ghost use Rattle.lists.specs.Member.{has};
ghost use Rattle.problem.specs.Layout.{problem_in};
ghost use Rattle.problem.specs.Table.{Lawful};
ghost use Rattle.assuming.specs.Assume.{are_atoms, facts_refusal};
ghost use Rattle.assuming.specs.terms.Made.{call_refusal};

use lists::pair;
use writing::lent::refusal;

// Whether fact i is the number of an atom, and no later one is equal to it.
fn is_fresh(facts: &[u32], i: usize, atoms: usize) -> bool
    requires { (i < length facts.now) × (length facts.now ≤ 16) }
    ensures { result ≡ (ltb (get_or facts.now i 0) atoms && not (has nat_key (drop (i + 1) facts.now) (get_or facts.now i 0))) }
{
    let a = facts[i];
    if atoms <= (a as usize) {
        return false;
    }
    for j in i + 1..facts.len() {
        if facts[j] == a {
            return false;
        }
    }
    true
}

// Whether the facts are numbers of atoms, none of them repeated.
fn are_atoms(facts: &[u32], atoms: usize) -> bool
    requires { length facts.now ≤ 16 }
    ensures { result ≡ are_atoms atoms facts.now }
{
    for i in 0..facts.len() {
        if !is_fresh(facts, i, atoms) {
            return false;
        }
    }
    true
}

// What facts are refused for beside a valid table, or 0.
fn facts_refusal(table: &[u8], facts: &[u32]) -> u8
    requires { Lawful table.now }
    ensures { result ≡ facts_refusal (problem_in table.now) facts.now }
{
    if 64 - (table[2] as usize) < facts.len() {
        return 5;
    }
    if 16 < facts.len() {
        return 45;
    }
    if are_atoms(facts, pair(table[8], table[9])) {
        return 0;
    }
    45
}

// What a call is refused for, or 0: 11, then 31, then 5 and 45. Whether a buffer other than the table is too short is told.
pub fn refused(table: &[u8], facts: &[u32], short: bool) -> u8
    ensures { result ≡ call_refusal table.now facts.now short }
{
    let e = refusal(table, short);
    if 0 < e {
        return e;
    }
    facts_refusal(&table[..4096], facts)
}
