// One part of a table: its clauses, and the atoms of its predicates.
ghost use Rattle.std.specs.Prelude.{cond, [], ◌++◌, ◌≡◌, ◌<◌, eqb, length, replicate};
ghost use Rattle.lists.specs.Tabulate.{tabulate};
ghost use Rattle.problem.specs.Problem.{Fits};
ghost use Rattle.problem.specs.Table.{Lawful};
ghost use Rattle.problem.specs.Extended.{with_clause, with_clauses};
ghost use Rattle.problem.specs.Layout.{layout, problem_in};
ghost use Rattle.ground.specs.Instance.{clause_of};
ghost use Rattle.parting.specs.terms.Labels.{labels_in};
ghost use Rattle.parting.specs.terms.Gathered.{belongs, taken, gathered};
ghost use Rattle.parting.specs.terms.Tally.{Marked, joined_as};

use crate::labels::lead;
use adding::append::append;
use kernel::matching::decode;
use lists::pair;

// Whether clause k is of part x: of the one with this lowest predicate, or a clause without atoms by itself.
fn belongs(table: &[u8], labels: &[u8], x: u8, k: u8) -> bool
    requires lawful { Lawful table.now }
    requires labels_value { (labels.now ≡ labels_in table.now) × (k < length (problem_in table.now).clauses) }
    ensures { result ≡ belongs table.now x k }
{
    if x < 32 {
        return labels[lead(table, k) as usize] == x;
    }
    x == 32 + k
}

// Adds clause k of a table after the clauses of another with the same heading, if it is taken.
fn add(own: &mut [u8], table: &[u8], k: u8, mine: bool)
    requires lawful { Lawful own.old }
    requires lawful_2 { Lawful table.now × (k < length (problem_in table.now).clauses) }
    requires own_value { (problem_in own.old ≡ with_clauses (problem_in table.now) (problem_in own.old).clauses) × Fits (with_clause (problem_in own.old) (clause_of (problem_in table.now) k)) }
    ensures { own.new ≡ layout (with_clauses (problem_in table.now) ((problem_in own.old).clauses ++ taken mine (clause_of (problem_in table.now) k))) }
{
    if !mine {
        return;
    }
    let at = 144 + 56 * (k as usize);
    let to = at + 56;
    append(own, &table[at..to]);
}

// The heading of a table, and no clause.
fn head(own: &mut [u8], table: &[u8])
    requires lawful { Lawful table.now }
    requires own_value { own.old ≡ replicate 4096 0 }
    ensures { own.new ≡ layout (with_clauses (problem_in table.now) []) }
{
    lists::copy(own, &table[..144]);
    own[2] = 0;
}

// The table of part x.
pub fn gather(own: &mut [u8], table: &[u8], labels: &[u8], x: u8)
    requires lawful { Lawful table.now }
    requires labels_value { (labels.now ≡ labels_in table.now) × (own.old ≡ replicate 4096 0) }
    ensures { own.new ≡ layout (gathered table.now x) }
{
    head(own, table);
    for k in 0..table[2] {
        let mine = belongs(table, labels, x, k);
        add(own, table, k, mine);
    }
}

// The label of each atom's predicate.
pub fn mark(table: &[u8], labels: &[u8], marks: &mut [u8])
    requires lawful { Lawful table.now }
    requires labels_value { (labels.now ≡ labels_in table.now) × (length marks.old ≡ 1024) }
    ensures { Marked table.now marks.new }
{
    let atoms = pair(table[8], table[9]);
    let mut args = [0u8; 3];
    for a in 0..atoms {
        marks[a] = labels[decode(table, a, &mut args) as usize];
    }
}

// Of two bytes, one by a mark.
fn chosen(mark: u8, x: u8, new: u8, old: u8) -> u8
    ensures { result ≡ cond (eqb mark x) new old }
{
    if mark == x { new } else { old }
}

// Puts the bits of the atoms with mark x over those that are there.
pub fn join(marks: &[u8], x: u8, bits: &[u8], joined: &mut [u8])
    requires { (length marks.now ≡ 1024) × (length bits.now ≡ 1024) × (length joined.old ≡ 1024) }
    ensures { joined.new ≡ tabulate (joined_as marks.now x bits.now joined.old) 1024 }
{
    for a in 0..1024 {
        joined[a] = chosen(marks[a], x, bits[a], joined[a]);
    }
}
