// Facts added to a table, each as a clause without conditions.
ghost use Rattle.std.specs.Prelude.{◌≡◌, ◌<◌, get_or, replicate};
ghost use Rattle.problem.specs.Problem.{atom_count};
ghost use Rattle.problem.specs.Layout.{clause_record, layout, problem_in};
ghost use Rattle.problem.specs.Table.{Lawful};
ghost use Rattle.problem.specs.Extended.{with_clause};
ghost use Rattle.assuming.specs.Assume.{fact_clause, assumed_table};
ghost use Rattle.assuming.specs.terms.Made.{Addable};

use adding::append::append;
use kernel::matching::decode;

// Writes the record of a fact's clause: no condition, one alternative, no variable, one instance.
fn put_fact(table: &[u8], a: usize, rec: &mut [u8])
    requires lawful { Lawful table.now }
    requires a_bound { (a < atom_count (problem_in table.now).constants (problem_in table.now).arities) × (rec.old ≡ replicate 56 0) }
    ensures { rec.new ≡ clause_record (problem_in table.now).constants (problem_in table.now).arities 0 (fact_clause (problem_in table.now) a) }
{
    let mut args = [0u8; 3];
    let p = decode(table, a, &mut args);
    let base = 16 + 4 * (p as usize);
    let arity = table[base] as usize;
    rec[1] = 1;
    rec[4] = 1;
    rec[32] = p;
    lists::copy(&mut rec[33..36], &args[..arity]);
    rec[36] = table[base + 1];
    rec[37] = table[base + 2];
}

// Adds the clause of a fact after the others.
fn add_fact(table: &mut [u8], a: usize)
    requires lawful { Lawful table.old }
    requires table_bound { (get_or table.old 2 0 < 64) × (a < atom_count (problem_in table.old).constants (problem_in table.old).arities) }
    ensures { table.new ≡ layout (with_clause (problem_in table.old) (fact_clause (problem_in table.old) a)) }
{
    let mut rec = [0u8; 56];
    put_fact(table, a, &mut rec);
    append(table, &rec);
}

// Adds the clauses of facts, in the order in which they are lent.
pub fn add_facts(table: &mut [u8], facts: &[u32])
    requires lawful { Lawful table.old }
    requires addable { Addable table.old facts.now }
    ensures { table.new ≡ assumed_table table.old facts.now }
{
    for &a in facts {
        add_fact(table, a as usize);
    }
}
