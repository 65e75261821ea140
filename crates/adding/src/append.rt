// Appending a clause's record to a table. No other clause is looked at but the last.
ghost use Rattle.std.specs.Prelude.{◌≡◌, ◌<◌, length, get_or};
ghost use Rattle.problem.specs.Problem.{weights};
ghost use Rattle.problem.specs.Layout.{problem_in};
ghost use Rattle.problem.specs.Table.{Lawful};
ghost use Rattle.adding.specs.terms.Appended.{Appended};

use lists::{pair, put_pair};

// What the clauses of a table weigh: what the record of the last one says of those before it, and its own weight.
#[tactic(auto, using(crate::proofs::AppendLaws::table_size, crate::proofs::AppendLaws::few_clauses, crate::proofs::AppendLaws::none_weigh))]
pub fn weight_of(table: &[u8]) -> usize
    requires { Lawful table.now }
    ensures { result ≡ weights (problem_in table.now).constants (problem_in table.now).clauses }
{
    let count = table[2];
    if count == 0 {
        return 0;
    }
    let at = 144 + 56 * ((count - 1) as usize);
    pair(table[at + 6], table[at + 7]) + (table[at] as usize) * pair(table[at + 4], table[at + 5])
}

// Appends a clause's record to a table of fewer than 64 clauses.
#[tactic(auto, using(crate::proofs::AppendLaws::table_size))]
pub fn append(table: &mut [u8], rec: &[u8])
    requires lawful { Lawful table.old }
    requires table_bound { (get_or table.old 2 0 < 64) × (length rec.now ≡ 56) }
    ensures { Appended table.old rec.now table.new }
{
    let count = table[2];
    let sum = weight_of(table);
    let from = 144 + 56 * (count as usize);
    let to = from + 56;
    lists::copy(&mut table[from..to], rec);
    put_pair(table, from + 6, sum);
    table[2] = count + 1;
}
