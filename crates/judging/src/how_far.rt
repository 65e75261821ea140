// How far an instance holds, named by clause and values: how many of its conditions an answer marks, from the left, before the first that it does not.
ghost use Rattle.std.specs.Prelude.{[], ◌∷◌, ◌≡◌, ◌≤◌, ltb, length, take};
ghost use Rattle.lists.specs.Member.{every};
ghost use Rattle.problem.specs.Layout.{problem_in};
ghost use Rattle.problem.specs.Table.{Lawful};
ghost use Rattle.judging.specs.Holding.{holding_named, holding_result};

use crate::judge::judgeable;
use ground::instance::holding;
use problem::fault::Fault;

// Whether the first v of four values are constants, of c.
fn are_constants(values: &[u32], v: u8, c: u8) -> bool
    requires { (length values.now ≡ 4) × (v ≤ 4) }
    ensures { result ≡ every (λ d. ltb d c) (take v values.now) }
{
    for i in 0..v {
        if (c as u32) <= values[i as usize] {
            return false;
        }
    }
    true
}

// How far the instance of a clause with four values holds, if the table has it. A value that the clause has is a constant, and so a byte; one past its own may be cut.
fn held(
    table: &[u8],
    flags: &[u8],
    clause: u32,
    a: u32,
    b: u32,
    c: u32,
    d: u32,
) -> Result<u8, Fault>
    requires lawful { Lawful table.now }
    requires in_bounds { 1024 ≤ length flags.now }
    ensures { result ≡ holding_named (problem_in table.now) flags.now clause (a ∷ b ∷ c ∷ d ∷ []) }
{
    if (table[2] as u32) <= clause {
        return Err(Fault::NoInstance);
    }
    let k = clause as u8;
    let own = [a, b, c, d];
    if !are_constants(&own, table[144 + 56 * (k as usize) + 2], table[0]) {
        return Err(Fault::NoInstance);
    }
    let values = [
        (a % 256) as u8,
        (b % 256) as u8,
        (c % 256) as u8,
        (d % 256) as u8,
    ];
    Ok(holding(table, k, &values, flags))
}

// How many conditions of the instance of a clause with four values hold, by a lent table and answer.
pub fn how_far(
    table: &[u8],
    answer: &[u8],
    clause: u32,
    a: u32,
    b: u32,
    c: u32,
    d: u32,
) -> Result<u8, Fault>
    ensures { result ≡ holding_result table.now answer.now clause a b c d }
{
    judgeable(table, answer)?;
    held(&table[..4096], answer, clause, a, b, c, d)
}
