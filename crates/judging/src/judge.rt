// The model check (01: judging): whether the atoms that an answer marks are a model.
ghost use Rattle.std.specs.Prelude.{◌≡◌, ◌≤◌, ◌<◌, length, get_or, take, ltb, Ok, Err};
ghost use Rattle.lists.specs.Member.{every};
ghost use Rattle.problem.specs.Layout.{problem_in};
ghost use Rattle.problem.specs.Table.{Lawful};
ghost use Rattle.judging.specs.ModelCheck.{clause_check, check_of, judgeable, judge_result, violated_by};
ghost use Rattle.ground.specs.terms.Placed.{Placed};

use ground::instance::{holding, none_holds, step};
use lists::pair;
use problem::fault::Fault;
use writing::lent::taken;

// What the model check says: that the answer is a model, or the first violated instance, by clause and values.
#[derive(Clone, Copy, Debug, PartialEq, Eq)]
pub enum Judgement {
    Model,
    Violated(u8, u8, u8, u8, u8),
}

// Whether an instance of clause k is violated.
fn violated(table: &[u8], k: u8, values: &[u8], flags: &[u8]) -> bool
    requires lawful { Lawful table.now }
    requires placed { Placed table.now k values.now flags.now }
    ensures { result ≡ violated_by (problem_in table.now) flags.now k values.now }
{
    holding(table, k, values, flags) == table[144 + 56 * (k as usize)]
        && none_holds(table, k, values, flags)
}

// The first violated instance of clause k, if there is one.
fn check_clause(table: &[u8], k: u8, flags: &[u8]) -> Judgement
    requires lawful { Lawful table.now }
    requires k_bound { (k < get_or table.now 2 0) × (1024 ≤ length flags.now) }
    ensures { result ≡ clause_check (problem_in table.now) flags.now k }
{
    let at = 144 + 56 * (k as usize);
    let c = table[0];
    let v = table[at + 2];
    let count = pair(table[at + 4], table[at + 5]);
    let mut values = [0u8; 4];
    for _ in 0..count {
        if violated(table, k, &values, flags) {
            return Judgement::Violated(k, values[0], values[1], values[2], values[3]);
        }
        step(&mut values, v, c);
    }
    Judgement::Model
}

// The first violated instance of a table's clauses, if there is one.
fn check_clauses(table: &[u8], flags: &[u8]) -> Judgement
    requires lawful { Lawful table.now }
    requires in_bounds { 1024 ≤ length flags.now }
    ensures { result ≡ check_of (problem_in table.now) flags.now }
{
    for k in 0..table[2] {
        if let Judgement::Violated(j, a, b, c, d) = check_clause(table, k, flags) {
            return Judgement::Violated(j, a, b, c, d);
        }
    }
    Judgement::Model
}

// Whether the first n bytes are each 0 or 1.
fn are_bits(answer: &[u8], n: usize) -> bool
    requires { n ≤ length answer.now }
    ensures { result ≡ every (λ b. ltb b 2) (take n answer.now) }
{
    for i in 0..n {
        if 1 < answer[i] {
            return false;
        }
    }
    true
}

// Whether a lent table and answer are judged: refused as every lent table is, and then if an answer byte that counts is neither 0 nor 1.
pub fn judgeable(table: &[u8], answer: &[u8]) -> Result<(), Fault>
    ensures { result ≡ judgeable table.now answer.now Err (λ q. Ok tt) }
{
    // Kept: no `?`, so that the edit bits_before_validity can plant another fault in the branch that returns one.
    match taken(table, answer.len() < 1024) {
        Ok(()) => {}
        Err(fault) => {
            return Err(fault);
        }
    }
    if !are_bits(answer, pair(table[8], table[9])) {
        return Err(Fault::BadAnswer);
    }
    Ok(())
}

// Judges an answer by a lent table.
pub fn judge(table: &[u8], answer: &[u8]) -> Result<Judgement, Fault>
    ensures { result ≡ judge_result table.now answer.now }
{
    judgeable(table, answer)?;
    Ok(check_clauses(&table[..4096], answer))
}
