// An engine's answer, printed.
ghost use Rattle.std.specs.Prelude.{◌+◌, ◌<◌, ◌≤◌, length};
ghost use Rattle.problem.specs.Problem.{atom_count};
ghost use Rattle.problem.specs.Layout.{problem_in};
ghost use Rattle.problem.specs.Table.{Lawful};
ghost use Rattle.writing.specs.terms.Printed.{Put};
ghost use Rattle.report.specs.terms.Told.{atom_line, model_lines, told};

use crate::line::{put_atom, put_head};
use ground::verdict::Verdict;
use lists::pair;

// The line of atom a, if its answer byte is 1.
fn put_chosen(table: &[u8], answer: &[u8], a: usize, out: &mut [u8], at: usize) -> usize
    requires lawful { Lawful table.now }
    requires a_bound { (a < atom_count (problem_in table.now).constants (problem_in table.now).arities) × (a < length answer.now) × (at + 11 ≤ length out.old) }
    ensures { Put out.old at (atom_line (problem_in table.now) answer.now a) 11 result out.new }
{
    if answer[a] != 1 {
        return at;
    }
    put_atom(table, a, out, at)
}

// A line for each atom whose answer byte is 1, in number order.
fn put_model(table: &[u8], answer: &[u8], out: &mut [u8], at: usize) -> usize
    requires lawful { Lawful table.now }
    requires in_bounds { (1024 ≤ length answer.now) × (at + 11264 ≤ length out.old) }
    ensures { Put out.old at (model_lines (problem_in table.now) answer.now) 11264 result out.new }
{
    let atoms = pair(table[8], table[9]);
    let mut next = at;
    for a in 0..atoms {
        next = put_chosen(table, answer, a, out, next);
    }
    next
}

// What an engine says of a table, with the model in the answer.
pub fn put_verdict(table: &[u8], answer: &[u8], verdict: Verdict, out: &mut [u8]) -> usize
    requires lawful { Lawful table.now }
    requires in_bounds { (1024 ≤ length answer.now) × (11277 ≤ length out.old) }
    ensures { Put out.old 0 (told (problem_in table.now) verdict answer.now) 11277 result out.new }
{
    match verdict {
        Verdict::Refused(e) => put_head(e, 0, 0, out),
        Verdict::Satisfied(count) => {
            let next = put_head(0, 1, count, out);
            put_model(table, answer, out, next)
        }
        Verdict::Refuted(count) => put_head(0, 0, count, out),
        Verdict::Exhausted(count) => put_head(0, 2, count, out),
    }
}
