// Writing a table out as text, and whether a table is valid.
ghost use Rattle.std.specs.Prelude.{◌≡◌, ◌+◌, ◌*◌, ◌≤◌, ◌<◌, min, length, get_or, replicate};
ghost use mathlib.Core.List.{flat_map, ◌∷◌, []};
ghost use Rattle.lists.specs.Bytes.{same_list};
ghost use Rattle.lists.specs.Tabulate.{tabulate};
ghost use Rattle.problem.specs.Digit.{hex_byte, hex_line};
ghost use Rattle.problem.specs.Layout.{atom_in, clause_in, arities_in, problem_in};
ghost use Rattle.problem.specs.Print.{atom_bytes, heading_frame, arity_frame, clause_frame, closing_frame, print};
ghost use Rattle.problem.specs.Parse.{parse};
ghost use Rattle.problem.specs.Table.{reads_to, is_valid};
ghost use Rattle.writing.specs.Write.{write_result, write_leaves};
ghost use Rattle.writing.specs.terms.Printed.{Put};
ghost use Rattle.writing.specs.terms.Compared.{Ended};

use crate::lent::taken;
use clause_line::clause::arity_in;
use problem::fault::Fault;
use reading::read::read_text;
use text_line::digit::digit_of;

// A byte as two digits.
pub fn put_byte(out: &mut [u8], at: usize, b: u8) -> usize
    requires { at + 2 ≤ length out.old }
    ensures { Put out.old at (hex_byte b) 2 result out.new }
{
    out[at] = digit_of(b / 16);
    out[at + 1] = digit_of(b % 16);
    at + 2
}

// The end of a line.
pub fn put_end(out: &mut [u8], at: usize) -> usize
    requires { at + 1 ≤ length out.old }
    ensures { Put out.old at (10 ∷ []) 1 result out.new }
{
    out[at] = 10;
    at + 1
}

// So many bytes from a place of the table on.
fn put_bytes(table: &[u8], from: usize, count: u8, out: &mut [u8], at: usize) -> usize
    requires { (length table.now ≡ 4096) × (from + count ≤ 4096) × (at + 2 * count ≤ length out.old) }
    ensures { Put out.old at (flat_map hex_byte (tabulate (λ j. get_or table.now (from + j) 0) count)) (2 * count) result out.new }
{
    let mut next = at;
    for j in 0..count as usize {
        next = put_byte(out, next, table[from + j]);
    }
    next
}

// The first line.
fn put_first(table: &[u8], out: &mut [u8]) -> usize
    requires { (length table.now ≡ 4096) × (17 ≤ length out.old) }
    ensures { Put out.old 0 (hex_line (heading_frame (problem_in table.now))) 17 result out.new }
{
    let kind = put_byte(out, 0, 1);
    let version = put_byte(out, kind, 1);
    let constants = put_byte(out, version, table[0]);
    let predicates = put_byte(out, constants, table[1].min(32));
    let limit = put_bytes(table, 4, 4, out, predicates);
    put_end(out, limit)
}

// An arity line.
fn put_arity(a: u8, out: &mut [u8], at: usize) -> usize
    requires { at + 5 ≤ length out.old }
    ensures { Put out.old at (hex_line (arity_frame a)) 5 result out.new }
{
    let kind = put_byte(out, at, 2);
    let next = put_byte(out, kind, a);
    put_end(out, next)
}

// The arity lines.
fn put_arities(table: &[u8], out: &mut [u8], at: usize) -> usize
    requires { (length table.now ≡ 4096) × (at + 160 ≤ length out.old) }
    ensures { Put out.old at (flat_map (λ a. hex_line (arity_frame a)) (arities_in table.now)) 160 result out.new }
{
    let mut next = at;
    for k in 0..table[1].min(32) {
        next = put_arity(arity_in(table, k), out, next);
    }
    next
}

// The atom at a place of the table.
fn put_atom(table: &[u8], from: usize, out: &mut [u8], at: usize) -> usize
    requires { (length table.now ≡ 4096) × (from + 3 < 4096) × (at + 8 ≤ length out.old) }
    ensures { Put out.old at (flat_map hex_byte (atom_bytes (atom_in (arities_in table.now) table.now from))) 8 result out.new }
{
    let b = table[from];
    let next = put_byte(out, at, b);
    put_bytes(table, from + 1, arity_in(table, b), out, next)
}

// So many atoms, in slots from a place of the table on.
fn put_atoms(table: &[u8], from: usize, count: u8, out: &mut [u8], at: usize) -> usize
    requires { (length table.now ≡ 4096) × (from + 24 ≤ 4096) × (count ≤ 4) × (at + 32 ≤ length out.old) }
    ensures { Put out.old at (flat_map hex_byte (flat_map atom_bytes (tabulate (λ i. atom_in (arities_in table.now) table.now (from + 6 * i)) count))) 32 result out.new }
{
    let mut next = at;
    for i in 0..count {
        next = put_atom(table, from + 6 * (i as usize), out, next);
    }
    next
}

// The line of the clause whose record starts at a place of the table.
fn put_clause(table: &[u8], from: usize, out: &mut [u8], at: usize) -> usize
    requires { (length table.now ≡ 4096) × (from + 56 ≤ 4096) × (at + 71 ≤ length out.old) }
    ensures { Put out.old at (hex_line (clause_frame (clause_in (arities_in table.now) table.now from))) 71 result out.new }
{
    let conds = table[from].min(4);
    let alts = table[from + 1].min(4);
    let kind = put_byte(out, at, 3);
    let count = put_byte(out, kind, conds);
    let counts = put_byte(out, count, alts);
    let first = put_atoms(table, from + 8, conds, out, counts);
    let second = put_atoms(table, from + 32, alts, out, first);
    put_end(out, second)
}

// The clause lines.
fn put_clauses(table: &[u8], out: &mut [u8], at: usize) -> usize
    requires { (length table.now ≡ 4096) × (at + 71 * min (get_or table.now 2 0) 64 ≤ length out.old) }
    ensures { Put out.old at (flat_map (λ k. hex_line (clause_frame k)) (tabulate (λ k. clause_in (arities_in table.now) table.now (144 + 56 * k)) (min (get_or table.now 2 0) 64))) (71 * min (get_or table.now 2 0) 64) result out.new }
{
    let mut next = at;
    for k in 0..table[2].min(64) {
        next = put_clause(table, 144 + 56 * (k as usize), out, next);
    }
    next
}

// The last line.
fn put_last(table: &[u8], out: &mut [u8], at: usize) -> usize
    requires { (length table.now ≡ 4096) × (at + 5 ≤ length out.old) }
    ensures { Put out.old at (hex_line (closing_frame (problem_in table.now))) 5 result out.new }
{
    let kind = put_byte(out, at, 255);
    let count = put_byte(out, kind, table[2].min(64));
    put_end(out, count)
}

// Any 4,096 bytes as text: 71 bytes at most for a clause, and 182 beside.
pub fn print_table(table: &[u8], out: &mut [u8]) -> usize
    requires { (length table.now ≡ 4096) × (182 + 71 * min (get_or table.now 2 0) 64 ≤ length out.old) }
    ensures { Put out.old 0 (print table.now) (182 + 71 * min (get_or table.now 2 0) 64) result out.new }
{
    let first = put_first(table, out);
    let arities = put_arities(table, out, first);
    let clauses = put_clauses(table, out, arities);
    put_last(table, out, clauses)
}

// Whether every byte is 0. No byte ends the loop, so that many are looked at at a time.
// Kept: `iter().all(..)` looks at one byte at a time, and is 15 times slower.
fn all_zero(a: &[u8]) -> bool
    ensures { result ≡ same_list (replicate (length a.now) 0) a.now }
{
    let mut all = true;
    for i in 0..a.len() {
        if a[i] != 0 {
            all = false;
        }
    }
    all
}

// Whether a table that has nothing after its clauses is the same as these bytes.
fn same_table(own: &[u8], table: &[u8]) -> bool
    requires { Ended own.now × (length table.now ≡ 4096) }
    ensures { result ≡ same_list own.now table.now }
{
    let end = 144 + 56 * (own[2] as usize);
    lists::same(&own[..end], &table[..end]) && all_zero(&table[end..])
}

// Whether a text is accepted and reads to these bytes.
fn reads_to(text: &[u8], table: &[u8]) -> bool
    requires { length table.now ≡ 4096 }
    ensures { result ≡ reads_to (parse text.now) table.now }
{
    let mut own = [0u8; 4096];
    match read_text(text, &mut own) {
        Ok(()) => same_table(&own, table),
        Err(_) => false,
    }
}

// Whether a table is valid, with so much room for its text, which is made zero first.
fn valid_within<const ROOM: usize>(table: &[u8]) -> bool
    requires { (length table.now ≡ 4096) × (182 + 71 * min (get_or table.now 2 0) 64 ≤ ROOM) × (ROOM ≤ 4726) }
    ensures { result ≡ is_valid table.now }
{
    let mut text = [0u8; ROOM];
    let n = print_table(table, &mut text);
    reads_to(&text[..n], table)
}

// Whether some accepted text reads to these 4,096 bytes. Where a table has few clauses, there is less room to make zero for its text.
pub fn valid(table: &[u8]) -> bool
    requires { length table.now ≡ 4096 }
    ensures { result ≡ is_valid table.now }
{
    if table[2] <= 8 {
        return valid_within::<750>(table);
    }
    valid_within::<4726>(table)
}

// Writes a lent table out as text, and says how many bytes were written. A refusal leaves the text out as it was.
pub fn write(table: &[u8], out: &mut [u8]) -> Result<u16, Fault>
    ensures { (result ≡ write_result table.now out.old) × (out.new ≡ write_leaves table.now out.old) }
{
    taken(table, out.len() < 7168)?;
    let size = print_table(&table[..4096], out);
    Ok(size as u16)
}
