// The printed lines.
ghost use Rattle.std.specs.Prelude.{[], ◌∷◌, ◌+◌, ◌*◌, ◌<◌, ◌≤◌, length, get_or};
ghost use Rattle.problem.specs.Digit.{hex_line};
ghost use Rattle.problem.specs.Problem.{atom_count};
ghost use Rattle.problem.specs.Layout.{problem_in};
ghost use Rattle.problem.specs.Table.{Lawful};
ghost use Rattle.writing.specs.terms.Printed.{Put};
ghost use Rattle.ground.specs.Report.{atoms_in_order, head_line};

use kernel::matching::decode;
use writing::write::{put_byte, put_end};

// A frame as a line.
fn put_frame(frame: &[u8], out: &mut [u8], at: usize) -> usize
    requires { at + (2 * length frame.now + 1) ≤ length out.old }
    ensures { Put out.old at (hex_line frame.now) (2 * length frame.now + 1) result out.new }
{
    let mut next = at;
    for &b in frame {
        next = put_byte(out, next, b);
    }
    put_end(out, next)
}

// The first line, by an answer's numbers.
pub fn put_head(refusal: u8, number: u8, value: u32, out: &mut [u8]) -> usize
    requires { 13 ≤ length out.old }
    ensures { Put out.old 0 (head_line (record { refusal = refusal; number = number; clause = 0; value = value })) 13 result out.new }
{
    let c = (value / 256 % 256) as u8;
    let d = (value % 256) as u8;
    if refusal != 0 {
        let frame = [143, refusal, c, d];
        return put_frame(&frame, out, 0);
    }
    let a = (value / 16777216 % 256) as u8;
    let b = (value / 65536 % 256) as u8;
    let frame = [129, number, a, b, c, d];
    put_frame(&frame, out, 0)
}

// The line of the atom with number a.
pub fn put_atom(table: &[u8], a: usize, out: &mut [u8], at: usize) -> usize
    requires lawful { Lawful table.now }
    requires a_bound { (a < atom_count (problem_in table.now).constants (problem_in table.now).arities) × (at + 11 ≤ length out.old) }
    ensures { Put out.old at (hex_line (130 ∷ get_or (atoms_in_order (problem_in table.now)) a [])) 11 result out.new }
{
    let mut args = [0u8; 3];
    let p = decode(table, a, &mut args);
    let n = 2 + (table[16 + 4 * (p as usize)] as usize);
    let frame = [130, p, args[0], args[1], args[2]];
    put_frame(&frame[..n], out, at)
}
