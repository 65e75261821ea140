// One line of the text: pairs of digits, ended by byte 0A.
ghost use Rattle.std.specs.Prelude.{◌≡◌, ◌+◌, ◌<◌, ◌≤◌, length};
ghost use Rattle.problem.specs.Line.{run, line_at};

use crate::digit::digit;
use problem::line::Line;

// How many digits stand in the text from a place on, at most 71.
fn run_of(text: &[u8], at: usize) -> usize
    requires { at < length text.now }
    ensures { (result ≡ run text.now at 71) × (at + result ≤ length text.now) × (result ≤ 71) }
{
    for d in 0..71 {
        let i = at + d;
        if text.len() <= i {
            return d;
        }
        if 16 <= digit(text[i]) {
            return d;
        }
    }
    71
}

// The line that starts at a place of the text.
pub fn line_at(text: &[u8], at: usize) -> Line
    ensures { result ≡ line_at text.now at }
{
    if text.len() <= at {
        return Line::Absent;
    }
    let d = run_of(text, at);
    let end = at + d;
    if d == 0 {
        return Line::Bad;
    }
    if 70 < d {
        return Line::Bad;
    }
    if d % 2 != 0 {
        return Line::Bad;
    }
    if text.len() <= end {
        return Line::Bad;
    }
    if text[end] != 10 {
        return Line::Bad;
    }
    Line::Holds(d / 2)
}
