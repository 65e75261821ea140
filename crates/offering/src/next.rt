// The bytes of a clause frame, judged as the next clause line of a table: they are written as a line, and what judges a line judges it.
ghost use Rattle.std.specs.Prelude.{◌≡◌, ◌≤◌, ◌<◌, length, replicate};
ghost use Rattle.lists.specs.Member.{All};
ghost use Rattle.problem.specs.Digit.{hex_line};
ghost use Rattle.problem.specs.Problem.{weights};
ghost use Rattle.problem.specs.Layout.{problem_in};
ghost use Rattle.problem.specs.Table.{Lawful};
ghost use Rattle.writing.specs.terms.Printed.{Put};
ghost use Rattle.clause_line.specs.terms.Record.{ClauseFilled};
ghost use Rattle.problem.specs.Extended.{past_line};
ghost use Rattle.offering.specs.terms.Next.{NextFilled};

use adding::append::weight_of;
use clause_line::clause::clause;
use clause_line::table::Predicates;
use problem::fault::Fault;
use text_line::frame::Frame;
use text_line::power::Powers;
use writing::write::{put_byte, put_end};

// Writes a frame of at most 35 bytes as a line.
fn put_line(frame: &[u8], out: &mut [u8]) -> usize
    requires { (length frame.now ≤ 35) × (71 ≤ length out.old) }
    ensures { Put out.old 0 (hex_line frame.now) 71 result out.new }
{
    let mut next: usize = 0;
    for &b in frame {
        next = put_byte(out, next, b);
    }
    put_end(out, next)
}

// Judges a frame of 1 to 35 bytes after its kind, into a clause record.
fn judge_line(table: &[u8], frame: &[u8], rec: &mut [u8]) -> Result<u8, Fault>
    requires lawful { Lawful table.now }
    requires frame_nonzero { (0 < length frame.now) × (length frame.now ≤ 35) × All (λ b. b < 256) frame.now }
    requires rec_value { rec.old ≡ replicate 56 0 }
    ensures { ClauseFilled table.now frame.now (weights (problem_in table.now).constants (problem_in table.now).clauses) result rec.new }
{
    let mut text = [0u8; 71];
    put_line(frame, &mut text);
    let line = Frame {
        text: &text,
        at: 0,
        size: frame.len(),
    };
    let predicates = Predicates { table };
    let powers = Powers::new();
    clause(&line, &predicates, weight_of(table), rec, &powers)
}

// What a frame that goes on past a line's 35 bytes is refused for, where these are judged so: 3 but for a fault met before their end.
#[tactic(auto, unfolding(problem::specs::Extended::past_line))]
fn past_line(judged: Result<u8, Fault>) -> Result<u8, Fault>
    ensures { result ≡ past_line judged }
{
    match judged {
        Err(fault) => match fault {
            Fault::BadCount | Fault::Unknown | Fault::BadNumbering => judged,
            _ => Err(Fault::BadLength),
        },
        Ok(_) => Err(Fault::BadLength),
    }
}

// Judges the bytes of a frame as the next clause line of a table, into a clause record: how many variables the clause has.
pub fn judge_next(table: &[u8], frame: &[u8], rec: &mut [u8]) -> Result<u8, Fault>
    requires lawful { Lawful table.now }
    requires rec_value { rec.old ≡ replicate 56 0 }
    ensures { NextFilled table.now frame.now result rec.new }
{
    if frame.is_empty() {
        return Err(Fault::BadKind);
    }
    match frame[0] {
        3 => {}
        _ => {
            return Err(Fault::BadKind);
        }
    }
    if table[2] == 64 {
        return Err(Fault::BadCount);
    }
    if 35 < frame.len() {
        return past_line(judge_line(table, &frame[..35], rec));
    }
    judge_line(table, frame, rec)
}
