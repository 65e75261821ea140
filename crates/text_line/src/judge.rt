// The faults of a line's bytes.
ghost use Rattle.std.specs.Prelude.{◌≡◌, ◌≤◌};
ghost use Rattle.problem.specs.Judge.{judge_sizes, judge_heading, judge_arity, judge_variable, judge_arg};
ghost use Rattle.problem.specs.Parse.{judge_closing};
ghost use Rattle.text_line.specs.Frame.{bytes_of};

use crate::frame::Frame;
use crate::power::Powers;
use problem::fault::Fault;
use problem::judge::Sizes;

// The first line of the text.
#[tactic(auto, using(problem::proofs::Lines::frame_length), unfolding(problem::specs::Judge::judge_heading))]
pub fn first_line(frame: &Frame) -> Result<Sizes, Fault>
    ensures { result ≡ judge_heading (bytes_of frame.now) }
{
    match frame.kind() {
        1 => {}
        _ => {
            return Err(Fault::BadKind);
        }
    }
    if frame.size <= 1 {
        return Err(Fault::BadLength);
    }
    if frame.byte(1) != 1 {
        return Err(Fault::BadVersion);
    }
    if frame.size <= 2 {
        return Err(Fault::BadLength);
    }
    let constants = frame.byte(2);
    if 32 < constants {
        return Err(Fault::BadCount);
    }
    sizes(frame, constants)
}

// The rest of the first line, from the number of predicates on.
#[tactic(auto, using(problem::proofs::Lines::frame_length), unfolding(problem::specs::Judge::judge_sizes))]
fn sizes(frame: &Frame, constants: u8) -> Result<Sizes, Fault>
    ensures { result ≡ judge_sizes constants (bytes_of frame.now) }
{
    if frame.size <= 3 {
        return Err(Fault::BadLength);
    }
    let predicates = frame.byte(3);
    if predicates == 0 {
        return Err(Fault::BadCount);
    }
    if 32 < predicates {
        return Err(Fault::BadCount);
    }
    if frame.size != 8 {
        return Err(Fault::BadLength);
    }
    Ok(Sizes {
        constants,
        predicates,
    })
}

// The arity of an arity line, where there are so many atoms before it.
#[tactic(auto, using(problem::proofs::Lines::frame_length), unfolding(problem::specs::Judge::judge_arity))]
pub fn arity_line(frame: &Frame, c: u8, atoms: usize, powers: &Powers) -> Result<u8, Fault>
    requires { (c ≤ 32) × (atoms ≤ 1024) }
    ensures { result ≡ judge_arity c atoms (bytes_of frame.now) }
{
    match frame.kind() {
        2 => {}
        _ => {
            return Err(Fault::BadKind);
        }
    }
    if frame.size <= 1 {
        return Err(Fault::BadLength);
    }
    let a = frame.byte(1);
    if 3 < a {
        return Err(Fault::BadCount);
    }
    if frame.size != 2 {
        return Err(Fault::BadLength);
    }
    if 1024 < atoms + powers.power(c, a) {
        return Err(Fault::TooManyAtoms);
    }
    Ok(a)
}

// An argument, after v variables: how many there are with it.
#[tactic(auto, unfolding(problem::specs::Judge::judge_arg))]
pub fn argument(c: u8, v: u8, b: u8) -> Result<u8, Fault>
    ensures { result ≡ judge_arg c v b }
{
    match b {
        0..=31 => { if b < c { Ok(v) } else { Err(Fault::Unknown) } }
        128..=131 => variable(v, b - 128),
        _ => Err(Fault::Unknown),
    }
}

// The variable x, after v variables.
#[tactic(auto, unfolding(problem::specs::Judge::judge_variable))]
fn variable(v: u8, x: u8) -> Result<u8, Fault>
    requires { x ≤ 3 }
    ensures { result ≡ judge_variable v x }
{
    if x < v {
        return Ok(v);
    }
    if x == v {
        return Ok(v + 1);
    }
    Err(Fault::BadNumbering)
}

// The last line, after so many clauses.
#[tactic(auto, using(problem::proofs::Lines::frame_length), unfolding(problem::specs::Parse::judge_closing))]
pub fn last_line(frame: &Frame, count: u8) -> Result<u8, Fault>
    ensures { result ≡ judge_closing count (bytes_of frame.now) }
{
    if frame.size <= 1 {
        return Err(Fault::BadLength);
    }
    if frame.byte(1) != count {
        return Err(Fault::BadCount);
    }
    if frame.size != 2 {
        return Err(Fault::BadLength);
    }
    Ok(0)
}
