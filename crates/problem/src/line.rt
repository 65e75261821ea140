// What is found where a line would start.

// Where a line would start: no text is left, or the line is badly formed, or it holds this many bytes.
#[derive(Clone, Copy, Debug, PartialEq, Eq)]
pub enum Line {
    Absent,
    Bad,
    Holds(usize),
}
