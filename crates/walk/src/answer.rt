// The answers that an engine's functions give each other.
ghost use Rattle.std.specs.Prelude.{◌≤◌};

// How a place is found, with the number of facts in the set. The split is written down in the path.
#[derive(Clone, Copy, Debug, PartialEq, Eq)]
pub enum Found {
    Closed(usize),
    Open(usize),
    Split(usize),
}

// How a part of the walk ends: all closed after so many entries; open after so many, at a depth; or the limit met, at the depth whose next alternative is due.
#[derive(Clone, Copy, Debug, PartialEq, Eq)]
pub enum Walked {
    Shut(u32),
    Opened(u32, usize),
    Exhausted(usize),
}

// The alternatives of a split node in order: the first `count` of these atoms.
#[derive(Clone, Copy)]
pub struct Alternatives {
    pub count: u8,
    pub atoms: [u16; 4],
    pub ghost few: { count ≤ 4 },
}

// How a whole walk ends, and how many alternatives the root has.
#[derive(Clone, Copy)]
pub struct Whole {
    pub walked: Walked,
    pub used: u8,
}
