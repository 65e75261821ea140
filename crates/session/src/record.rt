// The record of a session: where a walk stands, in plain numbers, the same for both engines. Further fields may only be added behind these.
ghost use Rattle.std.specs.Prelude.{◌&&◌, ◌≡◌, leb};
ghost use Rattle.ground.specs.declared.verdict.Verdict.TheVariants.{Refused};

use ground::verdict::Verdict;

// The entries made; how many the path has; the verdict (0 none, 1 fits, 2 spent); the next alternative of the path's last node. Of each entry of the path, the first one
// first: its atom, and the next alternative of the node that it was entered from. How many entries the longest path had.
#[repr(C)]
#[derive(Clone, Copy)]
pub struct Session {
    pub count: u32,
    pub length: u16,
    pub verdict: u8,
    pub next: u8,
    pub atoms: [u16; 1024],
    pub nexts: [u8; 1024],
    pub deepest: u32,
}

// What a call gives back: its verdict, and the session as it is then.
#[derive(Drop)]
pub struct Moved {
    pub verdict: Verdict,
    pub session: Session,
}

// What a run without a session gives back: its verdict, and how many entries the longest path had, 0 where it is refused.
#[derive(Drop)]
pub struct Reply {
    pub verdict: Verdict,
    pub deepest: u32,
}

// Whether a record's verdict, length and figure can be those of a session over so many atoms.
pub fn is_kept(verdict: u8, length: u16, deepest: u32, atoms: usize) -> bool
    ensures { result ≡ (leb verdict 2 && leb length 1024 && (leb length deepest && leb deepest atoms)) }
{
    verdict <= 2 && length <= 1024 && length as u32 <= deepest && deepest as usize <= atoms
}

// A refusal leaves the session as it was.
pub fn refused(session: Session, e: u8) -> Moved
    ensures { (result.verdict ≡ Refused e) × (result.session ≡ session) }
{
    Moved {
        verdict: Verdict::Refused(e),
        session,
    }
}
