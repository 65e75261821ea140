// The alternatives of a split node, and what is asked of them by a number: the next alternative.
ghost use Rattle.std.specs.Prelude.{◌≡◌, ◌-◌, ◌<◌, length, drop, get_or};
ghost use Rattle.walk.specs.Numbers.{standing_by};
ghost use Rattle.walk.specs.terms.Resume.{is_taken, split_stands};
ghost use Rattle.walk.specs.terms.Alternatives.{listed};

use crate::answer::Alternatives;

impl Alternatives {
    // How many are taken before the next one; all of them where there are fewer.
    pub fn taken(self, next: u8) -> u8
        ensures { result ≡ length (listed self) - length (drop next (listed self)) }
    {
        if next < self.count {
            return next;
        }
        self.count
    }

    // The one just before the next one; atom 0 where there are fewer.
    pub fn atom_before(self, next: u8) -> u16
        requires next_nonzero { 0 < next }
        ensures { result ≡ get_or (listed self) (next - 1) 0 }
    {
        if next > self.count {
            return 0;
        }
        let at = (next - 1) as usize;
        self.atoms[at]
    }

    // Whether an atom is the one just before the next one.
    pub fn is_taken(self, next: u8, atom: usize) -> bool
        ensures { result ≡ is_taken (listed self) next atom }
    {
        if next == 0 {
            return false;
        }
        if next > self.count {
            return false;
        }
        let before = self.atom_before(next) as usize;
        before == atom
    }

    // Whether a session may stand at a node of this depth that is split into them.
    pub fn split_stands(self, depth: usize, standing: u8, next: u8) -> bool
        ensures { result ≡ split_stands (standing_by standing) depth (listed self) next }
    {
        if standing == 1 {
            return false;
        }
        if next > self.count {
            return false;
        }
        if standing > 1 {
            return true;
        }
        if depth > 0 {
            return false;
        }
        next >= self.count
    }
}
