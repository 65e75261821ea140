// A line of the text as a frame: its bytes, each decoded from its two digits where it is asked for.
ghost use Rattle.std.specs.Prelude.{◌≡◌, ◌+◌, ◌<◌, ◌≤◌, length, get_or};
ghost use Rattle.problem.specs.declared.line.Line.TheVariants.{Holds};
ghost use Rattle.problem.specs.Line.{line_at, after_line};

use crate::digit::known;

// The line that starts at a place of the text, with its number of bytes.
#[derive(Clone, Copy, Debug)]
pub struct Frame<'a> {
    pub text: &'a [u8],
    pub at: usize,
    pub size: usize,
    pub ghost holds: { line_at text.now at ≡ Holds size },
}

impl Frame<'_> {
    ghost use Rattle.text_line.specs.Frame.{bytes_of};

    // Byte j.
    pub fn byte(&self, j: usize) -> u8
        requires { j < self.now.size }
        ensures { result ≡ get_or (bytes_of self.now) j 0 }
    {
        let i = self.at + 2 * j;
        let high = known(self.text[i]);
        let low = known(self.text[i + 1]);
        16 * high + low
    }

    // The byte that says which kind of line it is. Every line has one.
    pub fn kind(&self) -> u8
        ensures { result ≡ get_or (bytes_of self.now) 0 0 }
    {
        self.byte(0)
    }

    // Where the next line starts.
    pub fn after(&self) -> usize
        ensures { (result ≡ after_line self.now.at self.now.size) × (result ≤ length self.now.text.now) }
    {
        self.at + 2 * self.size + 1
    }
}
