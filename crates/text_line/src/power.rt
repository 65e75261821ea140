// The table of powers, and looking a power up in it.
ghost use Rattle.std.specs.Prelude.{◌≡◌, ◌^◌, ◌≤◌};
ghost use Rattle.lists.specs.Powers.{powers as allPowers};

// What the program `powers` prints: c to the power k for c from 0 to 32 and k from 0 to 4, c slowest.
const POWERS: [u32; 165] = [
    1, 0, 0, 0, 0, 1, 1, 1, 1, 1, 1, 2, 4, 8, 16, 1, 3, 9, 27, 81, 1, 4, 16, 64, 256, 1, 5, 25,
    125, 625, 1, 6, 36, 216, 1296, 1, 7, 49, 343, 2401, 1, 8, 64, 512, 4096, 1, 9, 81, 729, 6561,
    1, 10, 100, 1000, 10000, 1, 11, 121, 1331, 14641, 1, 12, 144, 1728, 20736, 1, 13, 169, 2197,
    28561, 1, 14, 196, 2744, 38416, 1, 15, 225, 3375, 50625, 1, 16, 256, 4096, 65536, 1, 17, 289,
    4913, 83521, 1, 18, 324, 5832, 104976, 1, 19, 361, 6859, 130321, 1, 20, 400, 8000, 160000, 1,
    21, 441, 9261, 194481, 1, 22, 484, 10648, 234256, 1, 23, 529, 12167, 279841, 1, 24, 576, 13824,
    331776, 1, 25, 625, 15625, 390625, 1, 26, 676, 17576, 456976, 1, 27, 729, 19683, 531441, 1, 28,
    784, 21952, 614656, 1, 29, 841, 24389, 707281, 1, 30, 900, 27000, 810000, 1, 31, 961, 29791,
    923521, 1, 32, 1024, 32768, 1048576,
];

// The table, which is laid out anew at each call that names the constant: so reading makes it once for a text, and lends it.
#[derive(Clone, Copy, Debug)]
pub struct Powers {
    pub table: [u32; 165],
    pub ghost listed: { table ≡ allPowers },
}

impl Powers {
    pub fn new() -> Self {
        Powers { table: POWERS }
    }

    // c to the power k, looked up.
    pub fn power(&self, c: u8, k: u8) -> usize
        requires { (c ≤ 32) × (k ≤ 4) }
        ensures { (result ≡ c ^ k) × (result ≤ 1048576) }
    {
        let i = 5 * (c as usize) + (k as usize);
        self.table[i] as usize
    }
}
