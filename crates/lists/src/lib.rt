// Loops over bytes that every crate needs. Definitions on lists are in specs/, their laws in proofs/.
#![tactic(auto)]

ghost use Rattle.std.specs.Prelude.{◌≡◌, ◌++◌, ◌+◌, ◌*◌, ◌/◌, ◌%◌, ◌≤◌, length, drop, replicate, set};
ghost use Rattle.lists.specs.Bytes.{same_list};

// Puts the bytes of src in front of dst's, over those that were there.
pub fn copy(dst: &mut [u8], src: &[u8])
    requires { length src.now ≤ length dst.old }
    ensures { dst.new ≡ src.now ++ drop (length src.now) dst.old }
{
    for i in 0..src.len() {
        dst[i] = src[i];
    }
}

// Whether two slices hold the same bytes. No byte ends the loop, so that many are compared at a time.
pub fn same(a: &[u8], b: &[u8]) -> bool
    ensures { result ≡ same_list a.now b.now }
{
    a == b
}

// Makes every byte 0.
pub fn zero(dst: &mut [u8])
    ensures { dst.new ≡ replicate (length dst.old) 0 }
{
    dst.fill(0);
}

// A number of two bytes.
// Kept: `u16::from_le_bytes` takes an array, and the functions that reading reaches make none but those that tests/forms names.
pub fn pair(low: u8, high: u8) -> usize
    ensures { result ≡ low + 256 * high }
{
    (low as usize) + 256 * (high as usize)
}

// Puts the low two bytes of a number at a place, the lowest first.
// Kept: `to_le_bytes` gives an array, as at `pair`.
pub fn put_pair(bytes: &mut [u8], at: usize, n: usize)
    requires { at + 2 ≤ length bytes.old }
    ensures { bytes.new ≡ set (set bytes.old at (n % 256)) (at + 1) (n / 256 % 256) }
{
    bytes[at] = (n % 256) as u8;
    bytes[at + 1] = (n / 256 % 256) as u8;
}
