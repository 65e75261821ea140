// A node's record in the path, nine bytes: the number of the clause or rule that it is split by (2, low byte first), the values of 80, 81, 82, 83 (0 for a
// variable that the clause lacks), the next alternative, and how many facts the node has (2, low byte first). Behind 1,025 of them stands how long the longest path
// was that the walk has entered (2, low byte first).
ghost use Rattle.std.specs.Prelude.{◌≡◌, ◌+◌, ◌<◌, length, set};
ghost use Rattle.walk.specs.terms.Path.{Room, node_at, number_at, four_at, next_at, mark_at, deepest_at, PathKept, Noted, Passed};

use lists::pair;

// The number of the clause or rule that a node is split by.
pub fn number(path: &[u8], depth: usize) -> usize
    requires { Room path.now depth }
    ensures { result ≡ number_at path.now depth }
{
    let at = 9 * depth;
    pair(path[at], path[at + 1])
}

// The four values of its instance.
pub fn values(path: &[u8], depth: usize) -> [u8; 4]
    requires { Room path.now depth }
    ensures { result ≡ four_at path.now depth }
{
    let at = 9 * depth;
    [path[at + 2], path[at + 3], path[at + 4], path[at + 5]]
}

// Its next alternative.
pub fn next(path: &[u8], depth: usize) -> u8
    requires { Room path.now depth }
    ensures { result ≡ next_at path.now depth }
{
    path[9 * depth + 6]
}

// How many facts it has.
pub fn mark(path: &[u8], depth: usize) -> usize
    requires { Room path.now depth }
    ensures { result ≡ mark_at path.now depth }
{
    let at = 9 * depth;
    pair(path[at + 7], path[at + 8])
}

// The longest path that was entered.
pub fn deepest(path: &[u8]) -> usize
    requires { length path.now ≡ 9227 }
    ensures { result ≡ deepest_at path.now }
{
    pair(path[9225], path[9226])
}

// Takes this for the longest path entered so far.
pub fn bring(path: &mut [u8], deepest: usize)
    requires { (length path.old ≡ 9227) × (deepest < 65536) }
    ensures { (deepest_at path.new ≡ deepest) × PathKept path.old 1025 path.new }
{
    path[9225] = (deepest % 256) as u8;
    path[9226] = (deepest / 256 % 256) as u8;
}

// Goes on to the alternative after the next one: the path that ends with it is entered.
pub fn pass(path: &mut [u8], depth: usize)
    requires room { Room path.old depth }
    requires depth_bound { next_at path.old depth < 255 }
    ensures { Passed path.old depth path.new }
{
    let at = 9 * depth + 6;
    path[at] = path[at] + 1;
    if deepest(path) <= depth {
        bring(path, depth + 1);
    }
}

// Turns to another alternative.
pub fn turn(path: &mut [u8], depth: usize, next: u8)
    requires { Room path.old depth }
    ensures { path.new ≡ set path.old (node_at depth + 6) next }
{
    path[9 * depth + 6] = next;
}

// Writes a split node down, with all alternatives left.
pub fn note(path: &mut [u8], depth: usize, number: usize, a: u8, b: u8, c: u8, d: u8, mark: usize)
    requires room { Room path.old depth }
    requires number_bound { (number < 65536) × (mark < 65536) }
    ensures { Noted path.old depth number a b c d mark path.new }
{
    let at = 9 * depth;
    path[at] = (number % 256) as u8;
    path[at + 1] = (number / 256 % 256) as u8;
    path[at + 2] = a;
    path[at + 3] = b;
    path[at + 4] = c;
    path[at + 5] = d;
    path[at + 6] = 0;
    path[at + 7] = (mark % 256) as u8;
    path[at + 8] = (mark / 256 % 256) as u8;
}
