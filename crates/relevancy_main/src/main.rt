// Reads a ticket from standard input and prints what the relevancy engine says of it.
#![tactic(auto)]

use report::program::print_relevancy;

// The descriptors that a program is started with.
const STDIN_FILENO: i32 = 0;

const STDOUT_FILENO: i32 = 1;

fn main() {
    let mut text = [0u8; 8192];
    let size = io::read_full(STDIN_FILENO, &mut text);
    let mut out = [0u8; 12288];
    let n = print_relevancy(&text[..size], &mut out);
    io::write_all(STDOUT_FILENO, &out[..n]);
}
