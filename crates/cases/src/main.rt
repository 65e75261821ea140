// Runs the tickets in data/ and compares what is printed of each with the lines that stand beside it.
#![tactic(auto)]

ghost use Rattle.io.specs.Counts.{IsPrefixLen};

use report::program::{print_magic, print_relevancy};
use std::fs;
use std::os::fd::AsRawFd;

// The descriptor of standard output.
const STDOUT_FILENO: i32 = 1;

// Reads a file. One that cannot be opened counts as empty, and no case expects to print nothing.
fn load(rt: &HostRuntime, path: &str, buffer: &mut [u8]) -> usize
    ensures { IsPrefixLen result buffer.new }
{
    match fs::open(rt, path) {
        Ok(file) => io::read_full(file.as_raw_fd(), buffer),
        Err(error) => {
            let _ = eprintln!(rt; "{path}: {error}");
            0
        }
    }
}

// Says how a case went.
fn say(name: &[u8], engine: &[u8], good: bool) {
    io::write_all(STDOUT_FILENO, name);
    io::write_all(STDOUT_FILENO, engine);
    if good {
        io::write_all(STDOUT_FILENO, b" ok\n");
    } else {
        io::write_all(STDOUT_FILENO, b" WRONG\n");
    }
}

// Runs a case: each engine must print the same lines.
fn case(rt: &HostRuntime, name: &[u8], source: &str, lines: &str) {
    let mut text = [0u8; 8192];
    let size = load(rt, source, &mut text);
    let mut expected = [0u8; 12288];
    let most = load(rt, lines, &mut expected);
    let mut out = [0u8; 12288];
    let n = print_relevancy(&text[..size], &mut out);
    say(
        name,
        b" relevancy",
        lists::same(&out[..n], &expected[..most]),
    );
    let m = print_magic(&text[..size], &mut out);
    say(name, b" magic", lists::same(&out[..m], &expected[..most]));
}

// One problem under four limits.
fn limits(rt: &HostRuntime) {
    case(rt, b"K1", "K1.text", "K1.lines");
    case(rt, b"K2", "K2.text", "K2.lines");
    case(rt, b"K3", "K3.text", "K3.lines");
    case(rt, b"K4", "K4.text", "K4.lines");
}

// The other marked cases.
fn marked(rt: &HostRuntime) {
    case(rt, b"K5", "K5.text", "K5.lines");
    case(rt, b"K6", "K6.text", "K6.lines");
    case(rt, b"K7", "K7.text", "K7.lines");
    case(rt, b"K8", "K8.text", "K8.lines");
    case(rt, b"K9", "K9.text", "K9.lines");
}

// The largest tickets, and those just past them.
fn largest(rt: &HostRuntime) {
    case(rt, b"K10", "K10.text", "K10.lines");
    case(rt, b"K10 refused", "K10_refused.text", "K10_refused.lines");
    case(rt, b"K11", "K11.text", "K11.lines");
    case(rt, b"K11 refused", "K11_refused.text", "K11_refused.lines");
}

// Document 000's examples.
fn examples(rt: &HostRuntime) {
    case(rt, b"example 1", "example_1.text", "example_1.lines");
    case(rt, b"example 7", "example_7.text", "example_7.lines");
}

fn main(rt: HostRuntime) {
    limits(&rt);
    marked(&rt);
    largest(&rt);
    examples(&rt);
}
