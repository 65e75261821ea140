// Prints c to the power k for c from 0 to 32 and k from 0 to 4, in decimal, one to a line, c slowest.
#![tactic(auto)]

ghost use Rattle.std.specs.Prelude.{◌≡◌, ◌^◌, ◌≤◌};

// The descriptor of standard output.
const STDOUT_FILENO: i32 = 1;

// c to the power k, by multiplying.
fn power(c: u8, k: u8) -> u64
    requires { (c ≤ 32) × (k ≤ 4) }
    ensures { result ≡ c ^ k }
{
    let mut product = 1;
    for _ in 0..k {
        product *= c as u64;
    }
    product
}

// A number on a line of its own.
fn print_line(n: u64) {
    io::print_decimal(STDOUT_FILENO, n);
    io::write_all(STDOUT_FILENO, b"\n");
}

// The powers of c.
fn print_powers(c: u8)
    requires { c ≤ 32 }
{
    for k in 0..5 {
        print_line(power(c, k));
    }
}

fn main() {
    for c in 0..33 {
        print_powers(c);
    }
}
