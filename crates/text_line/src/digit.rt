// The sixteen digits.
ghost use Rattle.std.specs.Prelude.{◌≡◌, cond, ◌&&◌, ◌<◌, ltb, eqb, get_or};
ghost use Rattle.problem.specs.Digit.{digits, digit_of};

// The digit of a value below 16.
pub fn digit_of(k: u8) -> u8
    requires { k < 16 }
    ensures { result ≡ get_or digits k 0 }
{
    let digits = b"0123456789ABCDEF";
    let i = k as usize;
    digits[i]
}

// k, if it is the value of the digit b; else 16.
fn value(b: u8, k: u8) -> u8
    ensures { result ≡ cond (ltb k 16 && eqb (get_or digits k 0) b) k 16 }
{
    if 16 <= k {
        return 16;
    }
    if digit_of(k) != b {
        return 16;
    }
    k
}

// The value of the digit b, or 16 for any other byte.
pub fn digit(b: u8) -> u8
    ensures { result ≡ digit_of b }
{
    if b < 48 {
        return 16;
    }
    if b < 65 {
        return value(b, b - 48);
    }
    value(b, b - 55)
}

// The value of a digit b: of a byte that has been compared with the sixteen.
pub fn known(b: u8) -> u8
    requires { digit_of b < 16 }
    ensures { result ≡ digit_of b }
{
    if 65 <= b {
        return b - 55;
    }
    b - 48
}
