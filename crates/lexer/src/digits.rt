// Digits in a base.
ghost use Rattle.std.specs.Prelude.{◌≡◌, ◌+◌, ◌*◌, ◌≤◌, min};
ghost use Rattle.lexer.specs.Digits.{digit_of, digits_at, beyond, held, Based};

// What a run of digits stands for, and where it ends.
#[derive(Clone, Copy)]
pub struct Digits {
    pub value: u64,
    pub end: usize,
}

// What a digit stands for; 16 where the byte is none, so that one comparison with the base serves every base: an Option would be looked into first.
pub(crate) fn digit(b: u8) -> u64
    ensures { result ≡ digit_of b }
{
    if b < b'0' {
        return 16;
    }
    if b <= b'9' {
        return (b - b'0') as u64;
    }
    if b < b'A' {
        return 16;
    }
    if b <= b'F' {
        return (b - b'A' + 10) as u64;
    }
    if b < b'a' {
        return 16;
    }
    if b <= b'f' {
        return (b - b'a' + 10) as u64;
    }
    16
}

// The largest magnitude of an integer token: that of the lowest integer.
pub const LARGEST_MAGNITUDE: u64 = 9223372036854775808;

// One more: no value is counted further.
pub(crate) const BEYOND: u64 = LARGEST_MAGNITUDE + 1;

// A sixteenth of the largest: what is less can take a digit more in any base, and needs no division.
const NEAR: u64 = LARGEST_MAGNITUDE / 16;

// A digit more.
fn grown(value: u64, base: u64, d: u64) -> u64
    requires based { Based base value }
    requires d_bound { d ≤ 16 }
    ensures { result ≡ min (value * base + d) beyond }
{
    if value < NEAR {
        return value * base + d;
    }
    if LARGEST_MAGNITUDE / base < value {
        return BEYOND;
    }
    let sum = value * base + d;
    if BEYOND < sum {
        return BEYOND;
    }
    sum
}

// The digits of the base from an offset on, read on from `value`.
pub(crate) fn read_digits(text: &[u8], from: usize, base: u64, value: u64) -> Digits
    requires { Based base value }
    ensures { result ≡ held (digits_at base value text.now from) }
{
    let mut v = value;
    for at in from..text.len() {
        let d = digit(text[at]);
        if base <= d {
            return Digits { value: v, end: at };
        }
        v = grown(v, base, d);
    }
    Digits {
        value: v,
        end: from.max(text.len()),
    }
}
