// The value of a float token.
ghost use Rattle.std.specs.Prelude.{◌≡◌};
ghost use Rattle.lexer.specs.Float.{Limits, Scaled, scale_of, within_limits, float_value};

// 2 to the 53: up to here each whole number is a double.
const LARGEST_DIGITS: u64 = 9007199254740992;

// Up to here each power of ten is a double.
const LARGEST_TENS: u64 = 22;

// Ten to the k, for each k up to LARGEST_TENS.
const TENS: [f64; 23] = [
    1.0,
    10.0,
    100.0,
    1000.0,
    10000.0,
    100000.0,
    1000000.0,
    10000000.0,
    100000000.0,
    1000000000.0,
    10000000000.0,
    100000000000.0,
    1000000000000.0,
    10000000000000.0,
    100000000000000.0,
    1000000000000000.0,
    10000000000000000.0,
    100000000000000000.0,
    1000000000000000000.0,
    10000000000000000000.0,
    100000000000000000000.0,
    1000000000000000000000.0,
    10000000000000000000000.0,
];

// m times ten to the k, or m by ten to the k: one operation of exact operands, so one rounding.
fn scaled(m: u64, up: bool, k: u64) -> f64
    requires { Limits m (scale_of up k) }
    ensures { Scaled m (scale_of up k) result }
{
    let digits = m as f64;
    let ten = TENS[k as usize];
    if up { digits * ten } else { digits / ten }
}

// The same for any m and k.
fn within_limits(m: u64, up: bool, k: u64) -> Option<f64>
    ensures { result ≡ within_limits m (scale_of up k) }
{
    if m > LARGEST_DIGITS {
        return None;
    }
    if k > LARGEST_TENS {
        return None;
    }
    Some(scaled(m, up, k))
}

// The digits m, the exponent's sign and size x, and f fraction digits.
pub fn float_value(m: u64, minus: bool, x: u64, f: u64) -> Option<f64>
    ensures { result ≡ float_value m minus x f }
{
    if minus {
        // the sum of two that are in the limit is no overflow
        if x > LARGEST_TENS {
            return None;
        }
        if f > LARGEST_TENS {
            return None;
        }
        return within_limits(m, false, x + f);
    }
    if f <= x {
        return within_limits(m, true, x - f);
    }
    within_limits(m, false, f - x)
}
