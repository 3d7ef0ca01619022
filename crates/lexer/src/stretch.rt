// Stretches of bytes that are passed over in a run.
ghost use Rattle.std.specs.Prelude.{◌≡◌};
ghost use Rattle.lexer.specs.Stretch.{in_stretch, stretch_end};

// In no stretch.
pub(crate) const NONE: u8 = 0;

// Whether a byte is from `first` to `last`, and neither `but` nor `nor`.
fn in_stretch(first: u8, last: u8, but: u8, nor: u8, b: u8) -> bool
    ensures { result ≡ in_stretch first last but nor b }
{
    first <= b && b <= last && b != but && b != nor
}

// Where a stretch of such bytes ends. A `while`: as a `for` over the offsets it was tried, and the token call, which comes here for each token, executes 8 in
// 100 more instructions and takes up to 18 in 100 longer: below its goal beside the Rust (docs/PERFORMANCE.md).
pub fn stretch_end(text: &[u8], from: usize, first: u8, last: u8, but: u8, nor: u8) -> usize
    ensures { result ≡ stretch_end first last but nor text.now from }
{
    let mut at = from;
    while at < text.len() {
        if in_stretch(first, last, but, nor, text[at]) {
            at += 1;
        } else {
            return at;
        }
    }
    at
}
