// The classes of bytes, by comparisons: there is no table of them, neither here nor in what the compiler makes of it. The order
// of the comparisons was chosen by measure (docs/PERFORMANCE.md): another one can cost room, time or a table.
ghost use Rattle.std.specs.Prelude.{◌≡◌, ◌&&◌, ltb};
ghost use Rattle.lexer.specs.Chars.{space, class_of, is, within, small_letter, underscore_char, decimal_digit, graphic_token_char, layout_char, quote_char, foreign_byte};

// From `first` to `last`, both included.
pub(crate) fn between(first: u8, last: u8, b: u8) -> bool
    ensures { result ≡ within first last b }
{
    if b < first { false } else { b <= last }
}

pub(crate) fn is_small(b: u8) -> bool
    ensures { result ≡ is small_letter b }
{
    between(b'a', b'z', b)
}

// A letter or the underscore, which is one range with the small letters but for the back quote between them. All marks but the
// brackets are below them.
pub(crate) fn is_alphabetic(b: u8) -> bool
    ensures { result ≡ within small_letter underscore_char (class_of b) }
{
    if b < b'A' {
        return false;
    }
    if b == b'`' {
        return false;
    }
    if between(b'_', b'z', b) {
        return true;
    }
    b <= b'Z'
}

pub fn is_digit(b: u8) -> bool
    ensures { result ≡ is decimal_digit b }
{
    between(b'0', b'9', b)
}

// A letter, a digit or the underscore; first what words have most of.
pub(crate) fn is_alphanumeric(b: u8) -> bool
    ensures { result ≡ within small_letter decimal_digit (class_of b) }
{
    if b == b'`' {
        return false;
    }
    if between(b'_', b'z', b) {
        return true;
    }
    if is_digit(b) {
        return true;
    }
    between(b'A', b'Z', b)
}

// # $ & * + - . / : < = > ? @ ^ ~ \
pub(crate) fn is_graphic(b: u8) -> bool
    ensures { result ≡ is graphic_token_char b }
{
    if between(b'*', b'/', b) {
        return b != b',';
    }
    if between(b':', b'@', b) {
        return b != b';';
    }
    if between(b'#', b'&', b) {
        return b != b'%';
    }
    if between(b'\\', b'^', b) {
        return b != b']';
    }
    b == b'~'
}

// Tab, newline and carriage return.
fn is_layout_control(b: u8) -> bool
    ensures { result ≡ (ltb b space && is layout_char b) }
{
    if between(b'\t', b'\n', b) {
        return true;
    }
    b == b'\r'
}

// Tab, newline, carriage return and space.
pub fn is_layout(b: u8) -> bool
    ensures { result ≡ is layout_char b }
{
    if b == b' ' {
        return true;
    }
    is_layout_control(b)
}

// ' " `
pub(crate) fn is_quote(b: u8) -> bool
    ensures { result ≡ is quote_char b }
{
    if b'\'' < b {
        return b == b'`';
    }
    if b == b'"' {
        return true;
    }
    b == b'\''
}

// In no class of ISO's: neither layout nor a printable byte.
pub fn is_foreign(b: u8) -> bool
    ensures { result ≡ is foreign_byte b }
{
    if between(b' ', b'~', b) {
        return false;
    }
    !is_layout_control(b)
}
