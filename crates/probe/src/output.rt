// The output buffer. A full one is written out and begun anew, so no answer is too long for it. It is no `fmt::Write`: each `write!` would give a Result,
// and nothing here fails.
ghost use Rattle.std.specs.Prelude.{◌≤◌};
ghost use Rattle.probe.specs.declared.output.TheConstants.{CAPACITY};

// The number of the standard output, as POSIX has it. The crate `io` takes it: std's streams would rest on one axiom more, that of errno.
const STDOUT_FILENO: i32 = 1;

const CAPACITY: usize = 65536;

#[derive(Drop)]
pub struct Output {
    bytes: [u8; CAPACITY],
    filled: usize,
    ghost within: { filled ≤ CAPACITY },
}

impl Output {
    pub(crate) fn new() -> Self {
        Output {
            bytes: [0; CAPACITY],
            filled: 0,
        }
    }

    // Writes out what the buffer holds.
    pub(crate) fn flush(&mut self) {
        io::write_all(STDOUT_FILENO, &self.bytes[..self.filled]);
        self.filled = 0;
    }

    pub(crate) fn put(&mut self, b: u8) {
        if self.filled == CAPACITY {
            io::write_all(STDOUT_FILENO, &self.bytes);
            self.filled = 0;
        }
        self.bytes[self.filled] = b;
        self.filled += 1;
    }

    pub(crate) fn put_bytes(&mut self, bytes: &[u8]) {
        for &b in bytes {
            self.put(b);
        }
    }

    pub(crate) fn put_text(&mut self, text: &str) {
        self.put_bytes(text.as_bytes());
    }

    // A space, and the number in decimal.
    pub(crate) fn put_number(&mut self, n: u64) {
        let mut digits = [0u8; 20];
        let count = io::decimal(n, &mut digits);
        self.put(b' ');
        self.put_bytes(&digits[..count]);
    }

    // At least `width` hexadecimal digits.
    pub(crate) fn put_hex(&mut self, n: u64, width: usize) {
        let mut digits = [0u8; 16];
        let count = io::hex(n, width, &mut digits);
        self.put_bytes(&digits[..count]);
    }

    // The bytes as hexadecimal pairs, or `-` where there are none.
    pub(crate) fn put_pairs(&mut self, bytes: &[u8]) {
        if bytes.is_empty() {
            self.put(b'-');
        }
        for &b in bytes {
            self.put_hex(u64::from(b), 2);
        }
    }

    // The numbers in decimal with a space before each, or ` -` where there are none.
    pub(crate) fn put_numbers<N: Copy + Into<u64>>(&mut self, numbers: &[N]) {
        if numbers.is_empty() {
            self.put_text(" -");
        }
        for &n in numbers {
            self.put_number(n.into());
        }
    }
}
