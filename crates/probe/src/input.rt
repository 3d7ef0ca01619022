// The input buffer: a window of the input, which is moved on as cases are read.
ghost use Rattle.std.specs.Prelude.{◌≡◌, ◌-◌, ◌≤◌, length};
ghost use Rattle.probe.specs.Window.{Inside};
ghost use Rattle.probe.specs.declared.input.TheConstants.{CAPACITY};

// The number of the standard input, as POSIX has it. The crate `io` takes it: std's streams would rest on one axiom more, that of errno.
const STDIN_FILENO: i32 = 0;

// More than three of the largest cases: what is moved down is then less than what was read.
const CAPACITY: usize = 262144;

// The bytes from `start` to `end` are read and not yet used; `ended` where no more come. A read that fails ends the input too.
#[derive(Drop)]
pub struct Input {
    bytes: [u8; CAPACITY],
    start: usize,
    end: usize,
    ended: bool,
    ghost inside: { Inside CAPACITY start end },
}

impl Input {
    pub(crate) fn new() -> Self {
        Input {
            bytes: [0; CAPACITY],
            start: 0,
            end: 0,
            ended: false,
        }
    }

    // What is read and not yet used.
    pub(crate) fn unread(&self) -> &[u8]
        ensures { length result.now ≡ self.now.end - self.now.start }
    {
        &self.bytes[self.start..self.end]
    }

    // All but the last `left` bytes of it are used.
    pub(crate) fn keep_last(&mut self, left: usize)
        requires { left ≤ self.old.end - self.old.start }
    {
        self.start = self.end - left;
    }

    // Moves what is unread to the front, and reads behind it until the buffer is full or the input ends.
    fn read_behind(&mut self) {
        let held = self.end - self.start;
        self.bytes.copy_within(self.start..self.end, 0);
        let got = io::read_full(STDIN_FILENO, &mut self.bytes[held..]);
        self.start = 0;
        self.end = held + got;
        self.ended = self.end < CAPACITY;
    }

    // Then `enough` bytes are unread, or all that is left of the input.
    pub(crate) fn refill(&mut self, enough: usize) {
        if !self.ended && self.end - self.start < enough {
            self.read_behind();
        }
    }
}
