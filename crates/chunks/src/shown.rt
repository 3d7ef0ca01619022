// What is shown of a text.
ghost use Rattle.std.specs.Prelude.{◌≡◌, ◌-◌, ◌<◌, cond, length, drop};
ghost use Rattle.chunks.specs.Answers.{hand_of, EndsUnknown};

// The bytes at hand, with the unknown byte behind them, and whether the sender has said that the text ends there.
#[derive(Clone, Copy)]
pub struct Shown<'a> {
    pub bytes: &'a [u8],
    pub ended: bool,
    pub ghost last: { EndsUnknown bytes.now },
}

impl<'a> Shown<'a> {
    // How many are at hand.
    pub(crate) fn count(self) -> usize
        ensures { result ≡ length self.entry.bytes.now - 1 }
    {
        self.bytes.len() - 1
    }

    // They alone.
    pub(crate) fn hand(self) -> &'a [u8]
        ensures { result.now ≡ hand_of self.entry.bytes.now }
    {
        let n = self.count();
        &self.bytes[0..n]
    }

    // The text as far as it is known: the unknown byte stands for what may come.
    pub(crate) fn text(self) -> &'a [u8]
        ensures { result.now ≡ cond self.entry.ended (hand_of self.entry.bytes.now) self.entry.bytes.now }
    {
        if self.ended { self.hand() } else { self.bytes }
    }

    // What is shown from `at` on.
    pub(crate) fn from(self, at: usize) -> Shown<'a>
        requires { at < length self.bytes.now }
        ensures bytes { result.bytes.now ≡ drop at self.entry.bytes.now }
        ensures ended { result.ended ≡ self.entry.ended }
    {
        Shown {
            bytes: &self.bytes[at..],
            ended: self.ended,
        }
    }
}
