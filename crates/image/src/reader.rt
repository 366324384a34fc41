// A cursor over a lent text that hands out one line at a time.
ghost use Rattle.std.specs.Prelude.{◌≡◌, ◌+◌, ◌<◌, ◌≤◌, ◌^◌, length, drop, MatchOption};
ghost use Rattle.image.specs.Lines.{first_line};

use crate::line;

// A text, and the place of a line in it.
#[derive(Clone, Copy)]
pub(crate) struct Reader<'a> {
    pub text: &'a [u8],
    pub at: usize,
}

impl<'a> Reader<'a> {
    // A cursor at a place of a text.
    pub(crate) fn new(text: &'a [u8], at: usize) -> Reader<'a>
        ensures { (result.text ≡ text.entry) × (result.at ≡ at) }
    {
        Reader { text, at }
    }

    // The line where the cursor stands, without its LF.
    fn line(self) -> &'a [u8]
        ensures { result.now ≡ first_line (drop self.entry.at self.entry.text.now) }
    {
        line::line_in(self.text, self.at)
    }

    // The cursor behind a line of n bytes and its LF.
    fn past(self, n: usize) -> Reader<'a>
        requires { self.at + (n + 1) < 2 ^ 64 }
        ensures { (result.text ≡ self.entry.text) × (result.at ≡ self.entry.at + (n + 1)) }
    {
        Reader {
            at: self.at + (n + 1),
            ..self
        }
    }

    // The line where the cursor stands, which moves behind its LF; none at the end of the text.
    pub(crate) fn next_line(&mut self) -> Option<&'a [u8]>
        ensures same_text { self.new.text ≡ self.old.text }
        ensures moves { MatchOption result (length self.old.text.now ≤ self.old.at) (λ line. (self.old.at < length self.old.text.now) × (line.now ≡ first_line (drop self.old.at self.old.text.now)) × (self.new.at ≡ self.old.at + (length line.now + 1))) }
    {
        if self.text.len() <= self.at {
            return None;
        }
        let line = self.line();
        *self = self.past(line.len());
        Some(line)
    }
}
