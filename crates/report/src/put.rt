// Bytes, numbers and lines written one behind another to the output buffer, as far as it goes.
ghost use Rattle.std.specs.Prelude.{◌≡◌, [], ◌∷◌};
ghost use Rattle.report.specs.Printed.{decimals, said, free_line};
ghost use Rattle.report.specs.Written.{Writes};

use layout::Interval;

// The output buffer, and where the next byte would stand.
#[derive(Drop)]
pub(crate) struct Writer<'a> {
    pub out: &'a mut [u8],
    pub at: usize,
}

impl<'a> Writer<'a> {
    // At the front of a buffer.
    pub(crate) fn new(out: &'a mut [u8]) -> Writer<'a>
        ensures same_buffer { result.out.ghost_name ≡ out.entry.ghost_name }
        ensures front { (result.at ≡ 0) × (result.out.now ≡ out.old) }
    {
        Writer { out, at: 0 }
    }

    // One byte.
    fn byte(&mut self, b: u8)
        ensures { Writes self.old (b ∷ []) self.new }
    {
        if self.at < self.out.len() {
            self.out[self.at] = b;
            self.at += 1;
        }
    }

    // Some bytes.
    fn all(&mut self, from: &[u8])
        ensures { Writes self.old from.now self.new }
    {
        for b in from {
            self.byte(*b);
        }
    }

    // The decimals of a number. (Not by `Display`, whose writer fails where a buffer ends; this one is cut there, byte by byte.)
    fn decimals(&mut self, n: usize)
        ensures { Writes self.old (decimals n) self.new }
    {
        if 10 <= n {
            self.decimals(n / 10);
        }
        self.byte(b'0' + (n % 10) as u8);
    }

    // A line that gives a number its name.
    pub(crate) fn said(&mut self, name: &[u8], n: usize)
        ensures { Writes self.old (said name.now n) self.new }
    {
        self.all(name);
        self.decimals(n);
        self.byte(b'\n');
    }

    // The line of a listed interval.
    pub(crate) fn free(&mut self, listed: Interval)
        ensures { Writes self.old (free_line listed) self.new }
    {
        self.all(b"free=");
        self.decimals(listed.start);
        self.byte(b',');
        self.decimals(listed.size);
        self.byte(b'\n');
    }
}
