// The calls, each with what a line gives. What it answers is printed, its code first.
use crate::rows::Station;
use layout::{Refusal, State};
use std::io;
use std::io::Write;

// A call: n sets up anew, c collects, a allots, r reads, w writes, any other letter surveys.
#[derive(Clone, Copy, Debug, PartialEq, Eq)]
pub(crate) enum Call {
    SetUp,
    Collect,
    Allot,
    Read,
    Write,
    Survey,
}

// What a letter says.
impl From<u8> for Call {
    fn from(letter: u8) -> Call {
        match letter {
            b'n' => Call::SetUp,
            b'c' => Call::Collect,
            b'a' => Call::Allot,
            b'r' => Call::Read,
            b'w' => Call::Write,
            _ => Call::Survey,
        }
    }
}

// The number of a call's refusal, or 0.
fn code(refusal: Option<Refusal>) -> usize {
    refusal.map_or(0, Refusal::number) as usize
}

impl Station {
    // Makes a call, with the numbers of a line. A `match`, since the cases are closed; closures would be no plainer.
    pub(crate) fn call<W: Write>(
        &mut self,
        out: &mut W,
        call: Call,
        place: &[usize; 48],
    ) -> io::Result<()> {
        let [_, first, second, third, ..] = *place;
        match call {
            Call::SetUp => self.set_up(out, first),
            Call::Collect => self.collect(out, place),
            Call::Allot => self.allot(out, first, second),
            Call::Read => self.read(out, first, second),
            Call::Write => self.write(out, first, second, heaps::cut(third)),
            Call::Survey => self.survey(out),
        }
    }

    // Sets up with a keep length. Came: the code.
    fn set_up<W: Write>(&mut self, out: &mut W, keep: usize) -> io::Result<()> {
        let got = State::set_up(&self.heap, keep, &mut self.map, &mut self.list);
        self.state = got.unwrap_or_default();
        lines::gave(out, &[code(got.err())])
    }

    // Collects from the roots that a line gives: how many, up to 45, and which. Came: code and place, the counts; all that was
    // lent of the stack.
    fn collect<W: Write>(&mut self, out: &mut W, place: &[usize; 48]) -> io::Result<()> {
        let r = place[1] % 46;
        let mut roots = [0; 46];
        heaps::write(&place[2..], &mut roots);
        let got = collector::collect(
            self.state,
            &self.heap,
            &roots[..r],
            &mut self.map,
            &mut self.stack,
            &mut self.list,
        );
        let came = match got {
            Ok(found) => {
                self.state = found.state;
                [
                    0,
                    0,
                    found.objects,
                    found.live,
                    found.references,
                    found.peak,
                ]
            }
            Err(refused) => {
                let fault = refused.fault;
                self.state = refused.state;
                [code(Some(fault.refusal)), fault.place, 0, 0, 0, 0]
            }
        };
        lines::gave(out, &came)?;
        lines::buffer(out, &self.stack)
    }

    // Allots s words, the first p fields references. Came: code and address.
    fn allot<W: Write>(&mut self, out: &mut W, s: usize, p: usize) -> io::Result<()> {
        let got = store::allot(
            self.state,
            &mut self.heap,
            &mut self.map,
            &mut self.list,
            s,
            p,
        );
        let came = match got {
            Ok(made) => {
                self.state = made.state;
                [0, made.address]
            }
            Err(refused) => {
                self.state = refused.state;
                [code(Some(refused.refusal)), 0]
            }
        };
        lines::gave(out, &came)
    }

    // Reads field k of the object at a. Came: code and value.
    fn read<W: Write>(&self, out: &mut W, a: usize, k: usize) -> io::Result<()> {
        let got = store::read(self.state, &self.heap, &self.map, a, k);
        lines::gave(out, &[code(got.err()), got.unwrap_or_default() as usize])
    }

    // Stores v in field k of the object at a. Came: the code.
    fn write<W: Write>(&mut self, out: &mut W, a: usize, k: usize, v: u32) -> io::Result<()> {
        let got = store::write(self.state, &mut self.heap, &self.map, a, k, v);
        lines::gave(out, &[code(got.err())])
    }

    // Surveys. Came: the code; listed, largest, fragment.
    fn survey<W: Write>(&self, out: &mut W) -> io::Result<()> {
        let got = store::survey(self.state, &self.list);
        let figures = got.unwrap_or_default();
        lines::gave(
            out,
            &[
                code(got.err()),
                figures.listed,
                figures.largest,
                figures.fragment,
            ],
        )
    }
}
