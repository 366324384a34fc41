// Histories of calls. A line lends where its letter is b, and where it is the first: as many words of heap, map, stack and list as
// it says, all junk. The lines behind it are run on these and on one state: h, m and l write words of heap, map and list, g gives
// the state, any other letter is a call.
use crate::each::Call;
use layout::State;
use lines::Line;
use std::alloc::{AllocError, Global};
use std::io;
use std::io::Write;

// What a history is run on: the state held, and what is lent.
#[derive(Drop)]
pub(crate) struct Station {
    pub(crate) state: State,
    pub(crate) heap: Vec<u32>,
    pub(crate) map: Vec<u32>,
    pub(crate) stack: Vec<u32>,
    pub(crate) list: Vec<u32>,
}

// What a line behind the line that lends asks for.
#[derive(Clone, Copy, Debug, PartialEq, Eq)]
enum Turn {
    Heap,
    Map,
    List,
    State,
    Call(Call),
}

// What a letter says.
impl From<u8> for Turn {
    fn from(letter: u8) -> Turn {
        match letter {
            b'h' => Turn::Heap,
            b'm' => Turn::Map,
            b'l' => Turn::List,
            b'g' => Turn::State,
            _ => Turn::Call(Call::from(letter)),
        }
    }
}

// A buffer full of junk, as long as a line says.
fn junk(alloc: Global, n: usize) -> Result<Vec<u32>, AllocError> {
    vec![in alloc; 7; heaps::part(n)]
}

// Writes the words that a line gives to a buffer: from which on, how many, and which.
fn put(place: &[usize; 48], buffer: &mut [u32]) {
    let [_, at, n, ..] = *place;
    if let (Some(words), Some(part)) = (place[3..].get(..n), buffer.get_mut(at..)) {
        heaps::write(words, part);
    }
}

impl Station {
    // What a line lends, with a state of zeros.
    fn lend(alloc: Global, line: &Line) -> Result<Station, AllocError> {
        let [_, heap, map, stack, list, ..] = line.place;
        Ok(Station {
            state: State::default(),
            heap: junk(alloc, heap)?,
            map: junk(alloc, map)?,
            stack: junk(alloc, stack)?,
            list: junk(alloc, list)?,
        })
    }

    // One line behind the line that lends.
    fn turn<W: Write>(&mut self, out: &mut W, line: &Line) -> io::Result<()> {
        let [_, words, keep, count, ..] = line.place;
        match Turn::from(line.kind) {
            Turn::Heap => put(&line.place, &mut self.heap),
            Turn::Map => put(&line.place, &mut self.map),
            Turn::List => put(&line.place, &mut self.list),
            Turn::State => self.state = State { words, keep, count },
            Turn::Call(call) => {
                self.call(out, call, &line.place)?;
                self.show(out)?;
            }
        }
        Ok(())
    }

    // Prints the state held, and heap, map and list, with all that was lent of them.
    fn show<W: Write>(&self, out: &mut W) -> io::Result<()> {
        let state = self.state;
        lines::numbers(out, &[state.words, state.keep, state.count], b" ")?;
        lines::buffer(out, &self.heap)?;
        lines::buffer(out, &self.map)?;
        lines::buffer(out, &self.list)
    }
}

// One line, and what came of it: it lends, or is run on what is lent.
pub(crate) fn run<W: Write>(
    alloc: Global,
    out: &mut W,
    lent: &mut Option<Station>,
    line: &Line,
) -> io::Result<()> {
    match lent {
        Some(station) if line.kind != b'b' => station.turn(out, line),
        _ => {
            // What was lent before goes back first.
            *lent = None;
            *lent = Some(Station::lend(alloc, line)?);
            Ok(())
        }
    }
}
