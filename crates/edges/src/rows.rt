// The lines: the first letter of each says what it tries. r asks for room figures, s for a set-up, any other is for the list.
use crate::buffer;
use crate::lists::{Ask, Trial};
use layout::{Refusal, Rooms, State};
use lines::Line;
use std::io;
use std::io::Write;

// What a line tries.
#[derive(Clone, Copy, Debug, PartialEq, Eq)]
enum Kind {
    Rooms,
    SetUp,
    List(Ask),
}

// What a letter says.
impl From<u8> for Kind {
    fn from(letter: u8) -> Kind {
        match letter {
            b'r' => Kind::Rooms,
            b's' => Kind::SetUp,
            _ => Kind::List(Ask::from(letter)),
        }
    }
}

// Room figures. Given: words, keep. Came: the words needed of map, stack and list.
fn rooms<W: Write>(out: &mut W, place: &[usize; 48]) -> io::Result<()> {
    let [_, words, keep, ..] = *place;
    let rooms = Rooms::of(words, keep);
    lines::gave(out, &[rooms.map, rooms.stack, rooms.list])
}

// What set-up answered: its code; words, keep and count of the state.
fn answer<W: Write>(out: &mut W, got: Result<State, Refusal>) -> io::Result<()> {
    let code = got.err().map_or(0, Refusal::number) as usize;
    let state = got.unwrap_or_default();
    lines::gave(out, &[code, state.words, state.keep, state.count])
}

// How much of a buffer was written over, as a number: 999999 if it is neither what set-up writes nor junk.
fn over(words: &[u32], laid: [u32; 2]) -> usize {
    buffer::written_over(words, laid).unwrap_or(999999)
}

// Set-up in buffers full of junk. Given: the words of the heap, keep, the words of map and list. Came: the answer; how many words
// of map and of list were written over. A line that asks for longer buffers than there are gives nothing.
fn set_up<W: Write>(out: &mut W, place: &[usize; 48]) -> io::Result<()> {
    let [_, h, keep, m, n, ..] = *place;
    let heap = heaps::junk();
    let mut map = heaps::junk();
    let mut list = heaps::junk();
    let (Some(heap), Some(map), Some(list)) = (heap.get(..h), map.get_mut(..m), list.get_mut(..n))
    else {
        return Ok(());
    };
    answer(out, State::set_up(heap, keep, map, list))?;
    let all = heaps::cut(h.wrapping_sub(1) % 65536);
    lines::numbers(out, &[over(map, [0, 0]), over(list, [1, all])], b" ")
}

// One trial. A `match`, since the cases are closed; closures would be no plainer.
pub(crate) fn trial<W: Write>(out: &mut W, line: &Line) -> io::Result<()> {
    match Kind::from(line.kind) {
        Kind::Rooms => rooms(out, &line.place),
        Kind::SetUp => set_up(out, &line.place),
        Kind::List(ask) => Trial::of(ask, &line.place).run(out, &line.place),
    }
}
