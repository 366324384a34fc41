// A collection for each line. A line gives words, keep and count of the state; the lengths of heap, map, stack, list and
// root list; and, from its ninth number on, what its heap needs.
use collector::{Collection, Refused};
use layout::State;
use lines::Line;
use std::io;
use std::io::Write;

// Prints what a collection answered: code and place, the counts; words, keep and count of the state. (`calls` lays its numbers out so
// too; a library for one `match` would be no plainer.)
fn answer<W: Write>(out: &mut W, got: Result<Collection, Refused>) -> io::Result<()> {
    let (came, state) = match got {
        Ok(found) => {
            let came = [
                0,
                0,
                found.objects,
                found.live,
                found.references,
                found.peak,
            ];
            (came, found.state)
        }
        Err(refused) => {
            let code = refused.fault.refusal.number() as usize;
            ([code, refused.fault.place, 0, 0, 0, 0], refused.state)
        }
    };
    lines::gave(out, &came)?;
    lines::numbers(out, &[state.words, state.keep, state.count], b" ")
}

// One collection, of a heap laid in clear words, in buffers full of junk that are as long as the line says. Came: the answer; then
// map, stack and list, with all that was lent of them. A line that asks for longer buffers than there are gives nothing.
pub(crate) fn trial<W: Write>(out: &mut W, line: &Line) -> io::Result<()> {
    let [_, words, keep, count, h, m, a, n, r, ..] = line.place;
    let mut heap = [0; 65537];
    let mut roots = [0; 65537];
    let (Some(heap), Some(roots)) = (heap.get_mut(..h), roots.get_mut(..r)) else {
        return Ok(());
    };
    let mut map = heaps::junk();
    let mut stack = heaps::junk();
    let mut list = heaps::junk();
    let (Some(map), Some(stack), Some(list)) = (
        map.get_mut(..m),
        stack.get_mut(..a),
        list.get_mut(..n),
    ) else {
        return Ok(());
    };
    heaps::lay(line.kind, line.place, heap, roots);
    let state = State { words, keep, count };
    let got = collector::collect(state, heap, roots, map, stack, list);
    answer(out, got)?;
    lines::buffer(out, map)?;
    lines::buffer(out, stack)?;
    lines::buffer(out, list)
}
