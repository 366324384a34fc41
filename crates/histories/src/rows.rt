// A history for each line.
ghost use Rattle.std.specs.Prelude.{◌≤◌};

use crate::player::Player;
use layout::Rooms;
use lines::Line;
use std::io;
use std::io::Write;

// What a line gives: the words of the heap, the keep length, how many words more than needed are lent of map, stack and list, the
// seed, how many turns there are, and in how many turns there is one of loss.
#[derive(Clone, Copy)]
struct Plan {
    words: usize,
    keep: usize,
    more: Rooms,
    seed: usize,
    turns: usize,
    seldom: usize,
}

// What the places of a line say.
impl From<[usize; 48]> for Plan {
    fn from(place: [usize; 48]) -> Plan {
        let [_, words, keep, map, stack, list, seed, turns, seldom, ..] = place;
        Plan {
            words,
            keep,
            more: Rooms { map, stack, list },
            seed,
            turns: turns % 1000000,
            seldom,
        }
    }
}

// How many words of a buffer are lent, where so many are needed and so many more are asked for.
fn lent(needed: usize, more: usize) -> usize
    ensures { result ≤ 131073 }
{
    heaps::part(needed.wrapping_add(more))
}

// A history in parts of buffers full of junk, set up once: prints the book, and sums over all words lent of heap, map, stack and list.
pub(crate) fn history<W: Write>(out: &mut W, line: &Line) -> io::Result<()> {
    let plan = Plan::from(line.place);
    let words = heaps::part(plan.words);
    let rooms = Rooms::of(words, plan.keep);
    let more = plan.more;
    let mut heap = heaps::junk();
    let mut map = heaps::junk();
    let mut stack = heaps::junk();
    let mut list = heaps::junk();
    let mut player = Player::new(
        &mut heap[..words],
        &mut map[..lent(rooms.map, more.map)],
        &mut stack[..lent(rooms.stack, more.stack)],
        &mut list[..lent(rooms.list, more.list)],
    );
    player.set_up(plan.keep);
    player.play(plan.turns, plan.seed, plan.seldom);
    player.book.print(out)?;
    lines::numbers(out, &player.sums(), b" ")
}
