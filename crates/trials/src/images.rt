// The images.
ghost use Rattle.std.specs.Prelude.{◌≤◌};

use crate::groups::{Group, Kind};
use heaps::{below, cut, draw, next, up_to};
use layout::Rooms;

// An image: its words and keep length, a count that a collection ignores, junk, how many words of map, stack and list are needed, and
// how many are lent; how many roots there are; what `heaps` is told; how many words are overwritten, and a seed for that.
#[derive(Clone, Copy)]
pub(crate) struct Image {
    kind: Kind,
    pub(crate) words: usize,
    pub(crate) keep: usize,
    pub(crate) count: usize,
    pub(crate) junk: u32,
    pub(crate) needed: Rooms,
    pub(crate) lent: Rooms,
    pub(crate) roots: usize,
    told: [usize; 5],
    overwritten: usize,
    seed: usize,
}

// Passes over so many numbers of the row: a count, with nothing to index.
fn skip(row: &mut usize, n: usize) {
    for _ in 0..n {
        draw(row);
    }
}

// A number from 1 to n, which is below 320, that goes by x.
fn from_one(x: usize, n: usize) -> usize
    ensures { (1 ≤ result) × (result ≤ 320) }
{
    if n % 320 == 0 {
        1
    } else {
        1 + below(x, n % 320)
    }
}

// A seed at another point of the row than x, so that what is drawn from it is not drawn for an image too: x with its halves swapped.
fn apart(x: usize) -> usize {
    x % 32768 * 65536 + x / 32768
}

// How many words of map, stack and list a heap needs.
fn needed(words: usize, keep: usize) -> Rooms
    requires { (1 ≤ words) × (words ≤ 320) × (1 ≤ keep) }
{
    let stack = heaps::part((words - 1) / keep);
    Rooms {
        map: (words + 31) / 32,
        stack,
        list: 2 * stack,
    }
}

// How many words of a buffer are lent, where so many are needed: up to three more, by a number drawn.
fn lent(needed: usize, draw: usize) -> usize
    ensures { result ≤ 640 }
{
    if needed <= 637 {
        needed + below(draw, 4)
    } else {
        0
    }
}

// What `heaps` is told: of a random heap a seed, and how seldom there is damage of each kind; of any other the words of an object, how
// far behind it the next one starts, one time in eight a word nearer, and the references of a fan.
fn told(row: &mut usize, group: &Group, keep: usize) -> [usize; 5]
    requires { (1 ≤ keep) × (keep ≤ 320) }
{
    let [a, b, c, d, _] = [draw(row), draw(row), draw(row), draw(row), draw(row)];
    if group.kind == Kind::Random {
        let [inner, outside, damaged, overlaps] = group.seldom;
        return [apart(a), inner, outside, damaged, overlaps];
    }
    let size = keep + below(a, 6);
    let stride = size + up_to::<16>(b, group.between) - below(d, 8) / 7;
    [size, stride, keep + below(c, 20), 0, 0]
}

impl Image {
    // The next image of a group, for which 48 numbers of the row are drawn.
    pub(crate) fn draw(row: &mut usize, group: &Group) -> Image {
        skip(row, 1);
        let words = from_one(draw(row), group.words);
        let keep = from_one(draw(row), group.keep);
        let count = draw(row);
        let junk = cut(draw(row));
        skip(row, 3);
        let roots = up_to::<16>(draw(row), group.roots);
        let told = told(row, group, keep);
        let overwritten = up_to::<16>(draw(row), group.overwritten);
        let seed = apart(draw(row));
        let needed = needed(words, keep);
        let lent = Rooms {
            map: lent(needed.map, draw(row)),
            stack: lent(needed.stack, draw(row)),
            list: lent(needed.list, draw(row)),
        };
        skip(row, 29);
        Image {
            kind: group.kind,
            words,
            keep,
            count,
            junk,
            needed,
            lent,
            roots,
            told,
            overwritten,
            seed,
        }
    }

    // A chain of four objects of 4 words with 6 free words behind each: a sound image.
    pub(crate) fn chain() -> Image {
        Image {
            kind: Kind::Onward,
            words: 41,
            keep: 3,
            count: 0,
            junk: 7,
            needed: needed(41, 3),
            lent: needed(41, 3),
            roots: 1,
            told: [4, 10, 0, 0, 0],
            overwritten: 0,
            seed: 0,
        }
    }

    // Lays the heap and the root list, and overwrites words of the heap.
    pub(crate) fn lay(&self, heap: &mut [u32], roots: &mut [u32]) {
        let mut place = [0; 48];
        place[1] = self.words;
        place[2] = self.keep;
        place[9..14].copy_from_slice(&self.told);
        heaps::lay(u8::from(self.kind), place, heap, roots);
        overwrite(heap, self.overwritten, self.seed);
    }
}

// Overwrites n words of the heap, chosen at random, with an address or one just past the heap, or a header. The loop counts draws, and
// nothing is indexed by its count.
fn overwrite(heap: &mut [u32], n: usize, seed: usize) {
    if heap.is_empty() {
        return;
    }
    let mut row = seed;
    for _ in 0..n {
        let a = below(draw(&mut row), heap.len());
        let x = draw(&mut row);
        heap[a] = cut(below(next(x), 3) * 65536 + below(x, heap.len() % 1024 + 3));
    }
}
