// Heaps to collect: what stands in the heap and in the root list of a trial. The first letter of a line says which: g gives
// it word by word, r is random, o is a chain onward, b a chain back, any other a fan.
#![tactic(auto)]

mod random;
mod shapes;

ghost use Rattle.std.specs.Prelude.{◌≡◌, ◌≤◌, length};

use random::Random;
pub use random::{add, below, draw, is_time, next, up_to};
use shapes::{Shape, Way};

// A buffer as long as the longest that a trial lends, full of junk, which is 7 in every word. An array, of which programs lend parts
// as slices: a `Vec` would need an allocator handed through each program, and could fail.
pub fn junk() -> [u32; 131073]
    ensures { 131073 ≡ length result }
{
    [7; 131073]
}

// How many words of a buffer a line lends, where it asks for n: none if there are not so many. 0 is a length here like any other, and
// so no mark for a failure.
pub fn part(n: usize) -> usize
    ensures { result ≤ 131073 }
{
    if n <= 131073 { n } else { 0 }
}

// The low 32 bits of a number.
pub fn cut(n: usize) -> u32 {
    (n % 4294967296) as u32
}

// Writes numbers to the front of a buffer, as far as it goes.
pub fn write(from: &[usize], to: &mut [u32]) {
    for (word, n) in to.iter_mut().zip(from) {
        *word = cut(*n);
    }
}

// Writes words of the heap, each given by its address and its value.
fn write_words(from: &[usize], heap: &mut [u32]) {
    for pair in from.chunks_exact(2) {
        let Some(word) = heap.get_mut(pair[0]) else {
            return;
        };
        *word = cut(pair[1]);
    }
}

// The words that a line gives: the roots, then addresses and values of words.
fn given(from: &[usize], heap: &mut [u32], roots: &mut [u32]) {
    if let Some((first, behind)) = from.split_at_checked(roots.len()) {
        write(first, roots);
        write_words(behind, heap);
    }
}

// How a heap is laid.
#[derive(Clone, Copy, Debug, PartialEq, Eq)]
enum Kind {
    Given,
    Random,
    Chain(Way),
    Fan,
}

// What a letter says.
impl From<u8> for Kind {
    fn from(letter: u8) -> Kind {
        match letter {
            b'g' => Kind::Given,
            b'r' => Kind::Random,
            b'o' => Kind::Chain(Way::Onward),
            b'b' => Kind::Chain(Way::Back),
            _ => Kind::Fan,
        }
    }
}

// Lays the heap and the root list of a line. Letter and numbers come as a line has them, or as `trials` has made them up. `kind`
// stays a `u8`, since a narrower type would ask more of callers.
pub fn lay(kind: u8, place: [usize; 48], heap: &mut [u32], roots: &mut [u32]) {
    match Kind::from(kind) {
        Kind::Given => given(&place[9..], heap, roots),
        Kind::Random => {
            if let Some(random) = Random::of(&place) {
                random.lay(heap, roots);
            }
        }
        Kind::Chain(way) => roots.fill(cut(Shape::of(&place).chain(way, heap))),
        Kind::Fan => roots.fill(cut(Shape::of(&place).fan(heap))),
    }
}
