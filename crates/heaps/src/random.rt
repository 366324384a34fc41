// Random heaps, sound and damaged. A line gives a seed, and how seldom there is damage of each kind, one time in so many
// and never for 0: references to inner words, references to the outside, damaged headers, overlapping objects.
ghost use Rattle.std.specs.Prelude.{◌≡◌, ◌+◌, ◌%◌, ◌^◌, ◌<◌, ◌≤◌, length};

use crate::cut;

// The number after x in a row of pseudo-random ones.
pub fn next(x: usize) -> usize {
    (x % 2147483648 * 1103515245 + 12345) % 2147483648
}

// The next number in such a row, which goes on to it.
pub fn draw(row: &mut usize) -> usize
    ensures { result ≡ row.new }
{
    *row = next(*row);
    *row
}

// Adds to a number, which begins anew at 2 ^ 64.
pub fn add(to: &mut usize, n: usize)
    ensures { to.new ≡ (to.old + n) % 2 ^ 64 }
{
    *to = to.wrapping_add(n);
}

// A number below n that goes by x.
pub fn below(x: usize, n: usize) -> usize
    requires { 1 ≤ n }
    ensures { result < n }
{
    x / 256 % n
}

// A number from 0 to n, which is below MOST, that goes by x.
pub fn up_to<const MOST: usize>(x: usize, n: usize) -> usize
    requires { 1 ≤ MOST }
    ensures { (result ≤ n) × (result < MOST) }
{
    below(x, n % MOST + 1)
}

// Whether this is the one time in n.
pub fn is_time(x: usize, n: usize) -> bool {
    (n != 0) && below(x, n) == 0
}

// What a line says of a random heap: the keep length, the seed, and how seldom there are inner references, outside ones, damaged
// headers and overlaps.
#[derive(Clone, Copy)]
pub(crate) struct Random {
    keep: usize,
    seed: usize,
    inner: usize,
    outside: usize,
    bad: usize,
    overlap: usize,
    ghost keeps: { (1 ≤ keep) × (keep ≤ 65535) },
}

impl Random {
    // The random heap of a line, if its keep length is within the limits.
    pub(crate) fn of(place: &[usize; 48]) -> Option<Random> {
        let keep = place[2];
        if (keep == 0) | (65535 < keep) {
            return None;
        }
        Some(Random {
            keep,
            seed: place[9],
            inner: place[10],
            outside: place[11],
            bad: place[12],
            overlap: place[13],
        })
    }

    // Lays the heap, and writes the root list. The array is fixed since `heaps::lay` is lent no allocator; what is handed on is the
    // slice of the starts noted.
    pub(crate) fn lay(&self, heap: &mut [u32], roots: &mut [u32]) {
        let mut starts = [0; 8192];
        let n = self.objects(heap, &mut starts);
        let words = heap.len();
        self.fill(heap, &starts[..n], words, self.seed);
        self.fill(roots, &starts[..n], words, next(self.seed));
    }

    // Lays objects from word 1 on, notes where each starts, and answers how many there are.
    fn objects(&self, heap: &mut [u32], starts: &mut [u32]) -> usize
        ensures { result ≤ length starts.old }
    {
        let mut x = self.seed;
        let mut a = 1;
        for (i, start) in starts.iter_mut().enumerate() {
            x = next(x);
            a += self.gap(x);
            x = next(x);
            let s = self.keep + below(x, 5);
            if heap.len() < a + s {
                return i;
            }
            x = next(x);
            heap[a] = self.header(heap.len(), s, x);
            *start = cut(a);
            a += self.stride(s, next(x));
        }
        starts.len()
    }

    // How many words are left free before an object: none half of the time.
    fn gap(&self, x: usize) -> usize
        ensures { result ≤ 131070 }
    {
        if is_time(x, 2) {
            return 0;
        }
        below(next(x), 2 * self.keep + 1)
    }

    // The header of an object of s words or, one time in `bad`, a damaged one.
    fn header(&self, words: usize, s: usize, x: usize) -> u32
        requires { (1 ≤ s) × (s ≤ 65539) }
    {
        let y = next(x);
        if is_time(y, self.bad) {
            return self.damaged(words, next(y));
        }
        cut(below(x, s) * 65536 + s)
    }

    // A damaged header: with no size, one below the keep length, as many references as words, or an end past the heap.
    fn damaged(&self, words: usize, x: usize) -> u32 {
        match below(x, 4) {
            0 => 65536,
            1 => cut(self.keep - 1),
            2 => cut(self.keep * 65537),
            _ => cut(words),
        }
    }

    // How far behind an object the next one may start: an overlap is one word long.
    fn stride(&self, s: usize, x: usize) -> usize
        requires { 1 ≤ s }
        ensures { result ≤ s }
    {
        if is_time(x, self.overlap) { s - 1 } else { s }
    }

    // Writes a reference to each word that is 0.
    fn fill(&self, to: &mut [u32], starts: &[u32], words: usize, seed: usize) {
        let mut x = seed;
        for word in to.iter_mut() {
            x = next(x);
            if *word == 0 {
                *word = self.reference(starts, words, x);
            }
        }
    }

    // A reference: one time in eight to nothing, else to an object or, seldom, to the outside or to an object's second word.
    fn reference(&self, starts: &[u32], words: usize, x: usize) -> u32 {
        if is_time(x, 8) {
            return 0;
        }
        let y = next(x);
        let z = next(y);
        if is_time(y, self.outside) {
            return cut(words.wrapping_add(below(z, 3)));
        }
        if starts.is_empty() {
            return 0;
        }
        let start = starts[below(z, starts.len())];
        if is_time(next(z), self.inner) {
            return start.wrapping_add(1);
        }
        start
    }
}
