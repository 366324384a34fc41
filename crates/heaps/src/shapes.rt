// Chains and fans: objects of one size, each some words behind the one before.
ghost use Rattle.std.specs.Prelude.{◌≡◌, ◌<◌, ◌≤◌};

use crate::cut;

// Where the objects of a chain refer to: each on to the next, or back to the last one.
#[derive(Clone, Copy, Debug, PartialEq, Eq)]
pub(crate) enum Way {
    Onward,
    Back,
}

// What a line says of a chain or a fan: the words of an object, how many words behind it the next one starts, and how many
// references a fan has.
#[derive(Clone, Copy)]
pub(crate) struct Shape {
    size: usize,
    stride: usize,
    refs: usize,
    ghost low: { (size < 65536) × (stride < 65536) × (refs < 65536) },
}

impl Shape {
    // The shape of a line.
    pub(crate) fn of(place: &[usize; 48]) -> Shape {
        Shape {
            size: place[9] % 65536,
            stride: place[10] % 65536,
            refs: place[11] % 65536,
        }
    }

    // The header of an object with a reference, if it has a word for one.
    fn header(self) -> u32 {
        let refs = if self.size < 2 { 0 } else { 65536 };
        cut(refs + self.size)
    }

    // Lays a chain. The address of the object that all others are reached from.
    pub(crate) fn chain(self, way: Way, heap: &mut [u32]) -> usize {
        if self.stride == 0 {
            return 0;
        }
        let last = self.link(way, heap);
        match way {
            Way::Onward => 1,
            Way::Back => last,
        }
    }

    // Lays the objects of a chain from word 1 on as far as the heap goes. The last one's address, or 0 if there is none.
    fn link(self, way: Way, heap: &mut [u32]) -> usize
        requires { 0 < self.stride }
    {
        if self.size < 2 {
            return 0;
        }
        let mut last = 0;
        for a in (1..heap.len()).step_by(self.stride) {
            if heap.len() < a + self.size {
                return last;
            }
            let next = a + self.stride;
            heap[a] = self.header();
            heap[a + 1] = match way {
                Way::Back => cut(last),
                Way::Onward if next + self.size <= heap.len() => cut(next),
                Way::Onward => 0,
            };
            last = a;
        }
        last
    }

    // Lays a fan: an object at word 1, and behind it the objects that it refers to. The address of the first.
    pub(crate) fn fan(self, heap: &mut [u32]) -> usize {
        if self.stride == 0 {
            return 0;
        }
        if heap.len() <= 1 {
            return 1;
        }
        self.spread(heap);
        heap[1] = cut(self.refs + 1 + 65536 * self.refs);
        1
    }

    // Lays the objects behind the references of a fan, and refers to them from word 2 on.
    // The addresses go on by hand: over a `zip` of both rows the proof that its words lie in the heap did not close.
    fn spread(self, heap: &mut [u32]) {
        let mut a = self.refs + 2;
        for i in 0..self.refs {
            if heap.len() <= a {
                return;
            }
            heap[2 + i] = cut(a);
            heap[a] = self.header();
            a += self.stride;
        }
    }
}
