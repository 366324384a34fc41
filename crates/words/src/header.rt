// Headers of objects.
ghost use Rattle.std.specs.Prelude.{◌≡◌, ◌<◌, length};
ghost use Rattle.words.specs.Header.{header_at, header_word, well_formed};

// The parts of an object's header: its size, header included, and how many references it has.
#[derive(Clone, Copy)]
pub struct Header {
    pub size: usize,
    pub refs: usize,
}

impl Header {
    // The header at a.
    pub fn at(heap: &[u32], a: usize) -> Header
        requires { a < length heap.now }
        ensures { result ≡ header_at heap.now a }
    {
        let word = heap[a];
        let size = (word % 65536) as usize;
        let refs = (word / 65536) as usize;
        Header { size, refs }
    }

    // The word of a header. (Not by `From`, since it asks that both numbers fit.)
    pub fn word(size: usize, refs: usize) -> u32
        requires { (size < 65536) × (refs < 65536) }
        ensures { result ≡ header_word size refs }
    {
        (refs * 65536 + size) as u32
    }

    // Whether the object at a is well-formed.
    pub fn is_formed(heap: &[u32], keep: usize, a: usize) -> bool
        requires { a < length heap.now }
        ensures { result ≡ well_formed heap.now keep a }
    {
        let header = Header::at(heap, a);
        let size = header.size;
        (keep <= size) & (header.refs < size) & (a + size <= heap.len())
    }
}
