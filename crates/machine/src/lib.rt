// The mark machine in lent words: meets one reference, makes one move, runs to its end.
#![tactic(auto)]

mod moves;
mod references;

use layout::Refusal;
pub use moves::run;

// How far a collection has come.
#[derive(Clone, Copy, Default)]
pub struct Progress {
    // roots met
    pub next: usize,
    // where the next reference of the object in hand stands, and how many it has left
    pub at: usize,
    pub left: usize,
    // objects on the stack
    pub depth: usize,
    // intervals listed
    pub count: usize,
    // the answer's counts
    pub objects: usize,
    pub live: usize,
    pub references: usize,
    pub peak: usize,
}

// The machine in lent words: what it reads, what it writes, and how far it has come.
#[derive(Drop)]
pub(crate) struct Machine<'a> {
    heap: &'a [u32],
    keep: usize,
    roots: &'a [u32],
    map: &'a mut [u32],
    stack: &'a mut [u32],
    list: &'a mut [u32],
    progress: Progress,
}

// What is wrong with a reference, and which reference it is.
#[derive(Clone, Copy)]
pub struct Fault {
    pub refusal: Refusal,
    pub place: usize,
}
