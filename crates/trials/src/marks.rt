// The marking of the mark-sweep. Objects that are marked are put off, and their references met later, the last one's first.
ghost use Rattle.std.specs.Prelude.{◌≤◌, length, IfSome};

use crate::sweep;
use std::alloc::{AllocError, AllocFailed, Global};

// The mark of a word: no object's, where a marked object starts, or any other word of one.
#[derive(Clone, Copy, PartialEq, Eq)]
pub(crate) enum Mark {
    Free,
    Start,
    Inner,
}

// Why marking ends before all is marked: the reference met names no word, an object that is not well-formed, or one that overlaps
// another; or there is no memory.
#[derive(Drop)]
pub(crate) enum Fault {
    Outside(usize),
    Malformed(usize),
    Overlapping(usize),
    NoMemory(AllocError),
}

// No memory for the marks.
impl From<AllocError> for Fault {
    fn from(e: AllocError) -> Fault {
        Fault::NoMemory(e)
    }
}

// No memory for an object put off.
impl<T: Drop> From<AllocFailed<T>> for Fault {
    fn from(e: AllocFailed<T>) -> Fault {
        Fault::NoMemory(AllocError::from(e))
    }
}

// What has come: a mark for each word of the heap, the objects put off, how many references were met, and the most intervals at once.
#[derive(Drop)]
pub(crate) struct Marking<'a> {
    heap: &'a [u32],
    pub(crate) keep: usize,
    pub(crate) marks: Vec<Mark>,
    later: Vec<usize>,
    pub(crate) references: usize,
    pub(crate) peak: usize,
}

// A word as a number: `words::wide` written anew on purpose, since the mark-sweep shares no code with the collector.
fn number(word: &u32) -> usize {
    *word as usize
}

impl<'a> Marking<'a> {
    // Marks all that is reached from the roots, from one before the next, up to a fault.
    pub(crate) fn of(
        alloc: Global,
        heap: &'a [u32],
        keep: usize,
        roots: &[u32],
    ) -> Result<Marking<'a>, Fault> {
        let marks = vec![in alloc; Mark::Free; heap.len()]?;
        let mut marking = Marking {
            heap,
            keep,
            peak: sweep::intervals(&marks, keep),
            marks,
            later: Vec::new(alloc),
            references: 0,
        };
        for root in roots {
            marking.meet(number(root))?;
            marking.meet_later()?;
        }
        Ok(marking)
    }

    // Where the object at w ends, which is in the heap, if its header is well-formed.
    fn end(&self, w: usize) -> Option<usize>
        ensures { IfSome result (λ end. end ≤ length self.now.heap.now) }
    {
        let header = number(self.heap.get(w)?);
        let size = header % 65536;
        let refs = header / 65536;
        let end = w.checked_add(size)?;
        let is_formed = self.keep <= size && refs < size && end <= self.heap.len();
        is_formed.then_some(end)
    }

    // Marks the words of the object at w.
    fn mark(&mut self, w: usize) -> Result<(), Fault> {
        let end = self.end(w).ok_or(Fault::Malformed(w))?;
        let Some(object) = self.marks.as_mut_slice().get_mut(w..end) else {
            return Err(Fault::Malformed(w));
        };
        if object.iter().any(|mark| *mark != Mark::Free) {
            return Err(Fault::Overlapping(w));
        }
        object.fill(Mark::Inner);
        if let Some(start) = object.first_mut() {
            *start = Mark::Start;
        }
        Ok(())
    }

    // Meets the reference w.
    fn meet(&mut self, w: usize) -> Result<(), Fault> {
        self.references = self.references.wrapping_add(1);
        if w == 0 {
            return Ok(());
        }
        match self.marks.get(w) {
            None => return Err(Fault::Outside(w)),
            Some(Mark::Start) => return Ok(()),
            Some(_) => {}
        }
        self.mark(w)?;
        self.later.push(w)?;
        self.peak = self.peak.max(sweep::intervals(&self.marks, self.keep));
        Ok(())
    }

    // Meets the references of the object at a.
    fn meet_all(&mut self, a: usize) -> Result<(), Fault> {
        let heap = self.heap;
        let Some((header, fields)) = heap.get(a..).and_then(|object| object.split_first()) else {
            return Ok(());
        };
        for field in fields.iter().take(number(header) / 65536) {
            self.meet(number(field))?;
        }
        Ok(())
    }

    // Meets the references of objects put off until there are none: no more are put off than there are words, so as many turns are
    // enough.
    fn meet_later(&mut self) -> Result<(), Fault> {
        for _ in 0..self.heap.len() {
            let Some(a) = self.later.pop() else {
                return Ok(());
            };
            self.meet_all(a)?;
        }
        Ok(())
    }
}
