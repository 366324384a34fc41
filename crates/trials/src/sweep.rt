// The sweep of the mark-sweep. It goes over every word of the heap, and knows only the marks.
use crate::compare::{Answer, Outcome};
use crate::marks::{Fault, Mark, Marking};
use heaps::cut;
use std::alloc::{AllocError, Global};

// How many of the longest runs of words without a mark have the keep length. Word 0 is in none.
pub(crate) fn intervals(marks: &[Mark], keep: usize) -> usize {
    let Some((_, words)) = marks.split_first() else {
        return 0;
    };
    words
        .split(|mark| *mark != Mark::Free)
        .filter(|run| keep <= run.len())
        .count()
}

// These runs by address, each with its first word and how many words it has.
fn list(alloc: Global, marks: &[Mark], keep: usize) -> Result<Vec<u32>, AllocError> {
    let mut list = Vec::new(alloc);
    let Some((_, words)) = marks.split_first() else {
        return Ok(list);
    };
    let mut start = 1usize;
    for run in words.split(|mark| *mark != Mark::Free) {
        if keep <= run.len() {
            list.push(cut(start))?;
            list.push(cut(run.len()))?;
        }
        start = start.wrapping_add(run.len()).wrapping_add(1);
    }
    Ok(list)
}

// A word of the map: a bit for each of 32 marks, that of the lowest address the lowest bit.
fn bits(marks: &[Mark]) -> u32 {
    marks.iter().rev().fold(0, |word, mark| {
        word % 2147483648 * 2 + u32::from(*mark == Mark::Start)
    })
}

// What a collection is to answer that is done, and to leave in map and list.
fn done(alloc: Global, marking: &Marking) -> Result<Outcome, AllocError> {
    let marks = marking.marks.as_slice();
    let list = list(alloc, marks, marking.keep)?;
    let answer = Answer {
        objects: marks.iter().filter(|mark| **mark == Mark::Start).count(),
        live: marks.iter().filter(|mark| **mark != Mark::Free).count(),
        references: marking.references,
        peak: marking.peak,
        words: marks.len(),
        keep: marking.keep,
        count: list.len() / 2,
        ..Answer::default()
    };
    Ok(Outcome {
        answer,
        map: marks.chunks(32).map(|part| bits(part)).collect(alloc)?,
        stack: Vec::new(alloc),
        list,
    })
}

// What a collection is to answer and to leave.
pub(crate) fn swept(
    alloc: Global,
    heap: &[u32],
    keep: usize,
    roots: &[u32],
) -> Result<Outcome, AllocError> {
    let (code, place) = match Marking::of(alloc, heap, keep, roots) {
        Ok(marking) => return done(alloc, &marking),
        Err(Fault::Outside(w)) => (4, w),
        Err(Fault::Malformed(w)) => (5, w),
        Err(Fault::Overlapping(w)) => (6, w),
        Err(Fault::NoMemory(e)) => return Err(e),
    };
    Ok(Outcome {
        answer: Answer {
            code,
            place,
            words: heap.len(),
            keep,
            ..Answer::default()
        },
        map: Vec::new(alloc),
        stack: Vec::new(alloc),
        list: Vec::new(alloc),
    })
}
