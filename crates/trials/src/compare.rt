// A collection compared with the mark-sweep.
use crate::difference::Difference;
use crate::images::Image;
use crate::sweep;
use collector::{Collection, Refused};
use layout::State;
use std::alloc::{AllocError, Global};

// The numbers of an answer, the state's among them, for the mark-sweep's are compared with them one by one.
#[derive(Clone, Copy, Default)]
pub(crate) struct Answer {
    pub(crate) code: usize,
    pub(crate) place: usize,
    pub(crate) objects: usize,
    pub(crate) live: usize,
    pub(crate) references: usize,
    pub(crate) peak: usize,
    pub(crate) words: usize,
    pub(crate) keep: usize,
    pub(crate) count: usize,
}

// What a collection answers, and what it leaves in the words lent of map, stack and list.
#[derive(Drop)]
pub(crate) struct Outcome {
    pub(crate) answer: Answer,
    pub(crate) map: Vec<u32>,
    pub(crate) stack: Vec<u32>,
    pub(crate) list: Vec<u32>,
}

// What a collection answered, and what differs first from what is due, if anything does.
#[derive(Clone, Copy)]
pub(crate) struct Trial {
    pub(crate) answer: Answer,
    pub(crate) differs: Option<Difference>,
}

impl Answer {
    // The numbers of a state, and no others.
    fn of(state: State) -> Answer {
        Answer {
            words: state.words,
            keep: state.keep,
            count: state.count,
            ..Answer::default()
        }
    }
}

// The numbers that a collection answered.
impl From<Result<Collection, Refused>> for Answer {
    fn from(got: Result<Collection, Refused>) -> Answer {
        match got {
            Ok(found) => Answer {
                objects: found.objects,
                live: found.live,
                references: found.references,
                peak: found.peak,
                ..Answer::of(found.state)
            },
            Err(refused) => Answer {
                code: refused.fault.refusal.number() as usize,
                place: refused.fault.place,
                ..Answer::of(refused.state)
            },
        }
    }
}

// Collects in buffers full of junk, of which up to three words more than needed are lent.
fn collected(
    alloc: Global,
    image: &Image,
    heap: &[u32],
    roots: &[u32],
) -> Result<Outcome, AllocError> {
    let state = State {
        words: image.words,
        keep: image.keep,
        count: image.count,
    };
    let lent = image.lent;
    let mut map = vec![in alloc; image.junk; lent.map]?;
    let mut stack = vec![in alloc; image.junk; lent.stack]?;
    let mut list = vec![in alloc; image.junk; lent.list]?;
    let got = collector::collect(state, heap, roots, &mut map, &mut stack, &mut list);
    Ok(Outcome {
        answer: Answer::from(got),
        map,
        stack,
        list,
    })
}

// What is due, with 0 behind the words that are written up to those needed, and junk behind these.
fn due(alloc: Global, image: &Image, heap: &[u32], roots: &[u32]) -> Result<Outcome, AllocError> {
    let mut due = sweep::swept(alloc, heap, image.keep, roots)?;
    let needed = image.needed;
    let lent = image.lent;
    due.map.resize(needed.map, 0)?;
    due.stack.resize(needed.stack, 0)?;
    due.list.resize(needed.list, 0)?;
    due.map.resize(lent.map, image.junk)?;
    due.stack.resize(lent.stack, image.junk)?;
    due.list.resize(lent.list, image.junk)?;
    Ok(due)
}

impl Trial {
    // Lays an image, collects, changes what came if it is to be changed, and compares it with what is due.
    pub(crate) fn run(
        alloc: Global,
        image: &Image,
        change: Option<Difference>,
    ) -> Result<Trial, AllocError> {
        let mut heap = vec![in alloc; 0; image.words]?;
        let mut roots = vec![in alloc; 0; image.roots]?;
        image.lay(&mut heap, &mut roots);
        let mut came = collected(alloc, image, &heap, &roots)?;
        let answer = came.answer;
        if let Some(change) = change {
            change.make(&mut came);
        }
        let due = due(alloc, image, &heap, &roots)?;
        Ok(Trial {
            answer,
            differs: Difference::first(&came, &due),
        })
    }
}
