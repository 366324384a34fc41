// What can differ between what a collection left and what is due.
use crate::compare::{Outcome, Trial};
use crate::images::Image;
use heaps::add;
use std::alloc::Global;
use std::io;
use std::io::Write;

// What differs first has the number that is printed: of the answer, of the state, or of map, stack and list.
#[derive(Clone, Copy, Debug, PartialEq, Eq)]
pub(crate) enum Difference {
    Code = 1,
    Place = 2,
    Objects = 3,
    Live = 4,
    References = 5,
    Peak = 6,
    Words = 7,
    Keep = 8,
    Count = 9,
    Map = 10,
    Stack = 11,
    List = 12,
}

// Adds 1 to the first word, if there is one.
fn raise_first(words: &mut [u32]) {
    if let Some(word) = words.first_mut() {
        *word = word.wrapping_add(1);
    }
}

impl Difference {
    // All of them, in the order in which they are looked for.
    const ALL: [Difference; 12] = [
        Difference::Code,
        Difference::Place,
        Difference::Objects,
        Difference::Live,
        Difference::References,
        Difference::Peak,
        Difference::Words,
        Difference::Keep,
        Difference::Count,
        Difference::Map,
        Difference::Stack,
        Difference::List,
    ];

    // The first difference, if there is one.
    pub(crate) fn first(came: &Outcome, due: &Outcome) -> Option<Difference> {
        Difference::ALL
            .iter()
            .copied()
            .find(|which| which.is_there(came, due))
    }

    // Whether this differs.
    fn is_there(self, came: &Outcome, due: &Outcome) -> bool {
        let a = &came.answer;
        let b = &due.answer;
        match self {
            Difference::Code => a.code != b.code,
            Difference::Place => a.place != b.place,
            Difference::Objects => a.objects != b.objects,
            Difference::Live => a.live != b.live,
            Difference::References => a.references != b.references,
            Difference::Peak => a.peak != b.peak,
            Difference::Words => a.words != b.words,
            Difference::Keep => a.keep != b.keep,
            Difference::Count => a.count != b.count,
            Difference::Map => came.map != due.map,
            Difference::Stack => came.stack != due.stack,
            Difference::List => came.list != due.list,
        }
    }

    // Changes what came in this.
    pub(crate) fn make(self, came: &mut Outcome) {
        let answer = &mut came.answer;
        match self {
            Difference::Code => add(&mut answer.code, 1),
            Difference::Place => add(&mut answer.place, 1),
            Difference::Objects => add(&mut answer.objects, 1),
            Difference::Live => add(&mut answer.live, 1),
            Difference::References => add(&mut answer.references, 1),
            Difference::Peak => add(&mut answer.peak, 1),
            Difference::Words => add(&mut answer.words, 1),
            Difference::Keep => add(&mut answer.keep, 1),
            Difference::Count => add(&mut answer.count, 1),
            Difference::Map => raise_first(&mut came.map),
            Difference::Stack => raise_first(&mut came.stack),
            Difference::List => raise_first(&mut came.list),
        }
    }
}

// Shows that each comparison can fail: prints what differs in a sound image for each change to what came, one at a time.
pub(crate) fn show<W: Write>(out: &mut W, alloc: Global) -> io::Result<()> {
    out.write_all(b"changed gave")?;
    for change in &Difference::ALL {
        let trial = Trial::run(alloc, &Image::chain(), Some(*change))?;
        let number = trial.differs.map_or(0, |which| which as usize);
        lines::numbers(out, &[number], b" ")?;
    }
    lines::end(out)
}
