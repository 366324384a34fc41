// The groups of images, a line of what came for each.
use crate::book::Book;
use crate::compare::Trial;
use crate::images::Image;
use std::alloc::Global;
use std::io;
use std::io::Write;

// The kinds of images: random, chains onward and back, fans.
#[derive(Clone, Copy, PartialEq, Eq)]
pub(crate) enum Kind {
    Random,
    Onward,
    Back,
    Fan,
}

// The letter of a kind, which `heaps::lay` takes.
impl From<Kind> for u8 {
    fn from(kind: Kind) -> u8 {
        match kind {
            Kind::Random => b'r',
            Kind::Onward => b'o',
            Kind::Back => b'b',
            Kind::Fan => b'f',
        }
    }
}

// A group of images: their kind; the most words, the greatest keep length, the most roots, and the most words of the heap that are
// overwritten. Of random images it has how seldom there are inner references, outside references, damaged headers and overlaps, one
// time in so many and never for 0; of others the most words between objects.
#[derive(Clone, Copy)]
pub(crate) struct Group {
    pub(crate) kind: Kind,
    pub(crate) words: usize,
    pub(crate) keep: usize,
    pub(crate) roots: usize,
    pub(crate) overwritten: usize,
    pub(crate) seldom: [usize; 4],
    pub(crate) between: usize,
}

// The kind and the numbers of each group, as they are printed.
pub(crate) const GROUPS: [(Kind, [usize; 8]); 17] = [
    (Kind::Random, [300, 2, 15, 0, 0, 0, 0, 0]),
    (Kind::Random, [300, 5, 15, 0, 0, 0, 0, 0]),
    (Kind::Random, [300, 12, 12, 0, 0, 0, 0, 0]),
    (Kind::Random, [300, 40, 12, 0, 0, 0, 0, 0]),
    (Kind::Random, [300, 6, 8, 0, 80, 0, 0, 0]),
    (Kind::Random, [300, 6, 8, 0, 0, 80, 0, 0]),
    (Kind::Random, [300, 6, 8, 0, 0, 0, 30, 0]),
    (Kind::Random, [300, 6, 8, 0, 0, 0, 0, 12]),
    (Kind::Random, [200, 10, 8, 3, 200, 200, 60, 20]),
    (Kind::Random, [12, 2, 4, 4, 10, 10, 0, 3]),
    (Kind::Random, [3, 4, 4, 3, 0, 8, 0, 0]),
    (Kind::Onward, [8, 3, 3, 12, 0, 0, 0, 0]),
    (Kind::Onward, [300, 10, 2, 0, 0, 0, 0, 0]),
    (Kind::Onward, [300, 10, 3, 4, 9, 0, 0, 0]),
    (Kind::Back, [300, 10, 2, 0, 0, 0, 0, 0]),
    (Kind::Back, [300, 10, 3, 4, 9, 0, 0, 0]),
    (Kind::Fan, [300, 8, 2, 2, 4, 0, 0, 0]),
];

// What the kind and the numbers of a group say.
impl From<(Kind, [usize; 8])> for Group {
    fn from(of: (Kind, [usize; 8])) -> Group {
        let (kind, [words, keep, roots, overwritten, a, b, c, d]) = of;
        Group {
            kind,
            words,
            keep,
            roots,
            overwritten,
            seldom: [a, b, c, d],
            between: a,
        }
    }
}

// Tries the images of a group, and prints the line of the group: its letter, its numbers, and the book.
pub(crate) fn run<W: Write>(
    out: &mut W,
    alloc: Global,
    group: &(Kind, [usize; 8]),
    row: &mut usize,
) -> io::Result<()> {
    let of = Group::from(*group);
    let mut book = Book::default();
    // the number of an image is printed with what differs in it
    for i in 0..500 {
        let image = Image::draw(row, &of);
        let trial = Trial::run(alloc, &image, None)?;
        book.note(&trial.answer);
        if let Some(which) = trial.differs {
            book.differ(out, i, which)?;
        }
    }
    let (kind, numbers) = *group;
    out.write_all(&[u8::from(kind)])?;
    lines::numbers(out, &numbers, b" ")?;
    book.print(out)?;
    lines::end(out)
}
