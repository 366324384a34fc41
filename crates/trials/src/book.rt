// The book of a group.
use crate::compare::Answer;
use crate::difference::Difference;
use heaps::add;
use std::io;
use std::io::Write;

// The numbers of the book, in the order in which they are printed: images; those that gave 0, 4, 5, 6 and any other number; sums of
// objects, live words, references and peaks; the greatest peak; and images that differ.
#[derive(Clone, Copy, Default)]
pub(crate) struct Book {
    images: usize,
    sound: usize,
    outside: usize,
    malformed: usize,
    overlapping: usize,
    others: usize,
    objects: usize,
    live: usize,
    references: usize,
    peaks: usize,
    peak: usize,
    differing: usize,
}

impl Book {
    // Counts an image by the number that its collection gave.
    fn count(&mut self, code: usize) {
        add(&mut self.images, 1);
        let counted = match code {
            0 => &mut self.sound,
            4 => &mut self.outside,
            5 => &mut self.malformed,
            6 => &mut self.overlapping,
            _ => &mut self.others,
        };
        add(counted, 1);
    }

    // Notes what a collection answered.
    pub(crate) fn note(&mut self, answer: &Answer) {
        self.count(answer.code);
        add(&mut self.objects, answer.objects);
        add(&mut self.live, answer.live);
        add(&mut self.references, answer.references);
        add(&mut self.peaks, answer.peak);
        self.peak = self.peak.max(answer.peak);
    }

    // Notes what differs in an image, and prints it if it is the first that differs.
    pub(crate) fn differ<W: Write>(
        &mut self,
        out: &mut W,
        image: usize,
        which: Difference,
    ) -> io::Result<()> {
        add(&mut self.differing, 1);
        if self.differing == 1 {
            lines::numbers(out, &[image], b"image ")?;
            lines::numbers(out, &[which as usize], b" differs in ")?;
            lines::end(out)?;
        }
        Ok(())
    }

    // Prints " gave" and all numbers of the book.
    pub(crate) fn print<W: Write>(&self, out: &mut W) -> io::Result<()> {
        let numbers = [
            self.images,
            self.sound,
            self.outside,
            self.malformed,
            self.overlapping,
            self.others,
            self.objects,
            self.live,
            self.references,
            self.peaks,
            self.peak,
            self.differing,
        ];
        lines::gave(out, &numbers)
    }
}
