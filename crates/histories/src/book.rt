// The book of a history: how often each call gave each number, sums over all collections, and a digest of every answer.
use collector::Collection;
use heaps::add;
use layout::Refusal;
use std::io;
use std::io::Write;

// The calls. (A type beside that of `calls`, which stands for letters.)
#[derive(Clone, Copy)]
pub(crate) enum Call {
    SetUp,
    Allot,
    Read,
    Write,
    Collect,
    Survey,
}

// What a collection that is done has found.
#[derive(Clone, Copy, Default)]
pub(crate) struct Finds {
    pub(crate) objects: usize,
    pub(crate) live: usize,
    pub(crate) references: usize,
    pub(crate) peak: usize,
}

impl From<Collection> for Finds {
    fn from(found: Collection) -> Finds {
        Finds {
            objects: found.objects,
            live: found.live,
            references: found.references,
            peak: found.peak,
        }
    }
}

// The numbers of the book, in the order in which they are printed: calls counted by what they gave, other calls, the finds of all
// collections added up but for the peak, which is the greatest, and the digest.
#[derive(Clone, Copy, Default)]
pub(crate) struct Book {
    allots: usize,
    allots_misshapen: usize,
    allots_without_room: usize,
    reads: usize,
    reads_of_no_object: usize,
    reads_of_no_field: usize,
    writes: usize,
    writes_to_no_object: usize,
    writes_to_no_field: usize,
    writes_of_no_object: usize,
    collections: usize,
    surveys: usize,
    set_ups: usize,
    others: usize,
    finds: Finds,
    digest: usize,
}

impl Book {
    // Counts a call by its refusal, if there was one.
    fn count(&mut self, call: Call, refusal: Option<Refusal>) {
        let counted = match (call, refusal) {
            (Call::Allot, None) => &mut self.allots,
            (Call::Allot, Some(Refusal::Size)) => &mut self.allots_misshapen,
            (Call::Allot, Some(Refusal::Full)) => &mut self.allots_without_room,
            (Call::Read, None) => &mut self.reads,
            (Call::Read, Some(Refusal::Object)) => &mut self.reads_of_no_object,
            (Call::Read, Some(Refusal::Field)) => &mut self.reads_of_no_field,
            (Call::Write, None) => &mut self.writes,
            (Call::Write, Some(Refusal::Object)) => &mut self.writes_to_no_object,
            (Call::Write, Some(Refusal::Field)) => &mut self.writes_to_no_field,
            (Call::Write, Some(Refusal::Target)) => &mut self.writes_of_no_object,
            (Call::Collect, None) => &mut self.collections,
            (Call::Survey, None) => &mut self.surveys,
            (Call::SetUp, None) => &mut self.set_ups,
            _ => &mut self.others,
        };
        add(counted, 1);
    }

    // Adds numbers to the digest.
    pub(crate) fn digest(&mut self, came: &[usize]) {
        self.digest = lines::sum_on(self.digest, came);
    }

    // Notes a call: its refusal, if there was one, and the rest of its answer.
    pub(crate) fn note(&mut self, call: Call, refusal: Option<Refusal>, came: &[usize]) {
        self.count(call, refusal);
        self.digest(&[refusal.map_or(0, Refusal::number) as usize]);
        self.digest(came);
    }

    // Notes what a collection has found.
    pub(crate) fn found(&mut self, finds: Finds) {
        let all = &mut self.finds;
        add(&mut all.objects, finds.objects);
        add(&mut all.live, finds.live);
        add(&mut all.references, finds.references);
        all.peak = all.peak.max(finds.peak);
    }

    // Whether sums over all words are due: after every collection in a heap of fewer than 1,024 words, and the larger the heap the
    // more seldom.
    pub(crate) fn is_due(&self, words: usize) -> bool {
        self.collections % (words % 1048576 / 1024 + 1) == 0
    }

    // Prints " gave" and all numbers of the book.
    pub(crate) fn print<W: Write>(&self, out: &mut W) -> io::Result<()> {
        let numbers = [
            self.allots,
            self.allots_misshapen,
            self.allots_without_room,
            self.reads,
            self.reads_of_no_object,
            self.reads_of_no_field,
            self.writes,
            self.writes_to_no_object,
            self.writes_to_no_field,
            self.writes_of_no_object,
            self.collections,
            self.surveys,
            self.set_ups,
            self.others,
            self.finds.objects,
            self.finds.live,
            self.finds.references,
            self.finds.peak,
            self.digest,
        ];
        lines::gave(out, &numbers)
    }
}
