// The calls of a player. What each answers is noted in the book.
use crate::book::{Call, Finds};
use crate::player::Player;
use layout::State;

impl Player<'_> {
    // Sets up with a keep length.
    pub(crate) fn set_up(&mut self, keep: usize) {
        let heap = &mut *self.heap;
        let got = State::set_up(heap, keep, self.map, self.list);
        let state = got.unwrap_or_default();
        let came = [state.words, state.keep, state.count];
        self.state = state;
        self.book.note(Call::SetUp, got.err(), &came);
    }

    // Allots s words, the first p fields references. The new object's address, if it is not refused.
    pub(crate) fn allot(&mut self, s: usize, p: usize) -> Option<usize> {
        let got = store::allot(self.state, self.heap, self.map, self.list, s, p);
        let (refusal, address, state) = match got {
            Ok(made) => (None, made.address, made.state),
            Err(refused) => (Some(refused.refusal), 0, refused.state),
        };
        let came = [address, state.words, state.keep, state.count];
        self.state = state;
        self.book.note(Call::Allot, refusal, &came);
        got.ok().map(|made| made.address)
    }

    // Reads field k of the object at a. Its word, if it is not refused.
    pub(crate) fn read(&mut self, a: usize, k: usize) -> Option<u32> {
        let heap = &mut *self.heap;
        let map = &mut *self.map;
        let got = store::read(self.state, heap, map, a, k);
        let value = got.unwrap_or_default();
        self.book.note(Call::Read, got.err(), &[value as usize]);
        got.ok()
    }

    // Stores v in field k of the object at a.
    pub(crate) fn write(&mut self, a: usize, k: usize, v: u32) {
        let map = &mut *self.map;
        let got = store::write(self.state, self.heap, map, a, k, v);
        self.book.note(Call::Write, got.err(), &[]);
    }

    // Surveys.
    pub(crate) fn survey(&mut self) {
        let got = store::survey(self.state, self.list);
        let figures = got.unwrap_or_default();
        let came = [figures.listed, figures.largest, figures.fragment];
        self.book.note(Call::Survey, got.err(), &came);
    }

    // Collects from roots.
    pub(crate) fn collect(&mut self, roots: &[u32]) {
        let heap = &mut *self.heap;
        let got = collector::collect(self.state, heap, roots, self.map, self.stack, self.list);
        let (refusal, place, finds, state) = match got {
            Ok(found) => (None, 0, Finds::from(found), found.state),
            Err(refused) => {
                let fault = refused.fault;
                (
                    Some(fault.refusal),
                    fault.place,
                    Finds::default(),
                    refused.state,
                )
            }
        };
        let came = [
            place,
            finds.objects,
            finds.live,
            finds.references,
            finds.peak,
            state.words,
            state.keep,
            state.count,
        ];
        self.state = state;
        self.book.note(Call::Collect, refusal, &came);
        self.book.found(finds);
    }
}
