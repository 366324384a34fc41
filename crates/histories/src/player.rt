// The player of a history plays the mutator: by turns it allots, reads, writes, collects from what its 24 slots hold, and surveys. What
// a slot holds is dropped only in turns of loss; the fewer these are, the more objects are reached, mostly.
use crate::book::Book;
use crate::turn::{Oddity, Slots, Turn};
use layout::State;
use words::{Header, wide};

// A player: what it is lent and was handed back, its slots, and the book of what came.
#[derive(Drop)]
pub(crate) struct Player<'a> {
    pub(crate) heap: &'a mut [u32],
    pub(crate) map: &'a mut [u32],
    pub(crate) stack: &'a mut [u32],
    pub(crate) list: &'a mut [u32],
    pub(crate) state: State,
    pub(crate) slots: Slots,
    pub(crate) book: Book,
}

// Whether field k of the object at a is a reference.
fn is_reference(heap: &[u32], a: usize, k: usize) -> bool {
    if heap.len() <= a {
        return false;
    }
    let header = Header::at(heap, a);
    k < header.refs
}

impl<'a> Player<'a> {
    // A player with empty slots, whose heap is still to be set up.
    pub(crate) fn new(
        heap: &'a mut [u32],
        map: &'a mut [u32],
        stack: &'a mut [u32],
        list: &'a mut [u32],
    ) -> Player<'a> {
        Player {
            heap,
            map,
            stack,
            list,
            state: State::default(),
            slots: [0; 24],
            book: Book::default(),
        }
    }

    // Sums over all words lent of heap, map, stack and list.
    pub(crate) fn sums(&self) -> [usize; 4] {
        [
            lines::sum(self.heap),
            lines::sum(self.map),
            lines::sum(self.stack),
            lines::sum(self.list),
        ]
    }

    // Digests sums over all words.
    fn digest_sums(&mut self) {
        let sums = self.sums();
        self.book.digest(&sums);
    }

    // Hangs a new object on a slot. An object there with more than eight references mostly takes it in any field. Else, two times in
    // three, if the new object's first field is a reference, that is given what the slot held, and the slot the new object. Else the
    // slot is given it, if it was empty or the turn is one of loss, or the last field of what it held.
    fn hang(&mut self, turn: &Turn, a: usize) {
        let i = turn.slot(self.state.words);
        let old = self.slots[i];
        let at = wide(old);
        let new = heaps::cut(a);
        let is_kept = old != 0 && !turn.is_loss;
        if is_kept && is_reference(self.heap, at, 8) && turn.is_put_anywhere() {
            let k = turn.field(Oddity::Nothing, true, self.heap, at);
            self.write(at, k, new);
        } else if is_reference(self.heap, a, 0) && turn.is_put_before() {
            self.write(a, 0, old);
            self.slots[i] = new;
        } else if is_kept {
            let k = turn.field(Oddity::Nothing, false, self.heap, at);
            self.write(at, k, new);
        } else {
            self.slots[i] = new;
        }
    }

    // Allots, and hangs the new object on a slot.
    fn grow(&mut self, turn: &Turn) {
        let s = turn.size(self.state.words, self.state.keep);
        if let Some(a) = self.allot(s, turn.refs(s)) {
            self.hang(turn, a);
        }
    }

    // Reads, and puts a reference that was read in a slot if that is empty or the turn is one of loss.
    fn look(&mut self, turn: &Turn) {
        let words = self.state.words;
        let oddity = turn.oddity();
        let a = turn.address(oddity, &self.slots, words);
        let k = turn.field(oddity, true, self.heap, a);
        let j = turn.other_slot(words);
        let is_free = self.slots[j] == 0 || turn.is_loss;
        if let Some(value) = self.read(a, k) {
            if is_free && is_reference(self.heap, a, k) {
                self.slots[j] = value;
            }
        }
    }

    // Writes: to any field if the turn is one of loss, else to the last one.
    fn change(&mut self, turn: &Turn) {
        let words = self.state.words;
        let oddity = turn.oddity();
        let a = turn.address(oddity, &self.slots, words);
        let k = turn.field(oddity, turn.is_loss, self.heap, a);
        let v = turn.value(&self.slots, words);
        self.write(a, k, v);
    }

    // Collects from the slots, with those emptied that are to be no roots, and digests sums over all words where they are due.
    fn tidy(&mut self, turn: &Turn) {
        let n = turn.roots();
        let mut roots = [0; 48];
        roots[..24].copy_from_slice(&self.slots);
        roots[24..].copy_from_slice(&self.slots);
        if let Some(lost) = self.slots.get_mut(n..) {
            lost.fill(0);
        }
        self.collect(&roots[..n]);
        if self.book.is_due(self.heap.len()) {
            self.digest_sums();
        }
    }

    // Empties a slot, if the turn is one of loss.
    fn drop_one(&mut self, turn: &Turn) {
        if turn.is_loss {
            self.slots[turn.slot(self.state.words)] = 0;
        }
    }

    // One turn and, in a heap of fewer than 1,024 words, one time in five sums over all words digested behind it. A `match` over
    // ranges of what was drawn; closures would be no plainer.
    fn turn(&mut self, turn: &Turn) {
        match turn.call() {
            0..=37 => self.grow(turn),
            38..=46 => self.tidy(turn),
            47..=67 => self.look(turn),
            68..=89 => self.change(turn),
            90..=94 => self.survey(),
            _ => self.drop_one(turn),
        }
        if self.heap.len() < 1024 && turn.is_summed() {
            self.digest_sums();
        }
    }

    // So many turns, counted and not indexed, by the numbers from a seed on, one in so many of loss.
    pub(crate) fn play(&mut self, turns: usize, seed: usize, seldom: usize) {
        let mut row = seed;
        for _ in 0..turns {
            let turn = Turn::draw(&mut row, seldom);
            self.turn(&turn);
        }
    }
}
