// What a turn chooses, by the numbers drawn for it.
ghost use Rattle.std.specs.Prelude.{◌<◌, ◌≤◌};

use heaps::{below, cut, draw, is_time, up_to};
use words::{Header, wide};

// The slots: each is empty, or has the address of an object.
pub(crate) type Slots = [u32; 24];

// What is odd about the field that is to be read or written, if anything.
#[derive(Clone, Copy, PartialEq, Eq)]
pub(crate) enum Oddity {
    AnyWord,
    HugeAddress,
    PastFields,
    HugeField,
    Nothing,
}

// The numbers drawn for a turn: which call, a slot, which rare case, and the others as they are needed; and whether what slots hold
// may be dropped.
#[derive(Clone, Copy)]
pub(crate) struct Turn {
    call: usize,
    slot: usize,
    rarity: usize,
    amount: usize,
    field: usize,
    choice: usize,
    part: usize,
    extra: usize,
    pub(crate) is_loss: bool,
}

// A slot: any of the 24, or of the first few where the heap has not many words.
fn slot(x: usize, words: usize) -> usize
    ensures { result < 24 }
{
    if words < 92 {
        below(x, words / 4 + 1)
    } else {
        below(x, 24)
    }
}

impl Turn {
    // The next turn: of nine numbers drawn the last says whether it is one of loss, which one in so many is.
    pub(crate) fn draw(row: &mut usize, seldom: usize) -> Turn {
        Turn {
            call: draw(row),
            slot: draw(row),
            rarity: draw(row),
            amount: draw(row),
            field: draw(row),
            choice: draw(row),
            part: draw(row),
            extra: draw(row),
            is_loss: is_time(draw(row), seldom),
        }
    }

    // Which call there is, as a part of 100.
    pub(crate) fn call(&self) -> usize {
        below(self.call, 100)
    }

    // The slot of the turn.
    pub(crate) fn slot(&self, words: usize) -> usize
        ensures { result < 24 }
    {
        slot(self.slot, words)
    }

    // Another slot.
    pub(crate) fn other_slot(&self, words: usize) -> usize
        ensures { result < 24 }
    {
        slot(self.choice, words)
    }

    // Whether a new object may refer to what its slot held, two times in three.
    pub(crate) fn is_put_before(&self) -> bool {
        !is_time(self.part, 3)
    }

    // Whether a new object may go in any field of what its slot holds, mostly.
    pub(crate) fn is_put_anywhere(&self) -> bool {
        !is_time(self.extra, 16)
    }

    // Whether sums over all words are to be digested behind the turn, one time in five.
    pub(crate) fn is_summed(&self) -> bool {
        is_time(self.extra, 5)
    }

    // How many words are asked for: mostly the keep length and up to seven more; three times in 40 up to a quarter of the heap more,
    // or up to a part of that; now and then up to the keep length, or too many.
    pub(crate) fn size(&self, words: usize, keep: usize) -> usize {
        let x = self.amount;
        match below(self.rarity, 40) {
            0 => up_to::<1048576>(x, keep),
            1 => 65536 + below(x, 3),
            2..=4 => keep.wrapping_add(up_to::<1048576>(x, words / (4 * below(self.part, 64) + 4))),
            _ => keep.wrapping_add(below(x, 8)),
        }
    }

    // How many references are asked for of an object of s words: mostly one or more; now and then none, or too many.
    pub(crate) fn refs(&self, s: usize) -> usize {
        match below(self.field, 40) {
            0 => s,
            7..=39 if 2 <= s => 1 + below(self.choice, s - 1),
            _ => 0,
        }
    }

    // What is odd about the field that is to be read or written: each case one time in 20.
    pub(crate) fn oddity(&self) -> Oddity {
        match below(self.rarity, 20) {
            0 => Oddity::AnyWord,
            1 => Oddity::HugeAddress,
            2 => Oddity::PastFields,
            3 => Oddity::HugeField,
            _ => Oddity::Nothing,
        }
    }

    // The address that is read or written: mostly a slot's object; if it is odd any word's or one behind the heap, or a huge one.
    pub(crate) fn address(&self, oddity: Oddity, slots: &Slots, words: usize) -> usize {
        let a = wide(slots[self.slot(words)]);
        match oddity {
            Oddity::AnyWord => up_to::<1048576>(self.amount, words.wrapping_add(2)),
            Oddity::HugeAddress => 4294967296 + a,
            _ => a,
        }
    }

    // The field that is read or written: if it is odd one behind the last, or a huge one; else any field of the object, or its last
    // one. Where there is no header or no field, 0 to 2.
    pub(crate) fn field(&self, oddity: Oddity, is_any: bool, heap: &[u32], a: usize) -> usize {
        let x = self.field;
        if heap.len() <= a {
            return below(x, 3);
        }
        let header = Header::at(heap, a);
        let size = header.size;
        match oddity {
            Oddity::HugeField => 4294967296 + below(x, 3),
            _ if size < 2 => below(x, 3),
            Oddity::PastFields => (size - 1).wrapping_add(below(x, 3)),
            _ if is_any => below(x, size - 1),
            _ => size - 2,
        }
    }

    // The word that is written: mostly what a slot holds; now and then 0, any word's address or one behind the heap, or any number.
    pub(crate) fn value(&self, slots: &Slots, words: usize) -> u32 {
        let x = self.part;
        match below(self.choice, 8) {
            0 => 0,
            1 => cut(up_to::<1048576>(x, words.wrapping_add(2))),
            2 => cut(x.wrapping_add(self.extra)),
            _ => slots[slot(x, words)],
        }
    }

    // How many roots are given, up to 48: the slots and, one time in four, some of them again; if slots are to be lost, a front part
    // of them.
    pub(crate) fn roots(&self) -> usize
        ensures { result ≤ 48 }
    {
        if self.is_loss {
            below(self.amount, 24)
        } else if is_time(self.rarity, 4) {
            24 + below(self.amount, 25)
        } else {
            24
        }
    }
}
