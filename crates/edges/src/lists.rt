// Lines about the free list. A line gives words, keep, a, s, the count, and the records; what it does not give is 9.
ghost use Rattle.std.specs.Prelude.{◌≡◌, true, length};
ghost use Rattle.layout.specs.Limits.{within, list_words};

use freelist::{Figures, records, search};
use layout::Rooms;
use std::io;
use std::io::Write;

// What is asked of the list: figures, the first words of a record, words taken off, or the same of a comb.
#[derive(Clone, Copy, Debug, PartialEq, Eq)]
pub(crate) enum Ask {
    Figures,
    Front,
    Off,
    Comb,
}

// What a letter says.
impl From<u8> for Ask {
    fn from(letter: u8) -> Ask {
        match letter {
            b'l' => Ask::Figures,
            b'f' => Ask::Front,
            b'c' => Ask::Comb,
            _ => Ask::Off,
        }
    }
}

// Writes the list that a line gives, and answers its count.
fn write(place: &[usize; 48], list: &mut [u32]) -> usize {
    let count = place[5];
    list.fill(9);
    heaps::write(&place[6..6 + 2 * count.min(21)], list);
    count
}

// Writes intervals of three words, one word apart, as far as the heap goes, and answers how many.
fn comb(words: usize, list: &mut [u32]) -> usize {
    for (i, record) in list.chunks_exact_mut(2).enumerate() {
        if words / 4 <= i {
            return i;
        }
        record[0] = heaps::cut(4 * i + 1);
        record[1] = 3;
    }
    list.len() / 2
}

// Prints the record's place, the new count, a sum over the words of the list and, of a short list, all of them.
fn report<W: Write>(out: &mut W, j: usize, count: usize, list: &[u32]) -> io::Result<()> {
    lines::gave(out, &[1, j, count])?;
    lines::buffer(out, list)
}

// A trial: what is asked, the words and the keep length of the heap, and where and how many words are taken off.
#[derive(Clone, Copy)]
pub(crate) struct Trial {
    ask: Ask,
    words: usize,
    keep: usize,
    a: usize,
    s: usize,
}

impl Trial {
    // What a line asks.
    pub(crate) fn of(ask: Ask, place: &[usize; 48]) -> Trial {
        let [_, words, keep, a, s, ..] = *place;
        Trial {
            ask,
            words,
            keep,
            a,
            s,
        }
    }

    // The trial of a comb or of the list that a line gives, if words and keep length are within the limits.
    pub(crate) fn run<W: Write>(self, out: &mut W, place: &[usize; 48]) -> io::Result<()> {
        let Ok(rooms) = Rooms::needed(self.words, self.keep) else {
            return Ok(());
        };
        let mut list = heaps::junk();
        let Some(list) = list.get_mut(..rooms.list) else {
            return Ok(());
        };
        let count = match self.ask {
            Ask::Comb => comb(self.words, list),
            _ => write(place, list),
        };
        self.in_part(out, count, list)
    }

    // The trial in the needed part of the list. Came: 0 where refusal 3 is given. Else 1, and then of figures listed, largest,
    // fragment; of words that are taken the count where no record has them, or the report.
    fn in_part<W: Write>(self, out: &mut W, count: usize, list: &mut [u32]) -> io::Result<()>
        requires { (within self.words self.keep ≡ true) × (length list.old ≡ list_words self.words self.keep) }
    {
        let Trial {
            ask,
            words,
            keep,
            a,
            s,
        } = self;
        if !records::are_valid(list, count, words, keep) {
            return lines::gave(out, &[0]);
        }
        match ask {
            Ask::Figures => {
                let figures = Figures::of(records::below(list, count));
                lines::gave(out, &[1, figures.listed, figures.largest, figures.fragment])
            }
            Ask::Front => {
                let Some(j) = search::fitting(records::below(list, count), s) else {
                    return lines::gave(out, &[1, count]);
                };
                let left = split::take_front(list, count, keep, s, j);
                report(out, j, left, list)
            }
            Ask::Off | Ask::Comb if s == 0 || words < s || words < a => Ok(()),
            Ask::Off | Ask::Comb => {
                let Some(j) = search::holding(records::below(list, count), a, s) else {
                    return lines::gave(out, &[1, count]);
                };
                let left = split::take_off(list, count, keep, a, s, j);
                report(out, j, left, list)
            }
        }
    }
}
