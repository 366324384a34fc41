// Meeting one reference.
ghost use Rattle.std.specs.Prelude.{◌≡◌, ◌+◌, ◌*◌, ◌/◌, ◌≤◌, ◌<◌, length};
ghost use Rattle.words.specs.Map.{bit_at};
ghost use Rattle.freelist.specs.Search.{holder, Sorted};
ghost use Rattle.machine.specs.Machine.{listed, Noting, pushed, Meeting, Met};

use crate::{Fault, Machine};
use freelist::{records, search};
use layout::Refusal;
use words::{Header, bits};

impl Machine<'_> {
    // Whether the object at r is marked.
    fn is_marked(&self, r: usize) -> bool
        requires { r / 32 < length self.now.map.now }
        ensures { result ≡ bit_at self.now.map.now r }
    {
        bits::is_set(self.map, r)
    }

    // The number of the listed interval that holds the s words at r.
    fn holding(&self, r: usize, s: usize) -> Option<usize>
        requires { (2 * self.now.progress.count ≤ length self.now.list.now) × (r + s < 4294967296) × Sorted (listed self.now) }
        ensures { result ≡ holder r s (listed self.now) }
    {
        search::holding(records::below(self.list, self.progress.count), r, s)
    }

    // The object of s words at r is marked and pushed; n intervals are listed now.
    fn note(&mut self, r: usize, s: usize, n: usize)
        requires { Noting self.old r s }
        ensures { self.new ≡ pushed self.old r s n }
    {
        bits::set(self.map, r);
        self.stack[self.progress.depth] = r as u32;
        self.progress.depth += 1;
        self.progress.count = n;
        self.progress.objects += 1;
        self.progress.live += s;
        self.progress.peak = self.progress.peak.max(n);
    }

    // Meets the reference r. An object that no listed interval holds overlaps a marked one.
    pub(crate) fn meet(&mut self, r: usize) -> Result<(), Fault>
        requires { Meeting self.old }
        ensures { Met self.old r self.new result }
    {
        if r == 0 {
            return Ok(());
        }
        if self.heap.len() <= r {
            return Err(Fault {
                refusal: Refusal::Address,
                place: r,
            });
        }
        if self.is_marked(r) {
            return Ok(());
        }
        if !Header::is_formed(self.heap, self.keep, r) {
            return Err(Fault {
                refusal: Refusal::Header,
                place: r,
            });
        }
        let header = Header::at(self.heap, r);
        let s = header.size;
        let Some(j) = self.holding(r, s) else {
            return Err(Fault {
                refusal: Refusal::Overlap,
                place: r,
            });
        };
        let n = split::take_off(self.list, self.progress.count, self.keep, r, s, j);
        self.note(r, s, n);
        Ok(())
    }
}
