// One move, and the loop that makes them all.
ghost use Rattle.machine.specs.Machine.{Ready, Moved, Begun, Ran};

use crate::{Fault, Machine, Progress};
use words::{Header, wide};

impl Machine<'_> {
    // One move: meets the next reference of the object in hand, or pops an object, or meets the next root. False if none is left.
    fn advance(&mut self) -> Result<bool, Fault>
        requires { Ready self.old }
        ensures { Moved self.old self.new result }
    {
        if 0 < self.progress.left {
            let r = wide(self.heap[self.progress.at]);
            self.progress.at += 1;
            self.progress.left -= 1;
            self.progress.references += 1;
            self.meet(r)?;
            return Ok(true);
        }
        if 0 < self.progress.depth {
            let top = self.progress.depth - 1;
            let a = wide(self.stack[top]);
            let header = Header::at(self.heap, a);
            self.progress.depth = top;
            self.progress.at = a + 1;
            self.progress.left = header.refs;
            return Ok(true);
        }
        if self.progress.next < self.roots.len() {
            let r = wide(self.roots[self.progress.next]);
            self.progress.next += 1;
            self.progress.references += 1;
            self.meet(r)?;
            return Ok(true);
        }
        Ok(false)
    }
}

// Runs the machine to its end, from a clear map and the first list with its count. The buffers come one by one, as a collection is
// lent them.
pub fn run(
    heap: &[u32],
    keep: usize,
    roots: &[u32],
    map: &mut [u32],
    stack: &mut [u32],
    list: &mut [u32],
    count: usize,
) -> Result<Progress, Fault>
    requires { Begun heap.now keep roots.now map.old stack.old list.old count }
    ensures { Ran heap.now keep roots.now map.new stack.new list.new result }
{
    let mut machine = Machine {
        heap,
        keep,
        roots,
        map,
        stack,
        list,
        progress: Progress {
            count,
            peak: count,
            ..Progress::default()
        },
    };
    while machine.advance()? {}
    Ok(machine.progress)
}
