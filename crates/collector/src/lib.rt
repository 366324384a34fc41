// The public call `collect`.
#![tactic(auto)]

ghost use Rattle.std.specs.Prelude.{◌≡◌};
ghost use Rattle.collector.specs.Collect.{left, collect_told, collects_in, collects, Parts};

use layout::{Refusal, State, parts};
use machine::Fault;

// The most roots that a collection is lent.
const MAX_ROOTS: usize = 65536;

// What a collection finds: objects marked, live words, references read, peak; and the state.
#[derive(Clone, Copy)]
pub struct Collection {
    pub objects: usize,
    pub live: usize,
    pub references: usize,
    pub peak: usize,
    pub state: State,
}

// Why a collection refuses, the reference that it names, and the state. A refusal that names none has 0 there, as the rules say.
#[derive(Clone, Copy)]
pub struct Refused {
    pub fault: Fault,
    pub state: State,
}

impl Refused {
    // A refusal before any reference is met.
    fn early(refusal: Refusal, state: State) -> Refused
        ensures { result ≡ record { fault = record { refusal = refusal; place = 0 }; state = state } }
    {
        let fault = Fault { refusal, place: 0 };
        Refused { fault, state }
    }
}

// Marks from the roots in the fixed order, and leaves map and list with a clear stack, or refuses. The old content of all three is
// not looked at. What is lent comes buffer by buffer, as C lends it.
pub fn collect(
    state: State,
    heap: &[u32],
    roots: &[u32],
    map: &mut [u32],
    stack: &mut [u32],
    list: &mut [u32],
) -> Result<Collection, Refused>
    ensures { left (collect_told result) map.new stack.new list.new ≡ collects state heap.now roots.now map.old stack.old list.old }
{
    let rooms = state
        .rooms(heap)
        .map_err(|refusal| Refused::early(refusal, state))?;
    if MAX_ROOTS < roots.len() {
        return Err(Refused::early(Refusal::Limits, state));
    }
    let m = rooms.map;
    let a = rooms.stack;
    let n = rooms.list;
    if !((m <= map.len()) & (a <= stack.len()) & (n <= list.len())) {
        return Err(Refused::early(Refusal::Room, state));
    }
    collect_in(
        heap,
        state.keep,
        roots,
        &mut map[..m],
        &mut stack[..a],
        &mut list[..n],
    )
}

// A collection in the needed parts.
fn collect_in(
    heap: &[u32],
    keep: usize,
    roots: &[u32],
    map: &mut [u32],
    stack: &mut [u32],
    list: &mut [u32],
) -> Result<Collection, Refused>
    requires { Parts heap.now keep roots.now map.old stack.old list.old }
    ensures { left (collect_told result) map.new stack.new list.new ≡ collects_in heap.now keep roots.now }
{
    let words = heap.len();
    parts::clear(map);
    let count = layout::first_list(words, keep, list);
    let end = machine::run(heap, keep, roots, map, stack, list, count);
    parts::clear(stack);
    match end {
        Ok(p) => Ok(Collection {
            objects: p.objects,
            live: p.live,
            references: p.references,
            peak: p.peak,
            state: State {
                words,
                keep,
                count: p.count,
            },
        }),
        Err(fault) => {
            parts::clear(map);
            parts::clear(list);
            let count = 0;
            let state = State { words, keep, count };
            Err(Refused { fault, state })
        }
    }
}
