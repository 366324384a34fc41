// The public call `allot`.
ghost use Rattle.std.specs.Prelude.{◌≡◌, ◌+◌, ◌≤◌, ◌<◌, length};
ghost use Rattle.layout.specs.Limits.{list_words};
ghost use Rattle.layout.specs.Refusal.{code_told};
ghost use Rattle.store.specs.Allot.{asked_code, with_object, allotment, allot_told, allots_in, allots, Parts};

use freelist::{records, search};
use layout::{Refusal, State, parts};
use words::{Header, bits};

// What an allot hands out: the new object's address, and the state.
#[derive(Clone, Copy)]
pub struct NewObject {
    pub address: usize,
    pub state: State,
}

// Why an allot refuses, and the state. (A type beside the collector's, whose refusals name a reference.)
#[derive(Clone, Copy)]
pub struct Refused {
    pub refusal: Refusal,
    pub state: State,
}

// A new object of s words, the first p of its fields references, all fields 0; or a refusal. s and p may be any number. The buffers
// may be longer than needed, as C lends them.
pub fn allot(
    state: State,
    heap: &mut [u32],
    map: &mut [u32],
    list: &mut [u32],
    s: usize,
    p: usize,
) -> Result<NewObject, Refused>
    ensures { allotment (allot_told result) heap.new map.new list.new ≡ allots state heap.old map.old list.old s p }
{
    let refused = |refusal| Refused { refusal, state };
    let rooms = state.rooms(heap).map_err(refused)?;
    let m = rooms.map;
    let n = rooms.list;
    if !((m <= map.len()) & (n <= list.len())) {
        return Err(refused(Refusal::Room));
    }
    allot_in(state, heap, &mut map[..m], &mut list[..n], s, p)
}

// An allot in the needed parts of map and list.
fn allot_in(
    state: State,
    heap: &mut [u32],
    map: &mut [u32],
    list: &mut [u32],
    s: usize,
    p: usize,
) -> Result<NewObject, Refused>
    requires { Parts state heap.old map.old list.old }
    ensures { allotment (allot_told result) heap.new map.new list.new ≡ allots_in state heap.old map.old list.old s p }
{
    let words = state.words;
    let keep = state.keep;
    let count = state.count;
    asked(list, count, words, keep, s, p).map_err(|refusal| Refused { refusal, state })?;
    let Some(j) = search::fitting(records::below(list, count), s) else {
        let refusal = Refusal::Full;
        return Err(Refused { refusal, state });
    };
    let record = records::at(list, j);
    let address = record.start;
    let left = split::take_front(list, count, keep, s, j);
    lay(heap, address, s, p);
    bits::set(map, address);
    Ok(NewObject {
        address,
        state: State {
            words,
            keep,
            count: left,
        },
    })
}

// The refusal of an allot for its list, or for what it asks, if there is one.
fn asked(
    list: &[u32],
    count: usize,
    words: usize,
    keep: usize,
    s: usize,
    p: usize,
) -> Result<(), Refusal>
    requires { length list.now ≡ list_words words keep }
    ensures { code_told result ≡ asked_code words keep count list.now s p }
{
    if !records::are_valid(list, count, words, keep) {
        return Err(Refusal::List);
    }
    if !((keep <= s) & (s <= 65535) & (p < s)) {
        return Err(Refusal::Size);
    }
    Ok(())
}

// Lays a new object at a: its header, and zeros in the rest of its words.
fn lay(heap: &mut [u32], a: usize, s: usize, p: usize)
    requires { (p < s) × (s < 65536) × (a + s ≤ length heap.old) }
    ensures { heap.new ≡ with_object heap.old a s p }
{
    heap[a] = Header::word(s, p);
    parts::clear(&mut heap[a + 1..a + s]);
}
