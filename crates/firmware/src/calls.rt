// The calls for C. A state and an answer are lent as words; with too few of them a call answers 2 and changes nothing.
// Each answers a number, and each buffer is a parameter of its own, since that is what C has.
ghost use Rattle.std.specs.Prelude.{◌≡◌};
ghost use Rattle.store.specs.Fields.{written};
ghost use Rattle.firmware.specs.Calls.{setting_up, hx_sets_up, collecting, hx_collects, allotting, hx_allots, telling, hx_reads, hx_writes, hx_surveys};

use crate::{lent, told};
use layout::{Refusal, State};

// Sets a heap up with no object on it, and hands out its state.
pub fn hx_set_up(
    heap: &[u32],
    keep: u32,
    map: &mut [u32],
    list: &mut [u32],
    state: &mut [u32],
) -> u32
    ensures { setting_up result map.new list.new state.new ≡ hx_sets_up heap.now keep map.old list.old state.old }
{
    if state.len() < lent::STATE_ROOM {
        return Refusal::Room.number();
    }
    let (code, fresh) = told::set_up(State::set_up(heap, keep as usize, map, list));
    lent::put_state(state, fresh);
    code
}

// Marks from the roots, and leaves map and list with a clear stack.
pub fn hx_collect(
    state: &mut [u32],
    heap: &[u32],
    roots: &[u32],
    map: &mut [u32],
    stack: &mut [u32],
    list: &mut [u32],
    answer: &mut [u32],
) -> u32
    ensures { collecting result state.new map.new stack.new list.new answer.new ≡ hx_collects state.old heap.now roots.now map.old stack.old list.old answer.old }
{
    if !((lent::STATE_ROOM <= state.len()) & (5 <= answer.len())) {
        return Refusal::Room.number();
    }
    let was = lent::state_in(state);
    let found = collector::collect(was, heap, roots, map, stack, list);
    let (code, after, words) = told::collect(found);
    lent::put_state(state, after);
    lent::put(answer, words);
    code
}

// A new object of so many words, the first of its fields references.
pub fn hx_allot(
    state: &mut [u32],
    heap: &mut [u32],
    map: &mut [u32],
    list: &mut [u32],
    size: u32,
    references: u32,
    answer: &mut [u32],
) -> u32
    ensures { allotting result state.new heap.new map.new list.new answer.new ≡ hx_allots state.old heap.old map.old list.old size references answer.old }
{
    if !((lent::STATE_ROOM <= state.len()) & (1 <= answer.len())) {
        return Refusal::Room.number();
    }
    let was = lent::state_in(state);
    let made = store::allot(was, heap, map, list, size as usize, references as usize);
    let (code, after, at) = told::allot(made);
    lent::put_state(state, after);
    lent::put(answer, [at]);
    code
}

// The word in a field of an object.
pub fn hx_read(
    state: &[u32],
    heap: &[u32],
    map: &[u32],
    address: u32,
    field: u32,
    answer: &mut [u32],
) -> u32
    ensures { telling result answer.new ≡ hx_reads state.now heap.now map.now address field answer.old }
{
    if !((lent::STATE_ROOM <= state.len()) & (1 <= answer.len())) {
        return Refusal::Room.number();
    }
    let was = lent::state_in(state);
    let got = store::read(was, heap, map, address as usize, field as usize);
    let (code, value) = told::read(got);
    lent::put(answer, [value]);
    code
}

// Stores a word in a field of an object.
pub fn hx_write(
    state: &[u32],
    heap: &mut [u32],
    map: &[u32],
    address: u32,
    field: u32,
    value: u32,
) -> u32
    ensures { written result heap.new ≡ hx_writes state.now heap.old map.now address field value }
{
    if state.len() < lent::STATE_ROOM {
        return Refusal::Room.number();
    }
    let was = lent::state_in(state);
    let done = store::write(was, heap, map, address as usize, field as usize, value);
    told::code(done)
}

// Listed words, the largest interval and the fragment figure.
pub fn hx_survey(state: &[u32], list: &[u32], answer: &mut [u32]) -> u32
    ensures { telling result answer.new ≡ hx_surveys state.now list.now answer.old }
{
    if !((lent::STATE_ROOM <= state.len()) & (3 <= answer.len())) {
        return Refusal::Room.number();
    }
    let was = lent::state_in(state);
    let seen = store::survey(was, list);
    let (code, words) = told::survey(seen);
    lent::put(answer, words);
    code
}
