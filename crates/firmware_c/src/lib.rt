// What C calls, each function that of the crate firmware, which is a library for the theorems: a static library cannot be one. A
// slice passes as a pointer and a length, and each answers a number, since that is what C has.
#![tactic(auto)]

ghost use Rattle.std.specs.Prelude.{◌≡◌, false};
ghost use Rattle.layout.specs.Limits.{within, rooms_of};
ghost use Rattle.store.specs.Fields.{written};
ghost use Rattle.firmware.specs.Calls.{setting_up, hx_sets_up, collecting, hx_collects, allotting, hx_allots, telling, hx_reads, hx_writes, hx_surveys};

// The words of map that a heap needs; 0 only where words or keep is out of the limits.
#[unsafe(no_mangle)]
pub extern "C" fn hx_map_words(words: u32, keep: u32) -> u32
    ensures value { result ≡ (rooms_of words keep).map }
    ensures zero_outside { result ≡ 0 → within words keep ≡ false }
{
    firmware::hx_map_words(words, keep)
}

// The words of stack that a heap needs; 0 where words or keep is out of the limits.
#[unsafe(no_mangle)]
pub extern "C" fn hx_stack_words(words: u32, keep: u32) -> u32
    ensures { result ≡ (rooms_of words keep).stack }
{
    firmware::hx_stack_words(words, keep)
}

// The words of list that a heap needs; 0 where words or keep is out of the limits.
#[unsafe(no_mangle)]
pub extern "C" fn hx_list_words(words: u32, keep: u32) -> u32
    ensures { result ≡ (rooms_of words keep).list }
{
    firmware::hx_list_words(words, keep)
}

// Sets a heap up with no object on it, and hands out its state.
#[unsafe(no_mangle)]
pub extern "C" fn hx_set_up(
    heap: &[u32],
    keep: u32,
    map: &mut [u32],
    list: &mut [u32],
    state: &mut [u32],
) -> u32
    ensures { setting_up result map.new list.new state.new ≡ hx_sets_up heap.now keep map.old list.old state.old }
{
    firmware::hx_set_up(heap, keep, map, list, state)
}

// Marks from the roots, and leaves map and list with a clear stack.
#[unsafe(no_mangle)]
pub extern "C" fn hx_collect(
    state: &mut [u32],
    heap: &[u32],
    roots: &[u32],
    map: &mut [u32],
    stack: &mut [u32],
    list: &mut [u32],
    answer: &mut [u32],
) -> u32
    ensures { collecting result state.new map.new stack.new list.new answer.new ≡ hx_collects state.old heap.now roots.now map.old stack.old list.old answer.old }
{
    firmware::hx_collect(state, heap, roots, map, stack, list, answer)
}

// A new object of so many words, the first of its fields references.
#[unsafe(no_mangle)]
pub extern "C" fn hx_allot(
    state: &mut [u32],
    heap: &mut [u32],
    map: &mut [u32],
    list: &mut [u32],
    size: u32,
    references: u32,
    answer: &mut [u32],
) -> u32
    ensures { allotting result state.new heap.new map.new list.new answer.new ≡ hx_allots state.old heap.old map.old list.old size references answer.old }
{
    firmware::hx_allot(state, heap, map, list, size, references, answer)
}

// The word in a field of an object.
#[unsafe(no_mangle)]
pub extern "C" fn hx_read(
    state: &[u32],
    heap: &[u32],
    map: &[u32],
    address: u32,
    field: u32,
    answer: &mut [u32],
) -> u32
    ensures { telling result answer.new ≡ hx_reads state.now heap.now map.now address field answer.old }
{
    firmware::hx_read(state, heap, map, address, field, answer)
}

// Stores a word in a field of an object.
#[unsafe(no_mangle)]
pub extern "C" fn hx_write(
    state: &[u32],
    heap: &mut [u32],
    map: &[u32],
    address: u32,
    field: u32,
    value: u32,
) -> u32
    ensures { written result heap.new ≡ hx_writes state.now heap.old map.now address field value }
{
    firmware::hx_write(state, heap, map, address, field, value)
}

// Listed words, the largest interval and the fragment figure.
#[unsafe(no_mangle)]
pub extern "C" fn hx_survey(state: &[u32], list: &[u32], answer: &mut [u32]) -> u32
    ensures { telling result answer.new ≡ hx_surveys state.now list.now answer.old }
{
    firmware::hx_survey(state, list, answer)
}
