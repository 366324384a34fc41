// The public calls `read` and `write`.
ghost use Rattle.std.specs.Prelude.{◌≡◌, ◌*◌, ◌≤◌, ◌<◌, length, IfOk};
ghost use Rattle.layout.specs.Refusal.{code_told};
ghost use Rattle.store.specs.Fields.{field_code, object_code, word_of, takes, read_told, reads, written, writes};

use layout::{Refusal, State};
use words::{Header, bits, wide};

// Field k of the object at a, or a refusal. Both may be any number.
pub fn read(state: State, heap: &[u32], map: &[u32], a: usize, k: usize) -> Result<u32, Refusal>
    ensures { read_told result ≡ reads state heap.now map.now a k }
{
    let word = field(state, heap, map, a, k)?;
    Ok(heap[word])
}

// Stores v in field k of the object at a, or refuses. a and k may be any number.
pub fn write(
    state: State,
    heap: &mut [u32],
    map: &[u32],
    a: usize,
    k: usize,
    v: u32,
) -> Result<(), Refusal>
    ensures { written (code_told result) heap.new ≡ writes state heap.old map.now a k v }
{
    let at = field(state, heap, map, a, k)?;
    if !takes(heap, map, a, k, v) {
        return Err(Refusal::Target);
    }
    heap[at] = v;
    Ok(())
}

// The word of field k of the object at a, or the refusal of a read or a write whatever is stored. What is lent stays apart
// in the functions below: `write` goes on to change the heap, and a struct would be built and taken apart in each call.
fn field(state: State, heap: &[u32], map: &[u32], a: usize, k: usize) -> Result<usize, Refusal>
    ensures code { code_told result ≡ field_code state heap.now map.now a k }
    ensures word { IfOk result (λ at. at ≡ word_of a k) }
{
    let rooms = state.rooms(heap)?;
    if map.len() < rooms.map {
        return Err(Refusal::Room);
    }
    object(heap, state.keep, map, a, k)?;
    Ok(a + 1 + k)
}

// The same refusal, where the limits are kept and the map is long enough.
fn object(heap: &[u32], keep: usize, map: &[u32], a: usize, k: usize) -> Result<(), Refusal>
    requires { length heap.now ≤ 32 * length map.now }
    ensures { code_told result ≡ object_code heap.now keep map.now a k }
{
    if !bits::is_start(map, heap.len(), a) {
        return Err(Refusal::Object);
    }
    if !Header::is_formed(heap, keep, a) {
        return Err(Refusal::Header);
    }
    let header = Header::at(heap, a);
    if header.size - 1 <= k {
        return Err(Refusal::Field);
    }
    Ok(())
}

// Whether field k of the object at a may be given v.
fn takes(heap: &[u32], map: &[u32], a: usize, k: usize, v: u32) -> bool
    requires { (length heap.now ≤ 32 * length map.now) × (a < length heap.now) }
    ensures { result ≡ takes heap.now map.now a k v }
{
    let header = Header::at(heap, a);
    let refs = header.refs;
    let value = wide(v);
    (refs <= k) | (v == 0) | bits::is_start(map, heap.len(), value)
}
