// Words taken off the free list, in the words lent for it. The whole list is lent with its count, and no slice of its records, since a
// list may grow by one.
#![tactic(auto)]

mod moves;

ghost use Rattle.std.specs.Prelude.{◌≡◌, ◌+◌, ◌*◌, ◌≤◌, ◌<◌, length};
ghost use Rattle.runs.specs.Lists.{In, interval_at, sides, cut, without_front};
ghost use Rattle.freelist.specs.Records.{records};
ghost use Rattle.split.specs.Relisted.{relisted};

use freelist::records;

// Takes the s words from a on off record j, which contains them. A side shorter than the keep length is dropped. The new count.
pub fn take_off(list: &mut [u32], count: usize, keep: usize, a: usize, s: usize, j: usize) -> usize
    requires listed { (2 * count ≤ length list.old) × (a + s < 4294967296) × In (records count list.old) a s j }
    requires room { 2 * length (cut keep a s (records count list.old) j) ≤ length list.old }
    ensures value { result ≡ length (cut keep a s (records count list.old) j) }
    ensures list_after { list.new ≡ relisted count (cut keep a s (records count list.old) j) list.old }
{
    let record = records::at(list, j);
    let start = record.start;
    let size = record.size;
    let left = a - start;
    let next = a + s;
    let right = size - left - s;
    put_sides(list, count, keep, j, left as u32, next as u32, right as u32)
}

// Takes the first s words of record j, as an allot does. A remainder shorter than the keep length is dropped. The new count.
pub fn take_front(list: &mut [u32], count: usize, keep: usize, s: usize, j: usize) -> usize
    requires room { (2 * count ≤ length list.old) × (1 ≤ keep) }
    requires listed { ((interval_at (records count list.old) j).start + s < 4294967296) × In (records count list.old) (interval_at (records count list.old) j).start s j }
    ensures value { result ≡ length (without_front keep s (records count list.old) j) }
    ensures list_after { list.new ≡ relisted count (without_front keep s (records count list.old) j) list.old }
{
    let record = records::at(list, j);
    let start = record.start;
    let size = record.size;
    let next = start + s;
    let right = size - s;
    put_sides(list, count, keep, j, 0, next as u32, right as u32)
}

// Record j gives way to its first `left` words and to the `right` words from `next` on, each if it has the keep length. The new count.
fn put_sides(
    list: &mut [u32],
    count: usize,
    keep: usize,
    j: usize,
    left: u32,
    next: u32,
    right: u32,
) -> usize
    requires there { (j < count) × (2 * count ≤ length list.old) }
    requires room { 2 * length (sides keep left next right (records count list.old) j) ≤ length list.old }
    ensures value { result ≡ length (sides keep left next right (records count list.old) j) }
    ensures list_after { list.new ≡ relisted count (sides keep left next right (records count list.old) j) list.old }
{
    let at = 2 * j;
    if keep <= left as usize {
        if keep <= right as usize {
            moves::up(list, at + 2, 2 * count, next, right);
            list[at + 1] = left;
            return count + 1;
        }
        list[at + 1] = left;
        return count;
    }
    if keep <= right as usize {
        list[at] = next;
        list[at + 1] = right;
        return count;
    }
    moves::down(list, at, 2 * (count - j - 1));
    count - 1
}
