// Records of the list: two words each, start and size.
ghost use Rattle.std.specs.Prelude.{◌≡◌, ◌+◌, ◌*◌, ◌≤◌, ◌<◌, length};
ghost use Rattle.layout.specs.Limits.{list_words};
ghost use Rattle.freelist.specs.Records.{record_at, intervals, records, valid_list};

use layout::Interval;
use words::wide;

// A record as it stands in the list: start and size.
pub type Record = [u32; 2];

// The records below the count.
pub fn below(list: &[u32], count: usize) -> &[Record]
    requires { 2 * count ≤ length list.now }
    ensures { intervals result.now ≡ records count list.now }
{
    let (pairs, _) = list.as_chunks::<2>();
    &pairs[..count]
}

// The interval of a record.
pub fn interval(record: &Record) -> Interval
    ensures value { result ≡ record_at record.now 0 }
    ensures small { (result.start < 4294967296) × (result.size < 4294967296) }
{
    let [start, size] = *record;
    Interval {
        start: wide(start),
        size: wide(size),
    }
}

// The interval in record j.
pub fn at(list: &[u32], j: usize) -> Interval
    requires { 2 * j + 2 ≤ length list.now }
    ensures value { result ≡ record_at list.now j }
    ensures small { (result.start < 4294967296) × (result.size < 4294967296) }
{
    let at = 2 * j;
    interval(&[list[at], list[at + 1]])
}

// Whether the count and the records below it pass refusal 3, in one pass that looks at nothing past the count.
pub fn are_valid(list: &[u32], count: usize, words: usize, keep: usize) -> bool
    requires { length list.now ≡ list_words words keep }
    ensures { result ≡ valid_list words keep count list.now }
{
    if list.len() / 2 < count {
        return false;
    }
    let mut end = 0;
    for record in below(list, count) {
        let record = interval(record);
        let start = record.start;
        let size = record.size;
        let next = start + size;
        if !((end < start) & (keep <= size) & (next <= words)) {
            return false;
        }
        end = next;
    }
    true
}
