// The two searches of the list. Each answers the place of a record, or nothing.
ghost use Rattle.std.specs.Prelude.{◌≡◌, ◌+◌, ◌<◌};
ghost use Rattle.freelist.specs.Records.{intervals};
ghost use Rattle.freelist.specs.Search.{Sorted, fitting, holder};

use crate::records::{Record, interval};
use words::wide;

// The record that an allot of s words takes: the first that has them. (Left by `break` with its number, as the rules ask, and so not
// by `position`.)
pub fn fitting(records: &[Record], s: usize) -> Option<usize>
    ensures { result ≡ fitting s (intervals records.now) }
{
    'search: {
        for (j, record) in records.iter().enumerate() {
            let size = interval(record).size;
            if s <= size {
                break 'search Some(j);
            }
        }
        None
    }
}

// The record that contains the s words from a on: the last that starts at a or before it, found by halving.
pub fn holding(records: &[Record], a: usize, s: usize) -> Option<usize>
    requires { (a + s < 4294967296) × Sorted (intervals records.now) }
    ensures { result ≡ holder a s (intervals records.now) }
{
    let behind = records.partition_point(|record| wide(record[0]) <= a);
    let j = behind.checked_sub(1)?;
    let record = interval(&records[j]);
    if a + s <= record.start + record.size {
        Some(j)
    } else {
        None
    }
}
