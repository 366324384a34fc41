// The survey's figures.
ghost use Rattle.std.specs.Prelude.{◌≡◌, ◌≤◌, ◌<◌};
ghost use Rattle.runs.specs.Lists.{listed};
ghost use Rattle.freelist.specs.Records.{intervals};
ghost use Rattle.freelist.specs.Figures.{fragment_of, figures_of};

use crate::records::{Record, interval};

// Listed words, the words of the largest interval, and how far the list is fragmented, in thousandths.
#[derive(Clone, Copy, Default)]
pub struct Figures {
    pub listed: usize,
    pub largest: usize,
    pub fragment: usize,
}

impl Figures {
    // The figures of the records.
    pub fn of(records: &[Record]) -> Figures
        requires { listed (intervals records.now) < 65536 }
        ensures { result ≡ figures_of (intervals records.now) }
    {
        let mut listed = 0;
        let mut largest = 0;
        for record in records {
            let size = interval(record).size;
            listed += size;
            largest = largest.max(size);
        }
        let fragment = fragment(listed, largest);
        Figures {
            listed,
            largest,
            fragment,
        }
    }
}

// The thousandths of the listed words that lie outside the largest interval, rounded up; 0 where nothing is listed.
fn fragment(listed: usize, largest: usize) -> usize
    requires { (largest ≤ listed) × (listed < 65536) }
    ensures { result ≡ fragment_of listed largest }
{
    if listed == 0 {
        return 0;
    }
    1000 - 1000 * largest / listed
}
