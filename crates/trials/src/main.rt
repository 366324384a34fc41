// Trials: collections of many random images, each compared with what a mark-sweep written separately finds.
#![tactic(auto)]

mod book;
mod compare;
mod difference;
mod groups;
mod images;
mod marks;
mod sweep;

use groups::GROUPS;
use std::io;

// Where the random numbers begin.
const SEED: usize = 20260716;

// Prints the seed, tries all groups, and shows that each comparison can fail.
fn main(rt: HostRuntime) -> io::Result<()> {
    let alloc = rt.alloc();
    let mut out = rt.stdout();
    lines::numbers(&mut out, &[SEED], b"seed ")?;
    lines::end(&mut out)?;
    let mut row = SEED;
    for group in &GROUPS {
        groups::run(&mut out, alloc, group, &mut row)?;
    }
    difference::show(&mut out, alloc)
}
