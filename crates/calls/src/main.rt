// Calls: histories of calls run on the lines of standard input, one call a line, and what came printed behind it.
#![tactic(auto)]

mod each;
mod rows;

use std::io;

fn main(rt: HostRuntime) -> io::Result<()> {
    let alloc = rt.alloc();
    let mut lent = None;
    lines::run(&mut rt.stdin(), &mut rt.stdout(), |out, line| {
        rows::run(alloc, out, &mut lent, line)
    })
}
