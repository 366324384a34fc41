// Edges: the proved code run on the lines of standard input, and what came printed behind each.
#![tactic(auto)]

mod buffer;
mod lists;
mod rows;

use std::io;

fn main(rt: HostRuntime) -> io::Result<()> {
    lines::run(&mut rt.stdin(), &mut rt.stdout(), rows::trial)
}
