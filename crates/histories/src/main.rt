// Histories: a long random history of calls for each line of standard input, and what came of it printed behind the line.
#![tactic(auto)]

mod book;
mod calls;
mod player;
mod rows;
mod turn;

use std::io;

fn main(rt: HostRuntime) -> io::Result<()> {
    lines::run(&mut rt.stdin(), &mut rt.stdout(), rows::history)
}
