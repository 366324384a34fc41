// Collections: `collect` run on the lines of standard input, one collection a line, and what came printed behind it.
#![tactic(auto)]

mod rows;

use std::io;

fn main(rt: HostRuntime) -> io::Result<()> {
    lines::run(&mut rt.stdin(), &mut rt.stdout(), rows::trial)
}
