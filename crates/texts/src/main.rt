// Texts: the text program's answer, run on the texts of standard input, and what it left printed behind each.
#![tactic(auto)]

mod cases;

use std::io;

// Not by `lines::run`: there are texts between the lines.
fn main(rt: HostRuntime) -> io::Result<()> {
    let mut input = vec![in rt.alloc(); 0u8; 524288]?;
    let n = lines::read_full(&mut rt.stdin(), &mut input)?;
    let mut out = rt.stdout();
    cases::all(&mut out, &input[..n])?;
    cases::short(&mut out)
}
