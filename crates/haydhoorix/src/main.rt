// The text program: an image on standard input, and what a collection of it finds on standard output.
#![tactic(auto)]

use report::ANSWER_ROOM;
use std::io::Write;

// A text has at most 60,000 bytes, so one more is enough to know that it is too long. There is no heap, so the buffers are fixed.
fn main(rt: HostRuntime) {
    let mut text = [0u8; 60001];
    let Ok(n) = lines::read_full(&mut rt.stdin(), &mut text) else {
        let _ = eprintln!(rt; "haydhoorix: standard input cannot be read");
        return;
    };
    let mut out = [0u8; ANSWER_ROOM];
    let m = report::answer(&text[..n], &mut out);
    if rt.stdout().write_all(&out[..m]).is_err() {
        let _ = eprintln!(rt; "haydhoorix: standard output cannot be written");
    }
}
