// An answer for each text. Before a text stands a line that gives its length in bytes and its name.
use report::ANSWER_ROOM;
use std::io;
use std::io::Write;

// Prints whether all bytes are 7 still.
fn say_kept<W: Write>(out: &mut W, junk: &[u8]) -> io::Result<()> {
    if junk.iter().all(|byte| *byte == 7) {
        out.write_all(b"kept\n")
    } else {
        out.write_all(b"changed\n")
    }
}

// Answers one text in a buffer that was full of 7s: prints the answer, and whether the bytes behind it were kept.
fn trial<W: Write>(out: &mut W, text: &[u8]) -> io::Result<()> {
    let mut answer = [7u8; ANSWER_ROOM];
    let m = report::answer(text, &mut answer);
    let (shown, behind) = answer.split_at(m);
    out.write_all(shown)?;
    say_kept(out, behind)
}

// All texts: prints the line before each, and then its answer. A loop by hand: a text may have line feeds in it, so only its length
// says where the next line begins.
pub(crate) fn all<W: Write>(out: &mut W, input: &[u8]) -> io::Result<()> {
    let mut at = 0;
    while at < input.len() {
        let line = lines::printed(out, input, at)?;
        lines::end(out)?;
        let from = line.end + 1;
        let size = line.place[0];
        let Some(text) = input.get(from..).and_then(|rest| rest.get(..size)) else {
            return Ok(());
        };
        trial(out, text)?;
        at = from + text.len();
    }
    Ok(())
}

// A buffer that is a byte too short for an answer: prints the length answered, and whether all bytes were kept.
pub(crate) fn short<W: Write>(out: &mut W) -> io::Result<()> {
    let mut answer = [7u8; ANSWER_ROOM - 1];
    let m = report::answer(b"words=1\nkeep=1\n", &mut answer);
    out.write_all(b"short")?;
    lines::gave(out, &[m])?;
    lines::end(out)?;
    say_kept(out, &answer)
}
