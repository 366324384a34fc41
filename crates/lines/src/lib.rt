// Lines of numbers, read and printed: what the test programs share.
#![tactic(auto)]

ghost use Rattle.std.specs.Prelude.{◌<◌, ◌≤◌, IfOk, length};

use std::fmt::Display;
use std::io;
use std::io::{Read, Write};
use words::wide;

// A line: its first byte, or LF if it has none; the number in each place, where places are parted by a space; where it ends. What
// the number in a place is, each program names for itself.
#[derive(Clone, Copy)]
pub struct Line {
    pub kind: u8,
    pub place: [usize; 48],
    pub end: usize,
}

// A number with one more digit, or as it is where the byte is no digit or the number is large.
fn more(n: usize, byte: u8) -> usize {
    match byte {
        b'0'..=b'9' if n <= 1000000000000 => 10 * n + usize::from(byte - b'0'),
        _ => n,
    }
}

// The line that begins at `at`. Its last place has the digits of all that stands behind. (One loop, since a line would be gone over
// three times by `position`, `split` and `fold`.)
pub fn line_at(text: &[u8], at: usize) -> Line
    requires { at < length text.now }
    ensures { (at ≤ result.end) × (result.end ≤ length text.now) }
{
    let rest = &text[at..];
    let mut place = [0; 48];
    let mut k = 0;
    for (size, byte) in rest.iter().enumerate() {
        match *byte {
            b'\n' => {
                return Line {
                    kind: text[at],
                    place,
                    end: at + size,
                };
            }
            b' ' => k = (k + 1).min(47),
            b'0'..=b'9' => place[k] = more(place[k], *byte),
            _ => {}
        }
    }
    Line {
        kind: text[at],
        place,
        end: text.len(),
    }
}

// The line that begins at `at`, as it was printed.
pub fn printed<W: Write>(out: &mut W, text: &[u8], at: usize) -> io::Result<Line>
    requires { at < length text.now }
    ensures { IfOk result (λ line. (at ≤ line.end) × (line.end ≤ length text.now)) }
{
    let line = line_at(text, at);
    let end = line.end;
    out.write_all(&text[at..end])?;
    Ok(line)
}

// Reads up to 65,536 bytes, prints each line of them, and lets `trial` print what came behind it: what most of the test programs
// are.
pub fn run<R: Read, W: Write, F: FnMut(&mut W, &Line) -> io::Result<()>>(
    from: &mut R,
    out: &mut W,
    mut trial: F,
) -> io::Result<()>
    requires { F.IsAlwaysCallable trial }
{
    let mut text = [0u8; 65536];
    let n = read_full(from, &mut text)?;
    for part in text[..n].split_inclusive(|byte| *byte == b'\n') {
        let line = printed(out, part, 0)?;
        trial(out, &line)?;
        end(out)?;
    }
    Ok(())
}

// Reads until the buffer is full or the input ends, and answers how many bytes came. A loop by hand: no method of the library stops
// at the first of both.
pub fn read_full<R: Read>(from: &mut R, text: &mut [u8]) -> io::Result<usize>
    ensures { IfOk result (λ n. n ≤ length text.new) }
{
    let mut count = 0;
    while count < text.len() {
        let more = from.read(&mut text[count..])?;
        if more == 0 {
            break;
        }
        count += more;
    }
    Ok(count)
}

// Prints " gave" and the numbers that came.
pub fn gave<W: Write>(out: &mut W, came: &[usize]) -> io::Result<()> {
    out.write_all(b" gave")?;
    numbers(out, came, b" ")
}

// Ends a line.
pub fn end<W: Write>(out: &mut W) -> io::Result<()> {
    out.write_all(b"\n")
}

// Prints numbers, each behind a space.
pub fn numbers<W: Write, T: Display>(out: &mut W, came: &[T], space: &[u8]) -> io::Result<()> {
    for n in came {
        out.write_all(space)?;
        write!(out, "{n}")?;
    }
    Ok(())
}

// A sum with one number more, in which each place has a weight of its own.
fn one_more(sum: usize, n: usize) -> usize {
    (sum % 1000003 * 31 + n % 1000003) % 1000003
}

// A sum with more numbers.
pub fn sum_on(sum: usize, came: &[usize]) -> usize {
    came.iter().copied().fold(sum, one_more)
}

// A sum over the words of a list: the same fold over words, which are no `Into<usize>`.
pub fn sum(list: &[u32]) -> usize {
    list.iter().copied().map(wide).fold(0, one_more)
}

// Prints a sum over the words of a list and, of a short list, all of them.
pub fn buffer<W: Write>(out: &mut W, list: &[u32]) -> io::Result<()> {
    numbers(out, &[sum(list)], b" ")?;
    if list.len() <= 40 {
        numbers(out, list, b" ")?;
    }
    Ok(())
}
