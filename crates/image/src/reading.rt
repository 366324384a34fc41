// Line by line: what the lines so far stand for, in numbers and in the words lent for roots and heap.
ghost use Rattle.std.specs.Prelude.{◌≡◌, ◌+◌, ◌≤◌, ◌<◌, List, [], length, ℕ, IfErr};
ghost use Rattle.image.specs.Image.{max_text, max_heap, max_image_roots, takes_words, takes_keep, takes_root, takes_word, takes_line, blank, read_on, text_of};
ghost use Rattle.image.specs.declared.reading.WrongText.TheVariants.{Line};
ghost use Rattle.image.specs.SoFar.{shows, shows_next, wrong_line, shows_text, Numbered, LineFits};

use crate::decimals;
use crate::reader::Reader;
use crate::so_far::SoFar;
use layout::State;

// The most bytes of a text.
const MAX_TEXT: usize = 60000;

// The most words of an image's heap.
const MAX_HEAP: usize = 4096;

// The most roots of an image.
const MAX_IMAGE_ROOTS: usize = 1024;

// Why a text is no image: it is too long, or the line of this number is the first wrong one.
#[derive(Clone, Copy, Debug, PartialEq, Eq)]
pub enum WrongText {
    TooLong,
    Line(usize),
}

impl WrongText {
    // The number of the first wrong line, or 0 where the text is too long.
    pub fn line(self) -> usize
        ensures { result ≡ wrong_line self }
    {
        match self {
            WrongText::TooLong => 0,
            WrongText::Line(number) => number,
        }
    }
}

// Before the first line.
fn none_read() -> SoFar
    ensures { (roots heap : List ℕ) → shows result roots heap ≡ blank }
{
    SoFar {
        lines: 0,
        last: 0,
        keep: 0,
        roots: 0,
        words: 0,
    }
}

// The line behind those that were read is wrong, or missing.
fn next_wrong(got: SoFar) -> WrongText
    requires { got.lines ≤ max_text }
    ensures { result ≡ Line (got.lines + 1) }
{
    WrongText::Line(got.lines + 1)
}

// The end of the text: the first two lines may not be missing.
fn finish(got: SoFar) -> Result<SoFar, WrongText>
    requires { got.lines ≤ max_text }
    ensures meaning { (roots heap : List ℕ) → shows_text result roots heap ≡ read_on (shows got roots heap) [] }
    ensures numbered { IfErr result Numbered }
{
    if got.lines < 2 {
        return Err(next_wrong(got));
    }
    Ok(got)
}

// The `words` line: so many words, all 0. (By `as`, here and below: the library has no `From` of `u32` to `usize`.)
fn take_words(mut got: SoFar, number: Option<u32>, heap: &mut [u32]) -> Option<SoFar>
    requires { max_heap ≤ length heap.old }
    ensures { (roots : List ℕ) → shows_next result roots heap.new ≡ takes_words (shows got roots heap.old) number }
{
    let words = number? as usize;
    if !((got.lines == 0) & (1 <= words) & (words <= MAX_HEAP)) {
        return None;
    }
    heap[..words].fill(0);
    got.lines = 1;
    got.words = words;
    Some(got)
}

// The `keep` line.
fn take_keep(mut got: SoFar, number: Option<u32>) -> Option<SoFar>
    ensures { (roots heap : List ℕ) → shows_next result roots heap ≡ takes_keep (shows got roots heap) number }
{
    let keep = number? as usize;
    if !((got.lines == 1) & (1 <= keep) & (keep <= State::MAX_KEEP)) {
        return None;
    }
    got.lines = 2;
    got.keep = keep;
    Some(got)
}

// A `root` line.
fn take_root(mut got: SoFar, number: Option<u32>, roots: &mut [u32]) -> Option<SoFar>
    requires { (got.lines < max_text) × (max_image_roots ≤ length roots.old) }
    ensures { (heap : List ℕ) → shows_next result roots.new heap ≡ takes_root (shows got roots.old heap) number }
{
    let root = number?;
    if !((2 <= got.lines) & (got.last == 0) & (got.roots < MAX_IMAGE_ROOTS)) {
        return None;
    }
    roots[got.roots] = root;
    got.roots += 1;
    got.lines += 1;
    Some(got)
}

// A `word` line.
fn take_word(mut got: SoFar, pair: Option<(u32, u32)>, heap: &mut [u32]) -> Option<SoFar>
    requires { (got.lines < max_text) × (max_heap ≤ length heap.old) }
    ensures { (roots : List ℕ) → shows_next result roots heap.new ≡ takes_word (shows got roots heap.old) pair }
{
    let (address, value) = pair?;
    let a = address as usize;
    if !((2 <= got.lines) & (got.last < a) & (a < got.words) & (value != 0)) {
        return None;
    }
    heap[a] = value;
    got.last = a;
    got.lines += 1;
    Some(got)
}

// One line more: its key says what the part after the equals sign is, which is lent by itself, a slice that starts in the line. (By its
// place, as the rules ask, and so not by `strip_prefix`.)
fn take(got: SoFar, line: &[u8], roots: &mut [u32], heap: &mut [u32]) -> Option<SoFar>
    requires { LineFits got roots.old heap.old }
    ensures { shows_next result roots.new heap.new ≡ takes_line (shows got roots.old heap.old) line.now }
{
    if line.starts_with(b"words=") {
        return take_words(got, decimals::decimal_of(&line[6..]), heap);
    }
    if line.starts_with(b"keep=") {
        return take_keep(got, decimals::decimal_of(&line[5..]));
    }
    if line.starts_with(b"root=") {
        return take_root(got, decimals::decimal_of(&line[5..]), roots);
    }
    if line.starts_with(b"word=") {
        return take_word(got, decimals::pair_of(&line[5..]), heap);
    }
    None
}

// The image of a text, or the number of its first wrong line. Roots and heap are lent, and what is read counts them: there is no heap
// to hold them.
pub fn read(text: &[u8], roots: &mut [u32], heap: &mut [u32]) -> Result<SoFar, WrongText>
    requires { (max_image_roots ≤ length roots.old) × (max_heap ≤ length heap.old) }
    ensures meaning { shows_text result roots.new heap.new ≡ text_of text.now }
    ensures numbered { IfErr result Numbered }
{
    if MAX_TEXT < text.len() {
        return Err(WrongText::TooLong);
    }
    let mut got = none_read();
    let mut lines = Reader::new(text, 0);
    while let Some(line) = lines.next_line() {
        got = take(got, line, roots, heap).ok_or(next_wrong(got))?;
    }
    finish(got)
}
