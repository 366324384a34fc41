// One line of a text.
ghost use Rattle.std.specs.Prelude.{◌≡◌, ◌≤◌, length, drop};
ghost use Rattle.image.specs.Lines.{first_line};

use crate::scan;

// The most bytes of a line, without the LF that ends it.
const MAX_LINE: usize = 32;

// Where the line at the front of a text ends; at 0 where no LF ends it in time. (No `Option`: such a line is an empty one.)
// It stays a call: compiled into `read`, its loop was seen to keep four counters where two do.
#[inline(never)]
fn line_end(text: &[u8]) -> usize
    ensures { (result ≤ length text.now) × (result ≡ length (first_line text.now)) }
{
    let near = &text[..text.len().min(MAX_LINE + 1)];
    scan::find(near, b'\n').unwrap_or(0)
}

// The line at a place of a text, without its LF; an empty one where no LF ends it in time.
pub(crate) fn line_in(text: &[u8], at: usize) -> &[u8]
    ensures { result.now ≡ first_line (drop at text.now) }
{
    let Some(rest) = text.get(at..) else {
        return &[];
    };
    &rest[..line_end(rest)]
}
