// The text program's answer: what a collection of an image finds, printed, or the number of a refusal.
#![tactic(auto)]

mod put;

ghost use Rattle.std.specs.Prelude.{◌≡◌};
ghost use Rattle.freelist.specs.Records.{intervals};
ghost use Rattle.collector.specs.Collect.{collect_told};
ghost use Rattle.report.specs.Answer.{code_lines, count_lines, lines_after, image_lines, answer, output, reports};
ghost use Rattle.report.specs.Printed.{free_lines};
ghost use Rattle.report.specs.Written.{Writes};

use crate::put::Writer;
use collector::{Collection, Refused};
use freelist::records::Record;
use freelist::{Figures, records};
use layout::{Refusal, State};

// How many bytes to lend for an answer.
pub const ANSWER_ROOM: usize = 65536;

// The answer to a text, at the front of the output buffer, and its length; 0 and no byte where the buffer is too short. (No
// `Result`: `reports` promises just these lengths.)
pub fn answer(text: &[u8], out: &mut [u8]) -> usize
    ensures { output result out.new ≡ reports text.now out.old }
{
    if out.len() < ANSWER_ROOM {
        return 0;
    }
    let mut to = Writer::new(out);
    text_lines(&mut to, text);
    to.at
}

// Reads a text, and prints the answer to its image, or the number of its first wrong line.
fn text_lines(to: &mut Writer<'_>, text: &[u8])
    ensures { Writes to.old (answer text.now) to.new }
{
    let mut roots = [0u32; 1024];
    let mut heap = [0u32; 4096];
    match image::read(text, &mut roots, &mut heap) {
        Ok(got) => image_lines(to, &heap[..got.words], got.keep, &roots[..got.roots]),
        Err(wrong) => code_lines(to, Refusal::Text.number(), wrong.line()),
    }
}

// Sets up, collects, and prints what was found. The buffers are fixed ones, since the text program has no heap.
fn image_lines(to: &mut Writer<'_>, heap: &[u32], keep: usize, roots: &[u32])
    ensures { Writes to.old (image_lines heap.now keep roots.now) to.new }
{
    let mut map = [0u32; 128];
    let mut stack = [0u32; 4095];
    let mut list = [0u32; 8190];
    let fresh = State::set_up(heap, keep, &mut map, &mut list).unwrap_or_default();
    let found = collector::collect(fresh, heap, roots, &mut map, &mut stack, &mut list);
    lines_after(to, found, &list);
}

// Prints what a collection has answered.
fn lines_after(to: &mut Writer<'_>, found: Result<Collection, Refused>, list: &[u32])
    ensures { Writes to.old (lines_after (collect_told found) list.now) to.new }
{
    match found {
        Ok(found) => found_lines(to, found, list),
        Err(refused) => code_lines(to, refused.fault.refusal.number(), refused.fault.place),
    }
}

// Surveys the list that a collection left, and prints what both have found.
fn found_lines(to: &mut Writer<'_>, found: Collection, list: &[u32])
    ensures { Writes to.old (lines_after (collect_told (Ok found)) list.now) to.new }
{
    match store::survey(found.state, list) {
        Ok(figures) => {
            count_lines(to, found, figures);
            free_lines(to, records::below(list, found.state.count));
        }
        Err(refusal) => code_lines(to, refusal.number(), 0),
    }
}

// Prints code and where, the lines that come first. (Both are numbers here, 0 for none, since numbers are printed.)
fn code_lines(to: &mut Writer<'_>, code: u32, place: usize)
    ensures { Writes to.old (code_lines code place) to.new }
{
    to.said(b"code=", code as usize);
    to.said(b"where=", place);
}

// Prints code and where of a success, the collection's counts and the survey's figures.
fn count_lines(to: &mut Writer<'_>, found: Collection, figures: Figures)
    ensures { Writes to.old (count_lines (collect_told (Ok found)) figures) to.new }
{
    code_lines(to, 0, 0);
    to.said(b"objects=", found.objects);
    to.said(b"live=", found.live);
    to.said(b"references=", found.references);
    to.said(b"peak=", found.peak);
    to.said(b"listed=", figures.listed);
    to.said(b"largest=", figures.largest);
    to.said(b"fragment=", figures.fragment);
}

// Prints a line for each interval of the list.
fn free_lines(to: &mut Writer<'_>, listed: &[Record])
    ensures { Writes to.old (free_lines (intervals listed.now)) to.new }
{
    for record in listed {
        to.free(records::interval(record));
    }
}
