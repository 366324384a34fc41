// The boundary to C: numbers, and slices of words, which pass as a pointer and a length. All names begin with hx. The crate
// firmware_c exports these functions to C.
#![tactic(auto)]

mod calls;
mod lent;
mod told;

ghost use Rattle.std.specs.Prelude.{◌≡◌, false};
ghost use Rattle.layout.specs.Limits.{within, rooms_of};

pub use calls::{hx_allot, hx_collect, hx_read, hx_set_up, hx_survey, hx_write};
use layout::Rooms;

// The words of map that a heap needs; 0 only where words or keep is out of the limits. (Each figure has its function, since C calls
// them.)
pub fn hx_map_words(words: u32, keep: u32) -> u32
    ensures value { result ≡ (rooms_of words keep).map }
    ensures zero_outside { result ≡ 0 → within words keep ≡ false }
{
    let rooms = Rooms::of(words as usize, keep as usize);
    rooms.map as u32
}

// The words of stack that a heap needs; 0 where words or keep is out of the limits.
pub fn hx_stack_words(words: u32, keep: u32) -> u32
    ensures { result ≡ (rooms_of words keep).stack }
{
    let rooms = Rooms::of(words as usize, keep as usize);
    rooms.stack as u32
}

// The words of list that a heap needs; 0 where words or keep is out of the limits.
pub fn hx_list_words(words: u32, keep: u32) -> u32
    ensures { result ≡ (rooms_of words keep).list }
{
    let rooms = Rooms::of(words as usize, keep as usize);
    rooms.list as u32
}
