// What single words hold: a number, the parts of a header, the bits of the map.
#![tactic(auto)]

pub mod bits;
mod header;

ghost use Rattle.std.specs.Prelude.{◌≡◌, ◌<◌};

pub use header::Header;

// A word as a number. (The library has no `From` for the two types.)
pub fn wide(word: u32) -> usize
    ensures { (result ≡ word) × (result < 4294967296) }
{
    word as usize
}
