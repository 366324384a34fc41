// Why a call refuses.
ghost use Rattle.std.specs.Prelude.{◌≡◌};
ghost use Rattle.layout.specs.Refusal.{number};

// The refusals, each with its number.
#[derive(Clone, Copy, PartialEq, Eq)]
pub enum Refusal {
    // words, keep length or root list out of the limits, or a heap of another length than the state's
    Limits = 1,
    // a buffer shorter than needed
    Room,
    // a list that is not in order
    List,
    // a reference to no word of the heap
    Address,
    // a header that is not well-formed
    Header,
    // an object that overlaps another
    Overlap,
    // an object that may not be asked for
    Size,
    // no listed interval that is long enough
    Full,
    // an address where no object starts
    Object,
    // no such field
    Field,
    // a reference field given no object
    Target,
    // a text that is no image
    Text,
}

impl Refusal {
    // Its number.
    pub fn number(self) -> u32
        ensures { result ≡ number self }
    {
        self as u32
    }
}
