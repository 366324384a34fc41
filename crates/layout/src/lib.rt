// What a caller lends and hands in: limits, room figures, the state and set-up.
#![tactic(auto)]

pub mod parts;
mod refusal;

ghost use Rattle.std.specs.Prelude.{◌≡◌, true, length};
ghost use Rattle.layout.specs.Intervals.{shown};
ghost use Rattle.layout.specs.Limits.{within, list_words, rooms_of, needed, fitted};
ghost use Rattle.layout.specs.SetUp.{prepared, first_list, set_up_told, sets_up};

pub use refusal::Refusal;

// How many words of map, stack and list a heap needs.
#[derive(Clone, Copy, Default)]
pub struct Rooms {
    pub map: usize,
    pub stack: usize,
    pub list: usize,
}

impl Rooms {
    // The rooms for a heap of so many words with such a keep length; all are 0 out of the limits, the map's only then.
    // (Zeros in place of an `Err`, since what C asks for is numbers, with this very meaning.)
    pub fn of(words: usize, keep: usize) -> Rooms
        ensures { result ≡ rooms_of words keep }
    {
        Rooms::needed(words, keep).unwrap_or_default()
    }

    // The rooms for a heap within the limits. Words and keep length come as two numbers, as C has them before there is a state.
    pub fn needed(words: usize, keep: usize) -> Result<Rooms, Refusal>
        ensures { result ≡ needed words keep }
    {
        if !((1 <= words) & (words <= State::MAX_WORDS) & (1 <= keep) & (keep <= State::MAX_KEEP)) {
            return Err(Refusal::Limits);
        }
        let map = (words + 31) / 32;
        let stack = (words - 1) / keep;
        let list = 2 * stack;
        Ok(Rooms { map, stack, list })
    }
}

// An interval of the list: its first word, and how many words it has.
#[derive(Clone, Copy)]
pub struct Interval {
    pub start: usize,
    pub size: usize,
}

// What a caller hands in and gets back: the heap's words, the keep length and the list's count. By default it is that of a refused
// set-up, zeros.
#[derive(Clone, Copy, Default)]
pub struct State {
    pub words: usize,
    pub keep: usize,
    pub count: usize,
}

impl State {
    // The most words that a heap has.
    pub const MAX_WORDS: usize = 65536;

    // The greatest keep length.
    pub const MAX_KEEP: usize = 65535;

    // Sets a heap up with no object on it: clears map and list, and lists all words but word 0. The buffers may be longer than
    // needed, as C lends them.
    pub fn set_up(
        heap: &[u32],
        keep: usize,
        map: &mut [u32],
        list: &mut [u32],
    ) -> Result<State, Refusal>
        ensures { prepared (set_up_told result) map.new list.new ≡ sets_up heap.now keep map.old list.old }
    {
        let words = heap.len();
        let rooms = Rooms::needed(words, keep)?;
        let m = rooms.map;
        let n = rooms.list;
        if map.len() < m {
            return Err(Refusal::Room);
        }
        if list.len() < n {
            return Err(Refusal::Room);
        }
        parts::clear(&mut map[..m]);
        let count = first_list(words, keep, &mut list[..n]);
        Ok(State { words, keep, count })
    }

    // The rooms for the heap that is lent with the state, if it has the state's words.
    pub fn rooms(self, heap: &[u32]) -> Result<Rooms, Refusal>
        ensures { result ≡ fitted self heap.now }
    {
        let rooms = Rooms::needed(self.words, self.keep)?;
        if heap.len() == self.words {
            Ok(rooms)
        } else {
            Err(Refusal::Limits)
        }
    }
}

// Writes the first list over the needed part of the list, and answers how many intervals it has.
pub fn first_list(words: usize, keep: usize, list: &mut [u32]) -> usize
    requires { (within words keep ≡ true) × (length list.old ≡ list_words words keep) }
    ensures value { result ≡ length (first_list words keep) }
    ensures list_after { list.new ≡ shown (list_words words keep) (first_list words keep) }
{
    parts::clear(list);
    let all = words - 1;
    if all < keep {
        return 0;
    }
    list[0] = 1;
    list[1] = all as u32;
    1
}
