// States and answers in lent words.
ghost use Rattle.std.specs.Prelude.{◌≡◌, ◌≤◌, length};
ghost use Rattle.firmware.specs.Lent.{state_room, state_in, state_words, fronted};
ghost use Rattle.firmware.specs.Fits.{StateFits};

use layout::State;
use words::wide;

// How many words a state has.
pub(crate) const STATE_ROOM: usize = 3;

// The state in a buffer, whose numbers stand in words.
pub(crate) fn state_in(words: &[u32]) -> State
    requires { state_room ≤ length words.now }
    ensures value { result ≡ state_in words.now }
    ensures fits { StateFits result }
{
    State {
        words: wide(words[0]),
        keep: wide(words[1]),
        count: wide(words[2]),
    }
}

// Stores words at the front of a buffer.
pub(crate) fn put<const N: usize>(buffer: &mut [u32], words: [u32; N])
    requires { N ≤ length buffer.old }
    ensures { buffer.new ≡ fronted words.entry buffer.old }
{
    buffer[..N].copy_from_slice(&words);
}

// Stores a state at the front of a buffer.
pub(crate) fn put_state(buffer: &mut [u32], state: State)
    requires { (state_room ≤ length buffer.old) × StateFits state }
    ensures { buffer.new ≡ fronted (state_words state) buffer.old }
{
    put(
        buffer,
        [state.words as u32, state.keep as u32, state.count as u32],
    );
}
