// The public call `survey`.
ghost use Rattle.std.specs.Prelude.{◌≡◌};
ghost use Rattle.store.specs.Survey.{survey_told, surveys};

use freelist::{Figures, records};
use layout::{Refusal, Rooms, State};

// The figures of the list, or a refusal. No heap is lent, and the list may be longer than needed, as C lends it.
pub fn survey(state: State, list: &[u32]) -> Result<Figures, Refusal>
    ensures { survey_told result ≡ surveys state list.now }
{
    let words = state.words;
    let keep = state.keep;
    let count = state.count;
    let rooms = Rooms::needed(words, keep)?;
    let n = rooms.list;
    if list.len() < n {
        return Err(Refusal::Room);
    }
    let part = &list[..n];
    if !records::are_valid(part, count, words, keep) {
        return Err(Refusal::List);
    }
    Ok(Figures::of(records::below(part, count)))
}
