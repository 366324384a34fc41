// How much of a buffer's junk, which is 7 in every word, is gone.

// How many words at the front are those of `laid`, and then zeros, if all behind them is junk.
pub(crate) fn written_over(words: &[u32], laid: [u32; 2]) -> Option<usize> {
    let n = words
        .iter()
        .enumerate()
        .position(|(i, word)| *word != laid.get(i).copied().unwrap_or(0))
        .unwrap_or(words.len());
    let is_junk = words.iter().skip(n).all(|word| *word == 7);
    is_junk.then_some(n)
}
