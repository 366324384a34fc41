// The free list as it stands in lent words: its records, its check, the two searches, and the survey's figures.
#![tactic(auto)]

mod figures;
pub mod records;
pub mod search;

pub use figures::Figures;
