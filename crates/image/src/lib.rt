// The text form of an image: lines, decimals, pairs, and the heap and the roots that a text stands for.
#![tactic(auto)]

mod decimals;
mod line;
mod reader;
mod reading;
mod scan;
mod so_far;

pub use reading::{WrongText, read};
pub use so_far::SoFar;
