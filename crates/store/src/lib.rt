// The public calls on objects and on the list: allot, read, write, survey.
#![tactic(auto)]

mod allots;
mod fields;
mod surveys;

pub use allots::{NewObject, Refused, allot};
pub use fields::{read, write};
pub use surveys::survey;
