// Lists of at most so many values, each in a place of fixed size.
#![tactic(auto)]

mod blank;
mod list;
#[cfg(test)]
mod tests;

pub use blank::Blank;
pub use list::{FixedList, Full};
