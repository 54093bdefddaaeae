// Plan files: records end to end, read into a plan and its blocks.
#![tactic(auto)]

mod cause;
mod decoding;
mod entry;
mod finding;
mod kind;
#[cfg(test)]
mod label_tests;
mod labels;
mod layers;
mod reader;
mod reading;
mod record;
mod records;
#[cfg(test)]
mod refusal_tests;
#[cfg(test)]
mod test_files;
#[cfg(test)]
mod tests;
mod whole;

pub use cause::{Cause, Fault};
pub use cores::Window;
pub use labels::{MOST_BLOCKS, label};
pub use layers::Layers;
pub use reading::{NO_BLOCK, read};
