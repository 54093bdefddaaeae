// What the firmware answers, without heap and without the formatting of the standard library.
#![tactic(auto)]

mod certifying;
mod file_cores;
#[cfg(test)]
mod file_tests;
mod layout;
#[cfg(test)]
mod tests;
mod text;

pub use certifying::{certify_file, vaxerku_certify};
pub use file_cores::FileCores;
pub use layout::lay_out;
pub use text::{TEXT_SIZE, Text};
