// Which of the ready steps runs next.
#![tactic(auto)]

mod lowest;
mod policy;
mod ranked;
mod round;
#[cfg(test)]
mod tests;

pub use lowest::Lowest;
pub use policy::{NO_STEP, Policy};
pub use ranked::Ranked;
pub use round::Round;
