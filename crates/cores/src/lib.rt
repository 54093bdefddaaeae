// How many cores a job may use at each tick.
#![tactic(auto)]

mod flat;
mod hold_back;
mod ladder;
mod late;
mod supply;
#[cfg(test)]
mod tests;
mod window;

pub use flat::Flat;
pub use hold_back::HoldBack;
pub use ladder::{Block, Ladder};
pub use late::Late;
pub use supply::{Supply, WIDEST};
pub use window::Window;
