// Steps, sets of steps, plans, measures and the walk.
#![tactic(auto)]

mod ancestors;
mod draft;
mod drafting;
mod edge;
mod finishing;
mod graph;
mod length;
mod measure;
mod measured;
mod plan;
#[cfg(test)]
mod plan_tests;
mod questions;
mod refusal;
mod step_set;
mod steps;
#[cfg(test)]
mod tests;
mod walk;

pub use ancestors::Ancestors;
pub use draft::Draft;
pub use graph::{LONGEST, MOST_STEPS};
pub use length::Length;
pub use measure::Measure;
pub use plan::Plan;
pub use refusal::Refusal;
pub use step_set::StepSet;
pub use steps::Steps;
