// The marking test: whether every marking of a job's ticks yields its work, and whether a plan is certified.
#![tactic(auto)]

mod certificate;
mod levels;
mod marking_test;
#[cfg(test)]
mod tests;

pub use certificate::{Certificate, NotCertified, certify};
pub use marking_test::MarkingTest;
