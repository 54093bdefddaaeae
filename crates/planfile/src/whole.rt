use crate::layers::Layers;
use graph::Plan;

// What a whole file says: its plan, how many places of the block list it fills, and its layers.
#[derive(Drop)]
pub(crate) struct Whole {
    pub(crate) plan: Plan,
    pub(crate) filled: usize,
    pub(crate) layers: Layers,
}
