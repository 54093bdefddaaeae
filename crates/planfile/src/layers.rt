// What a file lays over the ladder of its blocks.
use cores::Window;

// The hold-back, and how many ticks into the ladder the job begins, where the file has them.
#[derive(Clone, Copy, PartialEq, Eq, Debug, Default)]
pub struct Layers {
    pub hold_back: Option<Window>,
    pub late: Option<u16>,
}
