use cores::{Block, Window};

// What a record says.
pub(crate) enum Entry<'a> {
    Deadline(u16),
    // a worst-case time and a label
    Step(u16, &'a [u8]),
    Edge(u8, u8),
    Block(Block),
    HoldBack(Window),
    Late(u16),
}
