//! The words of blocks and registers.

/// A number below 2^32, or a pointer to the block in a slot.
#[derive(Clone, Copy, PartialEq, Eq, Debug)]
pub enum Word {
    Number(u32),
    Pointer(u16),
}
