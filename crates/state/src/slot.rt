//! Slots.
ghost use Rattle.std.proofs.Common.{rules};

use crate::block::Block;
use chain::Linked;

/// A slot holds a block or is free; free slots of an area are chained by `next`.
#[derive(Clone, Copy, PartialEq, Eq, Debug)]
pub struct Slot {
    pub block: Option<Block>,
    // a number, with 0 for none, as the product prescribes links
    pub next: u16,
}

impl Linked for Slot {
    ghost link = { λ s. s.next };

    ghost relinked = { λ s n. record s { next = n } };

    ghost laws = { Prim.search rules };

    fn next(&self) -> u16 {
        self.next
    }

    fn set_next(&mut self, next: u16) {
        self.next = next;
    }
}
