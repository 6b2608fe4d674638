//! Blocks, and holds on them.
ghost use Rattle.std.specs.Prelude.{◌≡◌};
ghost use Rattle.state.specs.Holds.{hold_on, held_block, given_back, unheld_block};

use crate::refusal::Refusal;
use crate::word::Word;

/// White blocks are recovered at the end of a round; grey ones are reached and still to be scanned; black ones are scanned.
#[derive(Clone, Copy, PartialEq, Eq, Debug)]
pub enum Colour {
    White,
    Grey,
    Black,
}

/// That pointers of one level come into the block from outside: a mark for each level from 2 on (those below the entry's own
/// level are never set).
#[derive(Clone, Copy, PartialEq, Eq, Debug)]
pub struct Entry {
    pub marks: [bool; 3],
}

/// A block of up to eight words. It has at most one inward entry for each level from 2 on, and so many holds.
#[derive(Clone, Copy, PartialEq, Eq, Debug)]
pub struct Block {
    // the product prescribes blocks of at most eight words, in slots of a fixed size: the first `size` words are the block's
    pub size: u8,
    pub words: [Word; 8],
    pub colour: Colour,
    pub entries: [Option<Entry>; 3],
    pub holds: u8,
}

/// A hold keeps a block reachable. It is a token: it can be neither copied nor let go, and only giving it back spends it.
pub struct Hold {
    block: u16,
}

impl Hold {
    /// The block that is held.
    pub fn block(&self) -> u16
        ensures { result ≡ self.now.block }
    {
        self.block
    }
}

impl Block {
    /// One hold more on this block, which lies in slot `block`; refused where it has 255.
    pub fn hold(&mut self, block: u16) -> Result<Hold, Refusal>
        ensures answer { result ≡ hold_on self.old block }
        ensures after { self.new ≡ held_block self.old }
    {
        self.holds = self.holds.checked_add(1).ok_or(Refusal::TooManyHolds)?;
        Ok(Hold { block })
    }

    /// Gives a hold back to this block; where it has none the hold comes back.
    pub fn give_back(&mut self, hold: Hold) -> Result<(), (Refusal, Hold)>
        ensures answer { result ≡ given_back self.old hold }
        ensures after { self.new ≡ unheld_block self.old }
    {
        // no `ok_or`, which would take the hold, and a hold can't be let go
        let Some(holds) = self.holds.checked_sub(1) else {
            return Err((Refusal::NoHold, hold));
        };
        self.holds = holds;
        let Hold { block: _ } = hold;
        Ok(())
    }
}
