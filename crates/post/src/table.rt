// Tables with a byte for each block, and in it a bit for each pair of an entry level and a mark level.
ghost use Rattle.std.specs.Prelude.{◌≡◌, true, vec_len};
ghost use Rattle.post.specs.Marks.{mark_in, holds, none, without};
ghost use Rattle.post.specs.Table.{kept};
ghost use Rattle.post.specs.Tables.{kept_in};

use crate::blockwise::{Blockwise, zero_based};
use crate::{Blocks, Mark, MarkTable, Post, Receiver, Refusal, TablePost};

// The pairs of an entry level and a mark level.
const PAIRS: [(u8, u8); 6] = [(2, 2), (2, 3), (3, 3), (2, 4), (3, 4), (4, 4)];

// A set of marks in a table.
#[derive(Drop)]
pub(crate) struct Table {
    pub(crate) bytes: Vec<u8>,
}

impl Table {
    // The empty set, with a block for each byte.
    pub(crate) fn new(mut bytes: Vec<u8>) -> Table
        ensures size { vec_len result.bytes ≡ vec_len bytes }
        ensures none { kept result.bytes.items ≡ none }
    {
        bytes.fill(0);
        Table { bytes }
    }

    pub(crate) fn has(&self, mark: Mark) -> bool
        ensures { result ≡ holds (kept self.now.bytes.items) mark }
    {
        mark.is_of(self.bytes.len()) && self.bytes[zero_based(mark.block)] >> mark.place() & 1 == 1
    }

    fn remove(&mut self, mark: Mark)
        requires mark { mark_in (vec_len self.old.bytes) mark ≡ true }
        requires kept { holds (kept self.old.bytes.items) mark ≡ true }
        ensures size { vec_len self.new.bytes ≡ vec_len self.old.bytes }
        ensures after { kept self.new.bytes.items ≡ without mark (kept self.old.bytes.items) }
    {
        self.bytes[zero_based(mark.block)] ^= 1 << mark.place();
    }
}

impl Blockwise for Table {
    ghost size = { λ t. vec_len t.bytes };

    ghost kept = { λ t. kept t.bytes.items };

    ghost bounded = { λ t. kept_in t.bytes };

    fn blocks(&self) -> usize {
        self.bytes.len()
    }

    fn put(&mut self, mark: Mark) {
        self.bytes[zero_based(mark.block)] |= 1 << mark.place();
    }

    fn take_at(&mut self, block: u16) -> Option<Mark> {
        let mark = self.find_at(block, |_| true)?;
        self.remove(mark);
        Some(mark)
    }

    // None at once where the block's byte is 0.
    fn find_at<F: Fn(Mark) -> bool>(&self, block: u16, test: F) -> Option<Mark> {
        if self.bytes[zero_based(block)] == 0 {
            return None;
        }
        PAIRS
            .iter()
            .map(|(entry, level)| Mark {
                block,
                entry: *entry,
                level: *level,
            })
            .find(|mark| self.has(*mark) && test(*mark))
    }
}

// Thin, and like that of the other post: a generic post over a store would put this crate's own trait
// into its public types.
impl Post for TablePost {
    ghost size = { λ p. vec_len p.table.bytes };

    ghost waits = { λ p. kept p.table.bytes.items };

    ghost bounded = { λ p. kept_in p.table.bytes };

    // Reads a length.
    fn size(&self) -> u16 {
        self.table.blocks() as u16
    }

    // Writes one byte.
    fn send(&mut self, mark: Mark) -> Result<(), Refusal> {
        self.table.send(mark)
    }

    // Reads the bytes of the range's own blocks up to the first that is not 0, and writes that one.
    fn take(&mut self, range: Blocks) -> Option<Mark> {
        self.table.take_in(range)
    }

    // Reads the bytes of the range's own blocks, at most all.
    fn any_at_level(&self, level: u8, range: Blocks) -> bool {
        self.table.any_in(level, range)
    }
}

impl Receiver for MarkTable {
    ghost room = { λ t. vec_len t.marks.bytes };

    ghost got = { λ t. kept t.marks.bytes.items };

    // Writes one byte.
    fn receive(&mut self, mark: Mark) {
        // What it has no room for is passed over.
        let _ = self.marks.send(mark);
    }
}
