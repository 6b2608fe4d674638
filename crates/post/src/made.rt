// How the posts and the table of marks are made, in the words of the traits.
ghost use Rattle.std.specs.Prelude.{◌≡◌, ◌/◌, IfOk, vec_len};
ghost use Rattle.post.specs.Marks.{holds, none, post_size};

use crate::letters::{Chains, Letter};
use crate::table::Table;
use crate::{ChainPost, Mark, MarkTable, Post, Receiver, TablePost};
use std::alloc::{AllocError, Global};

impl TablePost {
    // A post with a block for each byte of the table, at most 1,024, in which no mark waits.
    pub fn new(mut table: Vec<u8>) -> TablePost
        ensures size { ⟦<TablePost as Post>⟧.size result ≡ post_size (vec_len table) }
        ensures waits { ⟦<TablePost as Post>⟧.waits result ≡ none }
    {
        table.truncate(1024);
        TablePost {
            table: Table::new(table),
        }
    }
}

impl ChainPost {
    // A post with a block for each six letters, at most 1,024, in which no mark waits. Writes a head
    // for each block, and no letter.
    pub fn new(heap: Global, letters: Vec<Letter>) -> Result<ChainPost, AllocError>
        ensures { IfOk result (λ p. (⟦<ChainPost as Post>⟧.size p ≡ post_size (vec_len letters / 6)) × (⟦<ChainPost as Post>⟧.waits p ≡ none)) }
    {
        let chains = Chains::new(heap, letters)?;
        Ok(ChainPost { chains })
    }
}

impl MarkTable {
    // The empty set, with room for a block for each byte of the table.
    pub fn new(table: Vec<u8>) -> MarkTable
        ensures room { ⟦<MarkTable as Receiver>⟧.room result ≡ vec_len table }
        ensures got { ⟦<MarkTable as Receiver>⟧.got result ≡ none }
    {
        MarkTable {
            marks: Table::new(table),
        }
    }

    // Whether the mark is in the set.
    pub fn has(&self, mark: Mark) -> bool
        ensures { result ≡ holds (⟦<MarkTable as Receiver>⟧.got self.now) mark }
    {
        self.marks.has(mark)
    }
}
