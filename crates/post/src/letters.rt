// Posts with a letter for each waiting mark, in a chain of letters for each block.
ghost use Rattle.std.specs.Prelude.{◌≡◌, ◌*◌, ◌/◌, ◌≤◌, true, IfOk, vec_len};
ghost use Rattle.std.proofs.Common.{rules};
ghost use Rattle.post.specs.Marks.{mark_in, none, post_size};
ghost use Rattle.post.specs.Letters.{letter_for, Tidy, posted};
ghost use Rattle.post.specs.Posted.{posted_in};

use crate::blockwise::{Blockwise, zero_based};
use crate::{Blocks, ChainPost, Mark, Post, Refusal};
use chain::{Linked, put_first, take_first, visited};
use std::alloc::{AllocError, Global};

// What a mark waits in: its entry level and mark level, and the number of the next letter for its block, or 0, as the
// product prescribes links.
#[derive(Clone, Copy, PartialEq, Eq, Debug)]
pub struct Letter {
    pub entry: u8,
    pub level: u8,
    pub next: u16,
}

impl Letter {
    // The mark of the block that waits in the letter.
    fn mark_of(self, block: u16) -> Mark
        ensures { result ≡ record { block = block; entry = self.entry; level = self.level } }
    {
        Mark {
            block,
            entry: self.entry,
            level: self.level,
        }
    }
}

impl Linked for Letter {
    ghost link = { λ x. x.next };

    ghost relinked = { λ x n. record x { next = n } };

    ghost laws = { Prim.search rules };

    fn next(&self) -> u16 {
        self.next
    }

    fn set_next(&mut self, next: u16) {
        self.next = next;
    }
}

// The number of the letter that is the mark's own.
fn letter_of(mark: Mark) -> u16
    requires { mark_in 1024 mark ≡ true }
    ensures { result ≡ letter_for mark }
{
    let pair = mark.place().min(5);
    6 * (mark.block - 1) + pair as u16 + 1
}

// The heads of the blocks' chains, and six letters for each block. The product prescribes letters that are handed in and
// chained by their numbers.
#[derive(Drop)]
pub(crate) struct Chains {
    heads: Vec<u16>,
    letters: Vec<Letter>,
    ghost short: { vec_len heads ≤ 1024 },
    ghost room: { 6 * vec_len heads ≤ vec_len letters },
    ghost tidy: { Tidy heads.items letters.items },
}

impl Chains {
    // Chains of no letters, with a block for each six letters, at most 1,024. Writes a head for each
    // block, and no letter.
    pub(crate) fn new(heap: Global, letters: Vec<Letter>) -> Result<Chains, AllocError>
        ensures size { IfOk result (λ c. vec_len c.heads ≡ post_size (vec_len letters / 6)) }
        ensures none { IfOk result (λ c. posted c.heads.items c.letters.items ≡ none) }
    {
        let size = (letters.len() / 6).min(1024);
        let heads = vec![in heap; 0; size]?;
        Ok(Chains { heads, letters })
    }
}

impl Blockwise for Chains {
    ghost size = { λ c. vec_len c.heads };

    ghost kept = { λ c. posted c.heads.items c.letters.items };

    ghost bounded = { λ c. posted_in c.heads c.letters.items };

    fn blocks(&self) -> usize {
        self.heads.len()
    }

    // Puts the mark's letter first in the chain of its block, unless it waits there already. Looks
    // through that chain only, which has at most six letters.
    fn put(&mut self, mark: Mark) {
        if self.find_at(mark.block, |other| other == mark).is_some() {
            return;
        }
        let i = letter_of(mark);
        self.letters[zero_based(i)] = Letter {
            entry: mark.entry,
            level: mark.level,
            next: 0,
        };
        put_first(
            &mut self.letters,
            &mut self.heads[zero_based(mark.block)],
            i,
        );
    }

    // Takes the first letter off the block's chain.
    fn take_at(&mut self, block: u16) -> Option<Mark> {
        let i = take_first(&self.letters, &mut self.heads[zero_based(block)])?;
        Some(self.letters[zero_based(i)].mark_of(block))
    }

    // Looks through the block's chain, which has at most six letters.
    fn find_at<F: Fn(Mark) -> bool>(&self, block: u16, test: F) -> Option<Mark> {
        visited(&self.letters, self.heads[zero_based(block)])
            .map(|(_, letter)| letter.mark_of(block))
            .find(|mark| test(*mark))
    }
}

// Thin, and like that of the other post: a generic post over a store would put this crate's own trait
// into its public types.
impl Post for ChainPost {
    ghost size = { λ p. vec_len p.chains.heads };

    ghost waits = { λ p. posted p.chains.heads.items p.chains.letters.items };

    ghost bounded = { λ p. posted_in p.chains.heads p.chains.letters.items };

    // Reads a length.
    fn size(&self) -> u16 {
        self.chains.blocks() as u16
    }

    // Looks through the letters that wait for the mark's own block, at most six.
    fn send(&mut self, mark: Mark) -> Result<(), Refusal> {
        self.chains.send(mark)
    }

    // Reads the heads of the range's own blocks up to the first that has a letter.
    fn take(&mut self, range: Blocks) -> Option<Mark> {
        self.chains.take_in(range)
    }

    // Reads the heads of the range's own blocks and the letters chained there, at most six for each.
    fn any_at_level(&self, level: u8, range: Blocks) -> bool {
        self.chains.any_in(level, range)
    }
}
