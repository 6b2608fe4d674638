// Sets of marks that are kept block by block, and the calls of a post over them.
ghost use Rattle.std.specs.Prelude.{◌≡◌, ℕ, ◌-◌, ◌<◌, ◌≤◌, Bool, true};
ghost use Rattle.post.specs.Marks.{is_mark, mark_in, added, sent, send_answer, Taken, AnyAt, FoundBy};

use crate::{Blocks, Mark, Refusal};

// The index of what has that number: blocks and letters are numbered from 1.
pub(crate) fn zero_based(number: u16) -> usize
    requires { 1 ≤ number }
    ensures { result ≡ number - 1 }
{
    number as usize - 1
}

// What a post needs of the store that it keeps its marks in. A block is a number here, as in a mark: a type for the numbers
// 1 to the size would be no plainer, since each mark and each range would have to be taken apart into it. That the size stays
// stands in each call that changes a store, as in `Post`, since nothing else is known of the type.
pub(crate) trait Blockwise {
    ghost size: { Self → ℕ };

    ghost kept: { Self → ℕ → ℕ → ℕ → Bool };

    // The number of blocks.
    fn blocks(&self) -> usize
        ensures { result ≡ size self.now };

    // Adds a mark of these blocks.
    fn put(&mut self, mark: Mark)
        requires { mark_in (size self.old) mark ≡ true }
        ensures size { size self.new ≡ size self.old }
        ensures after { kept self.new ≡ added mark (kept self.old) };

    // Removes a mark of the block and answers it, or answers none.
    fn take_at(&mut self, block: u16) -> Option<Mark>
        requires { (1 ≤ block) × (block ≤ size self.old) }
        ensures size { size self.new ≡ size self.old }
        ensures taken { Taken block block (kept self.old) (kept self.new) result };

    // A mark of the block that passes the test.
    fn find_at<F: Fn(Mark) -> bool>(&self, block: u16, test: F) -> Option<Mark>
        requires block { (1 ≤ block) × (block ≤ size self.now) }
        requires callable { F.IsAlwaysCallable test }
        ensures { FoundBy (F.post test) block (kept self.now) result };

    ghost bounded: { (s : Self) (b m l : ℕ) → kept s b m l ≡ true → is_mark (size s) b m l ≡ true };

    // Adds a mark, if it is one of these blocks.
    final fn send(&mut self, mark: Mark) -> Result<(), Refusal>
        ensures answer { result ≡ send_answer (size self.old) mark }
        ensures size { size self.new ≡ size self.old }
        ensures after { kept self.new ≡ sent (size self.old) mark (kept self.old) }
    {
        if !mark.is_of(self.blocks()) {
            return Err(Refusal::NoMark);
        }
        self.put(mark);
        Ok(())
    }

    // Removes a mark of a block of the range and answers it, or answers none.
    final fn take_in(&mut self, range: Blocks) -> Option<Mark>
        ensures size { size self.new ≡ size self.old }
        ensures taken { Taken range.first range.last (kept self.old) (kept self.new) result }
    {
        // tried as `find_map`: the proof did not close, as nothing is known of a store that a closure changes
        for block in range.among(self.blocks()) {
            if let Some(mark) = self.take_at(block as u16) {
                return Some(mark);
            }
        }
        None
    }

    // Whether a mark of that mark level is kept for the block.
    final fn any_at(&self, level: u8, block: u16) -> bool
        requires { (1 ≤ block) × (block ≤ size self.now) }
        ensures { AnyAt level block block (kept self.now) result }
    {
        self.find_at(block, |mark| mark.level == level).is_some()
    }

    // Whether a mark of that mark level is kept for a block of the range.
    final fn any_in(&self, level: u8, range: Blocks) -> bool
        ensures { AnyAt level range.first range.last (kept self.now) result }
    {
        range.among(self.blocks()).any(
            |block| -> bool
                requires { (1 ≤ block) × (block ≤ size self.now) × (block < 65536) }
            { self.any_at(level, block as u16) },
        )
    }
}
