// Marks that wait in a post, and what takes them all. Collectors of different areas talk only by
// marks. What a post means is its size and the set of marks that wait in it, and nothing else about
// it may be known, so what is proved here over any post holds over any transport.
#![tactic(auto)]

mod blockwise;
mod letters;
mod made;
mod table;

ghost use Rattle.std.specs.Prelude.{◌≡◌, ℕ, ◌+◌, ◌≤◌, ◌==◌, Bool, true, min, max, vec_len};
ghost use Rattle.post.specs.Marks.{refusal_number, is_mark, mark_in, sent, send_answer, inside, outside, either, marks_of, Taken, AnyAt};
ghost use Rattle.post.specs.Table.{place};
ghost use Rattle.post.specs.Orders.{AnyOrder, StaysIn};

use letters::Chains;
pub use letters::Letter;
use std::ops::Range;
use table::Table;

// Names a block, an entry level and a mark level.
#[derive(Clone, Copy, PartialEq, Eq, Debug)]
pub struct Mark {
    pub block: u16,
    pub entry: u8,
    pub level: u8,
}

impl Mark {
    // Whether this is a mark of `size` blocks.
    pub fn is_of(self, size: usize) -> bool
        ensures { result ≡ mark_in size self }
    {
        1 <= self.block
            && self.block as usize <= size
            && 2 <= self.entry
            && self.entry <= self.level
            && self.level <= 4
    }

    // The place of its pair of levels among the bits of a byte: 0, 1, 2, 3, 4 or 6.
    pub(crate) fn place(self) -> u8
        requires { (2 ≤ self.entry) × (self.entry ≤ self.level) × (self.level ≤ 4) }
        ensures { result ≡ place self.entry self.level }
    {
        2 * self.entry + self.level - 6
    }
}

// Why a send is refused.
#[derive(Clone, Copy, PartialEq, Eq, Debug)]
pub enum Refusal {
    NoMark,
}

impl Refusal {
    // The number under which the refusal is reported; the product prescribes it.
    pub fn number(self) -> u8
        ensures { result ≡ refusal_number self }
    {
        match self {
            Refusal::NoMark => 15,
        }
    }
}

// A range of blocks, both ends counted. It may be any two numbers. A type of this crate's own: one
// for blocks and a plan's slots alike would be no plainer, since this crate knows no plan.
#[derive(Clone, Copy, PartialEq, Eq, Debug)]
pub struct Blocks {
    pub first: u16,
    pub last: u16,
}

impl Blocks {
    // Those of the blocks 1 to `size` that are in the range.
    pub(crate) fn among(self, size: usize) -> Range<usize>
        ensures start { result.start ≡ max self.first 1 }
        ensures end { result.end ≡ min self.last size + 1 }
    {
        (self.first as usize).max(1)..(self.last as usize).min(size) + 1
    }
}

// What a post is: a size and the set of marks that wait in it, and nothing else. Where a range names
// no block of the post, nothing waits in it.
pub trait Post {
    ghost size: { Self → ℕ };

    ghost waits: { Self → ℕ → ℕ → ℕ → Bool };

    // The number of blocks.
    fn size(&self) -> u16
        ensures { result ≡ size self.now };

    // Adds the mark; one that waits already stays once. Refuses what is no mark of the post's size.
    fn send(&mut self, mark: Mark) -> Result<(), Refusal>
        ensures answer { result ≡ send_answer (size self.old) mark }
        ensures size { size self.new ≡ size self.old }
        ensures after { waits self.new ≡ sent (size self.old) mark (waits self.old) };

    // Removes one waiting mark of the range and answers it, whichever it is, or answers none.
    fn take(&mut self, range: Blocks) -> Option<Mark>
        ensures size { size self.new ≡ size self.old }
        ensures taken { Taken range.first range.last (waits self.old) (waits self.new) result };

    // Whether a mark of that mark level waits in the range.
    fn any_at_level(&self, level: u8, range: Blocks) -> bool
        ensures { AnyAt level range.first range.last (waits self.now) result };

    ghost bounded: { (p : Self) (b m l : ℕ) → waits p b m l ≡ true → is_mark (size p) b m l ≡ true };
}

// A post that keeps its marks in a table with a byte for each block.
#[derive(Drop)]
pub struct TablePost {
    table: Table,
    ghost short: { vec_len table.bytes ≤ 1024 },
}

// A post that keeps its marks in letters: each mark has a letter of its own, so that a send never
// lacks one, and the letters that wait for a block are chained from the block's head.
#[derive(Drop)]
pub struct ChainPost {
    chains: Chains,
}

// What marks are handed on to: it gains those of the blocks that it has room for, and no others.
pub trait Receiver {
    ghost room: { Self → ℕ };

    ghost got: { Self → ℕ → ℕ → ℕ → Bool };

    fn receive(&mut self, mark: Mark)
        ensures room { room self.new ≡ room self.old }
        ensures got { got self.new ≡ sent (room self.old) mark (got self.old) };
}

// A set of marks in a table, with room for a block for each byte.
#[derive(Drop)]
pub struct MarkTable {
    marks: Table,
}

// Takes every mark that waits in the range, and hands each on. One take and one receive for each
// such mark, and one take that finds none.
pub fn drain<P: Post, R: Receiver>(post: &mut P, range: Blocks, to: &mut R)
    ensures size { P.size post.new ≡ P.size post.old }
    ensures after { P.waits post.new ≡ outside range.first range.last (P.waits post.old) }
    ensures room { R.room to.new ≡ R.room to.old }
    ensures handed { R.got to.new ≡ either (R.got to.old) (marks_of (R.room to.old) (inside range.first range.last (P.waits post.old))) }
    ensures whole { P.size post.old ≤ R.room to.old → R.got to.new ≡ either (R.got to.old) (inside range.first range.last (P.waits post.old)) }
{
    // The product prescribes the form of this loop.
    loop {
        let Some(mark) = post.take(range) else {
            break;
        };
        to.receive(mark);
    }
}

// Whichever marks the takes of a range pick, they end in the same set and hand on the same marks.
pub fn any_order()
    ensures { AnyOrder }
{}

// No mark waits in a post for a block that is none of its own.
pub fn stays_in<P: Post>(_post: &P)
    ensures { StaysIn P P.size P.waits }
{}
