// Drives a table post and a chain post with the same calls, at the edges and at random, and says
// where they differ.
#![tactic(auto)]

ghost use Rattle.std.specs.Prelude.{◌<◌};

use post::{Blocks, ChainPost, Letter, Mark, MarkTable, Post, TablePost, drain};
use std::alloc::{AllocError, Global};
use std::{array, io};

const BLOCKS: u8 = 9;

// The blocks that are tried: those of the posts, and one more at either end.
const TRIED: u16 = BLOCKS as u16 + 2;

const CALLS: u32 = 4000;

// Marks whose answers differ on a post of three blocks.
const EDGE_MARKS: [(u16, u8, u8); 10] = [
    (0, 2, 2),
    (1, 2, 2),
    (3, 3, 4),
    (4, 2, 2),
    (65535, 2, 2),
    (1, 1, 2),
    (2, 3, 2),
    (3, 4, 4),
    (2, 2, 5),
    (2, 255, 255),
];

// Levels, each with a first and a last block.
const EDGE_LEVELS: [(u8, u16, u16); 8] = [
    (2, 1, 1),
    (3, 0, 65535),
    (4, 0, 65535),
    (4, 3, 1),
    (4, 4, 65535),
    (0, 0, 65535),
    (255, 0, 65535),
    (2, 0, 0),
];

// First and last blocks.
const EDGE_RANGES: [(u16, u16); 9] = [
    (0, 0),
    (3, 1),
    (2, 2),
    (4, 65535),
    (0, 1),
    (1, 1),
    (3, 3),
    (0, 65535),
    (0, 65535),
];

const ALL: Blocks = Blocks {
    first: 0,
    last: 65535,
};

fn blocks(first: u16, last: u16) -> Blocks {
    Blocks { first, last }
}

fn table_post(heap: Global, bytes: usize) -> Result<TablePost, AllocError> {
    Ok(TablePost::new(vec![in heap; 255; bytes]?))
}

fn chain_post(heap: Global, letters: usize) -> Result<ChainPost, AllocError> {
    let used = Letter {
        entry: 2,
        level: 2,
        next: 1,
    };
    ChainPost::new(heap, vec![in heap; used; letters]?)
}

fn mark(block: u16, entry: u8, level: u8) -> Mark {
    Mark {
        block,
        entry,
        level,
    }
}

// Every pair of an entry level and a mark level, and what is nearly one. They are tried on each block.
fn pairs() -> [(u8, u8); 36] {
    array::from_fn(|i| ((i / 6 % 6) as u8, (i % 6) as u8))
}

// A linear congruential generator.
#[derive(Drop)]
struct Numbers(u32);

impl Numbers {
    fn below(&mut self, limit: u8) -> u8
        requires { 0 < limit }
        ensures { result < limit }
    {
        self.0 = self.0.wrapping_mul(1_664_525).wrapping_add(1_013_904_223);
        ((self.0 >> 16) % limit as u32) as u8
    }

    // A mark, or what is nearly one.
    fn candidate(&mut self) -> Mark {
        let block = self.below(BLOCKS + 2) as u16;
        let entry = self.below(4) + 1;
        let level = self.below(4) + 2;
        mark(block, entry, level)
    }
}

// Inlined, so that the search for a mark is compiled for the range where that is known.
#[inline]
fn drained<P: Post>(heap: Global, post: &mut P, range: Blocks) -> Result<MarkTable, AllocError> {
    let mut marks = MarkTable::new(vec![in heap; 255; 1024]?);
    drain(post, range, &mut marks);
    Ok(marks)
}

// How many marks of the blocks below `blocks` are in the table.
fn count(marks: &MarkTable, blocks: u16) -> usize {
    (0..blocks).fold(0usize, |total, block| {
        let found = pairs()
            .iter()
            .filter(|(entry, level)| marks.has(mark(block, *entry, *level)))
            .count();
        total.saturating_add(found)
    })
}

// A post of three blocks at its edges.
fn edges<P: Post>(rt: &HostRuntime, post: &mut P) -> io::Result<()> {
    print!(rt; "  answers:")?;
    for (block, entry, level) in EDGE_MARKS {
        match post.send(mark(block, entry, level)) {
            Ok(()) => print!(rt; " 0")?,
            Err(refusal) => print!(rt; " {}", refusal.number())?,
        }
    }
    println!(rt; "")?;
    print!(rt; "  any:")?;
    for (level, first, last) in EDGE_LEVELS {
        print!(rt; " {}", post.any_at_level(level, blocks(first, last)))?;
    }
    println!(rt; "")?;
    print!(rt; "  takes:")?;
    for (first, last) in EDGE_RANGES {
        match post.take(blocks(first, last)) {
            Some(mark) => print!(rt; " block {}", mark.block)?,
            None => print!(rt; " none")?,
        }
    }
    println!(rt; "")
}

// Every mark is sent twice, and all are taken out.
fn fill<P: Post>(rt: &HostRuntime, post: &mut P) -> io::Result<()> {
    let mut sent = 0u32;
    for _ in 0..2 {
        for block in 0..post.size().saturating_add(2) {
            for (entry, level) in pairs() {
                if post.send(mark(block, entry, level)).is_ok() {
                    sent = sent.saturating_add(1);
                }
            }
        }
    }
    let size = post.size();
    let handed = count(&drained(rt.alloc(), post, ALL)?, 1026);
    let left = post.take(ALL).is_some();
    println!(rt; "  size {size}: accepted {sent}, handed on {handed}, left {left}")
}

// Two posts that get the same calls.
#[derive(Drop)]
struct Pair<P, Q> {
    heap: Global,
    one: P,
    other: Q,
}

impl<P: Post, Q: Post> Pair<P, Q> {
    fn same_levels(&self) -> bool {
        (0..TRIED).all(|block| {
            let range = blocks(block, block);
            (0..6).all(|level| {
                self.one.any_at_level(level, range) == self.other.any_at_level(level, range)
            })
        })
    }

    // Drains both: how many marks come out of one, and whether they come out of the other. Both are reported.
    fn drain(&mut self, range: Blocks) -> Result<(usize, bool), AllocError> {
        let marks = drained(self.heap, &mut self.one, range)?;
        let others = drained(self.heap, &mut self.other, range)?;
        let same = (0..TRIED).all(|block| {
            pairs().iter().all(|(entry, level)| {
                let mark = mark(block, *entry, *level);
                marks.has(mark) == others.has(mark)
            })
        });
        Ok((count(&marks, TRIED), same))
    }

    // Takes a mark from one and the same mark from the other, which may pick another by itself: all
    // marks of its block are taken there, and the rest sent again.
    fn take(&mut self, range: Blocks) -> Result<bool, AllocError> {
        let Some(taken) = self.one.take(range) else {
            return Ok(self.other.take(range).is_none());
        };
        let marks = drained(self.heap, &mut self.other, blocks(taken.block, taken.block))?;
        for (entry, level) in pairs() {
            let mark = mark(taken.block, entry, level);
            if mark != taken && marks.has(mark) {
                let _ = self.other.send(mark);
            }
        }
        Ok(marks.has(taken) && (range.first..=range.last).contains(&taken.block))
    }
}

// One long list of calls on both posts.
fn alike<P: Post, Q: Post>(rt: &HostRuntime, pair: &mut Pair<P, Q>) -> io::Result<()> {
    let mut numbers = Numbers(1);
    let mut refused = 0u32;
    let mut handed = 0usize;
    let mut differ = 0u32;
    for _ in 0..CALLS {
        let call = numbers.below(16);
        let range = Blocks {
            first: numbers.below(BLOCKS + 2) as u16,
            last: numbers.below(BLOCKS + 4) as u16,
        };
        // a number, since it is drawn: of sixteen, one drains, three take and the others send; an enum would be made of it
        // only to be matched at once
        let same = match call {
            0 => {
                let (count, same) = pair.drain(range)?;
                handed = handed.saturating_add(count);
                same
            }
            1..=3 => pair.take(range)?,
            _ => {
                let mark = numbers.candidate();
                let answer = pair.one.send(mark);
                if answer.is_err() {
                    refused = refused.saturating_add(1);
                }
                answer == pair.other.send(mark)
            }
        };
        if !same || !pair.same_levels() {
            differ = differ.saturating_add(1);
        }
    }
    println!(rt; "{CALLS} calls: {refused} refused, {handed} marks handed on, {differ} differences")
}

fn main(rt: HostRuntime) -> io::Result<()> {
    let heap = rt.alloc();
    println!(rt; "table post")?;
    edges(&rt, &mut table_post(heap, 3)?)?;
    for bytes in [0, 1, 4, 1024, 1025] {
        fill(&rt, &mut table_post(heap, bytes)?)?;
    }
    println!(rt; "chain post")?;
    edges(&rt, &mut chain_post(heap, 18)?)?;
    for letters in [0, 5, 6, 29, 6144, 6150] {
        fill(&rt, &mut chain_post(heap, letters)?)?;
    }
    alike(
        &rt,
        &mut Pair {
            heap,
            one: table_post(heap, BLOCKS as usize)?,
            other: chain_post(heap, 6 * BLOCKS as usize)?,
        },
    )
}
