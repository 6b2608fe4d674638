//! Chains of records in a lent table: each record has the number of the next.
//!
//! Records are numbered from 1, in the order of the table, and a link of 0 ends a chain: the product prescribes both.
//! Many chains share one table, and whoever owns a chain keeps its head, so table and head are handed in apart, and not
//! as one struct.
#![tactic(auto)]

ghost use Rattle.std.specs.Prelude.{◌≡◌, ℕ, List, ◌<◌, true, false, map, length, Some, None, MatchOption};
ghost use Rattle.std.specs.Iterator.{YieldsFirstBy, item_count};
ghost use Rattle.chain.specs.Chain.{LinkLaws, place, numbered, link_of, put_table, put_head, PutsFirst, first_in, rest_of, TakesFirst, Taken, visits, VisitsChain, before, spot_of, Inside, out_table, out_head, is_there, TakesOut};
ghost use Rattle.std.proofs.Common.{rules};

use std::marker::Model;

/// A record with a link: the number of the next record, or 0.
///
/// Each type writes its own impl: the build takes none that a macro of the repository wrote.
pub trait Linked {
    ghost link: { Self → ℕ };

    // the record with another link
    ghost relinked: { Self → ℕ → Self };

    fn next(&self) -> u16
        ensures { result ≡ link self.now };

    fn set_next(&mut self, next: u16)
        ensures { self.new ≡ relinked self.old next };

    // nothing but the link changes
    ghost laws: { LinkLaws Self link relinked };
}

// Where record `i` stands in a table of `len` records.
pub fn index_of(len: usize, i: u16) -> Option<usize>
    ensures { MatchOption result (numbered len i ≡ false) (λ k. (numbered len i ≡ true) × (k ≡ place i) × (k < len)) }
{
    let i = i as usize;
    if 1 <= i && i <= len {
        Some(i - 1)
    } else {
        None
    }
}

// The link of record `i`, where there is such a record.
fn next_of<R: Linked>(records: &[R], i: u16) -> Option<u16>
    ensures answer { MatchOption result (numbered (length (map R.Linked.link records.now)) i ≡ false) (λ n. (numbered (length (map R.Linked.link records.now)) i ≡ true) × (n ≡ link_of (map R.Linked.link records.now) i)) }
    ensures taken { MatchOption result (Taken (length records.now) (map R.Linked.link records.now) i i None) (λ n. Taken (length records.now) (map R.Linked.link records.now) i n (Some i)) }
{
    let k = index_of(records.len(), i)?;
    Some(records[k].next())
}

// Links record `i` to `next`, and says whether there is such a record.
fn set_link<R: Linked>(records: &mut [R], i: u16, next: u16) -> bool
    ensures answer { result ≡ numbered (length records.old) i }
    ensures table { records.new ≡ put_table R.Linked.relinked records.old next i }
    ensures links { result ≡ numbered (length (map R.Linked.link records.old)) i }
    ensures chain { PutsFirst (map R.Linked.link records.old) next i (map R.Linked.link records.new) i }
{
    let Some(k) = index_of(records.len(), i) else {
        return false;
    };
    records[k].set_next(next);
    true
}

/// Puts record `i` before the first of the chain. Answers false, and changes nothing, where there is no record `i`.
pub fn put_first<R: Linked>(records: &mut [R], head: &mut u16, i: u16) -> bool
    ensures answer { result ≡ numbered (length records.old) i }
    ensures table { records.new ≡ put_table R.Linked.relinked records.old head.old i }
    ensures begins { head.new ≡ put_head (length records.old) head.old i }
    ensures chain { PutsFirst (map R.Linked.link records.old) head.old i (map R.Linked.link records.new) head.new }
{
    if !set_link(records, i, *head) {
        return false;
    }
    *head = i;
    true
}

/// Takes the first record off the chain and answers its number; `None` where the chain has ended.
pub fn take_first<R: Linked>(records: &[R], head: &mut u16) -> Option<u16>
    ensures answer { result ≡ first_in (length records.now) head.old }
    ensures begins { head.new ≡ rest_of (map R.Linked.link records.now) head.old }
    ensures chain { TakesFirst (map R.Linked.link records.now) head.old head.new result }
{
    let first = *head;
    *head = next_of(records, first)?;
    Some(first)
}

/// The records that the links visit from a given one on, each with its number, at most as many as the table has.
#[derive(Drop)]
pub struct Visits<'a, R: Linked> {
    records: &'a [R],
    at: u16,
    left: usize,
}

impl<'a, R: Linked> Model for Visits<'a, R> {
    ghost Value = { List (ℕ × R) };

    ghost view = { λ s. visits R.link s.records.now s.left s.at };
}

impl<'a, R: Linked> Iterator for Visits<'a, R> {
    type Item = (u16, &'a R);

    ghost next_gives = { YieldsFirstBy (λ v. (v.0, v.1.now)) (λ s. s) };

    ghost remaining = { item_count (λ s. s) };

    fn next(&mut self) -> Option<(u16, &'a R)> {
        self.left = self.left.checked_sub(1)?;
        let at = self.at;
        let record = &self.records[index_of(self.records.len(), at)?];
        self.at = record.next();
        Some((at, record))
    }
}

/// The records that the chain from `head` on visits, in its order.
pub fn visited<R: Linked>(records: &[R], head: u16) -> Visits<'_, R>
    ensures all { result ≡ visits R.Linked.link records.now (length records.now) head }
    ensures chain { VisitsChain R.Linked.link records.now head result }
{
    Visits {
        records,
        at: head,
        left: records.len(),
    }
}

// The record before `i` on the way from `head`.
fn find_before<R: Linked>(records: &[R], head: u16, i: u16) -> Option<u16>
    ensures { result ≡ before (map R.Linked.link records.now) (length records.now) head i }
{
    visited(records, head)
        .find(|(_, record)| record.next() == i)
        .map(|(at, _)| at)
}

// Where a record stands in a chain: the record before it, unless it is first, and its own link.
struct Spot {
    before: Option<u16>,
    next: u16,
}

// Where record `i` stands in the chain from `head` on.
fn find<R: Linked>(records: &[R], head: u16, i: u16) -> Option<Spot>
    ensures answer { result ≡ spot_of (map R.Linked.link records.now) head i }
    ensures within { Inside (length records.now) result }
    ensures chain { TakesOut (map R.Linked.link records.now) head i (map R.Linked.link (out_table R.Linked.relinked records.now result)) (out_head head result) (is_there result) }
{
    let next = next_of(records, i)?;
    if head == i {
        return Some(Spot { before: None, next });
    }
    let at = find_before(records, head, i)?;
    Some(Spot {
        before: Some(at),
        next,
    })
}

/// Takes record `i` out of the chain, wherever it stands there, and says whether it was there. Record `i` keeps its own link.
pub fn take_out<R: Linked>(records: &mut [R], head: &mut u16, i: u16) -> bool
    ensures answer { result ≡ is_there (spot_of (map R.Linked.link records.old) head.old i) }
    ensures table { records.new ≡ out_table R.Linked.relinked records.old (spot_of (map R.Linked.link records.old) head.old i) }
    ensures begins { head.new ≡ out_head head.old (spot_of (map R.Linked.link records.old) head.old i) }
    ensures chain { TakesOut (map R.Linked.link records.old) head.old i (map R.Linked.link records.new) head.new result }
{
    match find(records, *head, i) {
        None => false,
        Some(Spot { before: None, next }) => {
            *head = next;
            true
        }
        Some(
            Spot {
                before: Some(at),
                next,
            },
        ) => set_link(records, at, next),
    }
}

#[cfg(test)]
mod tests {
    use super::*;

    #[derive(Clone, Copy)]
    struct Slot {
        size: u16,
        next: u16,
    }

    impl Linked for Slot {
        ghost link = { λ s. s.next };

        ghost relinked = { λ s n. record s { next = n } };

        ghost laws = { Prim.search rules };

        fn next(&self) -> u16 {
            self.next
        }

        fn set_next(&mut self, next: u16) {
            self.next = next;
        }
    }

    const SLOT: Slot = Slot { size: 7, next: 0 };

    // What is left, first to last, of the chain 3, 2, 1 when `out` is taken out, and whether it was there.
    fn rest_without(out: u16) -> (bool, [Option<u16>; 4]) {
        let mut slots = [SLOT; 3];
        let mut head = 0;
        put_first(&mut slots, &mut head, 1);
        put_first(&mut slots, &mut head, 2);
        put_first(&mut slots, &mut head, 3);
        let was_there = take_out(&mut slots, &mut head, out);
        let rest = [
            take_first(&slots, &mut head),
            take_first(&slots, &mut head),
            take_first(&slots, &mut head),
            take_first(&slots, &mut head),
        ];
        (was_there, rest)
    }

    #[test]
    fn one_is_taken_out(rt: HostRuntime) {
        assert_eq!(rt; rest_without(3), (true, [Some(2), Some(1), None, None]));
        assert_eq!(rt; rest_without(2), (true, [Some(3), Some(1), None, None]));
        assert_eq!(rt; rest_without(1), (true, [Some(3), Some(2), None, None]));
        assert_eq!(rt; rest_without(0), (false, [Some(3), Some(2), Some(1), None]));
        assert_eq!(rt; rest_without(4), (false, [Some(3), Some(2), Some(1), None]));
    }

    #[test]
    fn a_chain_is_visited(rt: HostRuntime) {
        let mut slots = [SLOT; 3];
        let mut head = 0;
        put_first(&mut slots, &mut head, 1);
        put_first(&mut slots, &mut head, 3);
        let mut numbers = visited(&slots, head).map(|(number, _)| number);
        assert_eq!(rt;
            [numbers.next(), numbers.next(), numbers.next()],
            [Some(3), Some(1), None]
        );
    }

    #[test]
    fn only_records_of_the_table_are_put(rt: HostRuntime) {
        let mut slots = [SLOT; 2];
        let mut head = 0;
        assert!(rt; !put_first(&mut slots, &mut head, 0));
        assert!(rt; !put_first(&mut slots, &mut head, 3));
        assert_eq!(rt; take_first(&slots, &mut head), None);
        assert!(rt; put_first(&mut slots, &mut head, 2));
        assert_eq!(rt; head, 2);
        assert_eq!(rt; slots[1].size, 7);
    }
}
