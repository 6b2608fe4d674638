// Reading a plan's records out of bytes.
ghost use Rattle.std.specs.Prelude.{◌≡◌, ◌&&◌, ◌==◌, true, length, if◌then◌else◌, Some, None};
ghost use Rattle.std.specs.List.{range_with_len};
ghost use Rattle.chain.specs.Chain.{numbered};
ghost use Rattle.plan.specs.Tree.{every};
ghost use Rattle.plan.specs.Reading.{byte_of, area_of, area_in_range, areas_read, first_wrong, slots_right};
ghost use Rattle.plan.specs.Walk.{area_at};
ghost use Rattle.plan.specs.Answers.{Answers};

use crate::area::Area;
use crate::refusal::Refusal;
use std::alloc::Global;

// The area that record `number` of `count` describes; none where one of its bytes is out of range.
fn read_record(bytes: &[u8; 6], number: u16, count: u16) -> Option<Area>
    ensures { result ≡ (if byte_of bytes.now 1 3 == 0 && area_in_range count number (area_of bytes.now 1) then Some (area_of bytes.now 1) else None) }
{
    let [level, child, next, zero, low, high] = *bytes;
    let area = Area {
        level,
        child: u16::from(child),
        next: u16::from(next),
        slots: u16::from_le_bytes([low, high]),
    };
    let lowest = if number == 1 { 2 } else { 1 };
    let is_in_range = zero == 0
        && (lowest..=4).contains(&level)
        && area.child <= count
        && area.next <= count;
    is_in_range.then_some(area)
}

// The areas of 1 to 64 records, each in range.
#[derive(Drop)]
pub(crate) struct Records {
    pub areas: Vec<Area>,
    ghost few: { numbered 64 (length areas.items) ≡ true },
    ghost in_range: { every (λ i. area_in_range (length areas.items) i (area_at areas.items i)) (range_with_len 1 (length areas.items)) ≡ true },
}

impl Records {
    // Reads a row of records; refused where it is not one of 1 to 64 whole records, or at the first that is out of range.
    pub(crate) fn read(heap: Global, bytes: &[u8]) -> Result<Records, Refusal>
        ensures { Answers (λ r. r.areas.items) (areas_read bytes.now) result }
    {
        let (records, rest) = bytes.as_chunks::<6>();
        if records.is_empty() || records.len() > 64 || !rest.is_empty() {
            return Err(Refusal::Length);
        }
        let count = records.len() as u16;
        let mut areas = Vec::new(heap);
        // a `for`, since the library does not say that `try_collect` fails where an item fails
        for (index, record) in records.iter().enumerate() {
            let number = index as u16 + 1;
            let area = read_record(record, number, count).ok_or(Refusal::Record(number))?;
            areas.push(area)?;
        }
        Ok(Records { areas })
    }

    // The first area whose own slots are wrong.
    pub(crate) fn first_wrong_slots(&self) -> Option<u16>
        ensures { result ≡ first_wrong (λ i. slots_right (area_at self.now.areas.items i)) 1 (length self.now.areas.items) }
    {
        let index = self.areas.iter().position(|area| !area.has_right_slots());
        index.map(|index| index as u16 + 1)
    }
}
