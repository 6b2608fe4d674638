// The listing of a plan in which no slot is used yet.
ghost use Rattle.std.specs.Prelude.{◌≡◌, length, IfOk, if◌then◌else◌, Some, None};
ghost use Rattle.chain.specs.Chain.{numbered};
ghost use Rattle.listing.specs.Listing.{listing};
ghost use Rattle.tripmem.specs.Fresh.{fresh_row, fresh_rows};

use anyhow::anyhow;
use listing::{Row, write_listing};
use plan::Plan;
use std::alloc::{AllocError, Global};

// Longer than any line: `area 64 level 4 used 1024 free 1024` and its line feed.
const LINE: usize = 40;

// The row of an area with all its slots free.
fn fresh_row(plan: &Plan, i: u16) -> Option<Row>
    ensures { result ≡ (if numbered (length plan.now) i then Some (fresh_row plan.now i) else None) }
{
    let level = plan.area(i)?.level;
    let free = plan.slots_in(i)?;
    Some(Row {
        area: i,
        level,
        used: 0,
        free,
    })
}

// The rows of all areas, in the order of their records.
fn fresh_rows(heap: Global, plan: &Plan) -> Result<Vec<Row>, AllocError>
    ensures { IfOk result (λ v. v.items ≡ fresh_rows plan.now) }
{
    (1..=plan.area_count())
        .filter_map(|i| fresh_row(plan, i))
        .collect(heap)
}

// The listing's text.
pub fn fresh_listing(heap: Global, plan: &Plan) -> anyhow::Result<Vec<u8>>
    ensures { IfOk result (λ v. v.items ≡ listing (fresh_rows plan.now)) }
{
    let rows = fresh_rows(heap, plan)?;
    // the product prescribes that a listing is written into memory that is lent
    let mut text = vec![in heap; 0u8; LINE * 64]?;
    let length = write_listing(&rows, &mut text).map_err(|_| anyhow!(
        "\"the listing is longer than its memory\""
    ))?;
    text.truncate(length);
    Ok(text)
}
