// Making a plan out of bytes.
ghost use Rattle.std.specs.Prelude.{◌≡◌, IfOk};
ghost use Rattle.plan.specs.Laws.{TreeLaws};
ghost use Rattle.plan.specs.Nodes.{areas_in, places_in};
ghost use Rattle.plan.specs.Answers.{Answers};
ghost use Rattle.plan.specs.Plans.{tables_of};
ghost use Rattle.plan.specs.Reading.{read_plan};
ghost use Rattle.plan.specs.Trees.{AcceptedExactlyTrees};

use crate::accepted::Plan;
use crate::area::Node;
use crate::reading::Records;
use crate::refusal::Refusal;
use crate::tree::Walk;
use std::alloc::Global;

// The nodes of the areas and the homes of the slots, where the areas are a tree with the right slots.
fn tables(heap: Global, records: &Records) -> Result<(Vec<Node>, Vec<u16>), Refusal>
    ensures answer { Answers (λ t. (places_in t.0.items, t.1.items)) (tables_of records.now.areas.items) result }
    ensures own { IfOk result (λ t. areas_in t.0.items ≡ records.now.areas.items) }
{
    let walk = Walk::whole(heap, records)?;
    let nodes = walk.by_number(heap)?;
    if let Some(number) = records.first_wrong_slots() {
        return Err(Refusal::Slots(number));
    }
    if walk.slots > 1024 {
        return Err(Refusal::TooManySlots);
    }
    let homes = walk.homes(heap)?;
    Ok((nodes, homes))
}

impl Plan {
    // Reads a plan: a row of six-byte records, numbered from 1.
    pub fn read(heap: Global, bytes: &[u8]) -> Result<Plan, Refusal>
        ensures answer { Answers (λ p. p) (read_plan bytes.now) result }
        ensures laws { IfOk result (λ p. TreeLaws p) }
        ensures tree { AcceptedExactlyTrees bytes.now }
    {
        let records = Records::read(heap, bytes)?;
        let (nodes, homes) = tables(heap, &records)?;
        Ok(Plan { nodes, homes })
    }
}
