// The walk of the area tree.
ghost use Rattle.std.specs.Prelude.{◌≡◌, ◌+◌, ◌*◌, ◌≤◌, [], map, length, IfOk, OnOk};
ghost use Rattle.std.specs.List.{list_all};
ghost use Rattle.plan.specs.Answers.{Answers};
ghost use Rattle.plan.specs.Nodes.{areas_in, places_in, node_met, nodes_met, own_area};
ghost use Rattle.plan.specs.Tree.{node_fits, homes_in, order_of};
ghost use Rattle.plan.specs.Walk.{Walked, walk_from};

use crate::area::{Area, Node, Place};
use crate::reading::Records;
use crate::refusal::Refusal;
use chain::take_first;
use std::alloc::{AllocError, Global};

// How far the walk has come: the areas that it has met, in its order, and how many slots they have.
#[derive(Drop)]
pub(crate) struct Walk<'a> {
    areas: &'a [Area],
    met: Vec<Node>,
    pub slots: u32,
    ghost few: { length areas.now ≤ 64 },
    ghost room: { length met.items ≤ length areas.now + 1 },
    ghost small: { slots ≤ 65535 * length met.items },
    ghost own: { areas_in met.items ≡ map (own_area areas.now) met.items },
}

impl<'a> Walk<'a> {
    // The walk of a whole plan; refused where it meets too many areas, or one at a level not its own.
    pub(crate) fn whole(heap: Global, records: &'a Records) -> Result<Walk<'a>, Refusal>
        ensures answer { Answers (λ w. (places_in w.met.items, w.slots)) (order_of records.now.areas.items) result }
        ensures same { IfOk result (λ w. w.areas.now ≡ records.now.areas.items) }
    {
        let areas = records.areas.as_slice();
        let top = areas[0];
        if top.next != 0 {
            return Err(Refusal::NotATree);
        }
        let mut walk = Walk {
            areas,
            met: Vec::new(heap),
            slots: 0,
        };
        walk.follow(top.level, 0, 1)?;
        if walk.met.len() > areas.len() || !walk.all_stand_right() {
            return Err(Refusal::NotATree);
        }
        Ok(walk)
    }

    // Walks the chain of areas of one level from `first` on: an area, all that stands below its child, then its next.
    // It stops as soon as it has met more areas than there are, since then it has met one twice. `chain::visited` would
    // be no plainer: it ends after as many areas as there are, so this would have to be told that it has met one before.
    fn follow(&mut self, level: u8, parent: u16, first: u16) -> Result<(), AllocError>
        ensures walked { OnOk result (Walked self.old.areas.now (walk_from self.old.areas.now level parent first self.old.slots) self.old.slots (places_in self.old.met.items) [] self.new.slots (places_in self.new.met.items)) }
        ensures same { self.new.areas ≡ self.old.areas }
    {
        if level == 0 {
            return Ok(());
        }
        let mut at = first;
        for _ in 0..=self.areas.len() {
            let Some(number) = take_first(self.areas, &mut at) else {
                return Ok(());
            };
            let index = self.met.len();
            if index > self.areas.len() {
                return Ok(());
            }
            let area = self.areas[number as usize - 1];
            self.met.push(Node {
                area,
                place: Place {
                    area: number,
                    level,
                    parent,
                    before: self.slots,
                    after: self.slots,
                },
            })?;
            self.slots += area.own_slots();
            self.follow(level - 1, number, area.child)?;
            self.met[index].place.after = self.slots;
        }
        Ok(())
    }

    fn all_stand_right(&self) -> bool
        ensures { result ≡ list_all node_fits self.now.met.items }
    {
        self.met.iter().all(|node| node.stands_right())
    }

    // The one area that the walk meets under a number; none where it meets none, or more than one.
    fn only_node(&self, number: u16) -> Option<Node>
        ensures { result ≡ node_met self.now.areas.now (places_in self.now.met.items) number }
    {
        // a `for`, since `find` would not notice a second one
        let mut only = None;
        for node in &self.met {
            if node.place.area == number && only.replace(*node).is_some() {
                return None;
            }
        }
        only
    }

    // The areas in the order of their numbers; refused where the walk does not meet each just once.
    pub(crate) fn by_number(&self, heap: Global) -> Result<Vec<Node>, Refusal>
        ensures { Answers (λ v. v.items) (nodes_met self.now.areas.now (places_in self.now.met.items)) result }
    {
        let mut nodes = Vec::new(heap);
        // a `for`, since the library does not say that `try_collect` fails where an item fails
        for number in 1..=self.areas.len() as u16 {
            nodes.push(self.only_node(number).ok_or(Refusal::NotATree)?)?;
        }
        Ok(nodes)
    }

    // The lowest area of each slot, slots in the order of the walk.
    pub(crate) fn homes(&self, heap: Global) -> Result<Vec<u16>, AllocError>
        ensures { IfOk result (λ v. v.items ≡ homes_in self.now.areas.now (places_in self.now.met.items)) }
    {
        let mut homes = Vec::with_capacity(heap, self.slots as usize)?;
        for node in &self.met {
            homes.resize(homes.len() + usize::from(node.area.slots), node.place.area)?;
        }
        Ok(homes)
    }
}
