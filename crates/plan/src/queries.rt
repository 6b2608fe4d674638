// What is asked of an accepted plan. Numbers that name no area, no lowest area or no slot get no answer; each clause says
// in full when there is one, since a word for `if numbered .. then Some .. else None` would be no plainer.
ghost use Rattle.std.specs.Prelude.{◌≡◌, ◌+◌, ◌≤◌, ◌&&◌, length, IfSome, if◌then◌else◌, Some, None, true, nat_le};
ghost use Rattle.chain.specs.Chain.{numbered};
ghost use Rattle.plan.specs.Plans.{is_plan, top_level, slot_count, is_lowest, slots_of, slots_held, home_of, parent_of, area_over, common_level};
ghost use Rattle.plan.specs.Walk.{area_at};
ghost use Rattle.plan.specs.Accepted.{node_of};

use crate::accepted::Plan;
use crate::area::{Area, Node, Slots};
use chain::index_of;

impl Plan {
    // How many areas the plan has; they are numbered from 1.
    #[tactic(auto, using(crate::proofs::Held::count_told, crate::proofs::Held::accepted_told))]
    pub fn area_count(&self) -> u16
        ensures answer { result ≡ length self.now }
        ensures accepted { is_plan self.now ≡ true }
    {
        self.nodes.len() as u16
    }

    // How many slots the plan has; they are numbered from 1.
    #[tactic(auto, using(crate::proofs::Held::total_told))]
    pub fn slot_count(&self) -> u16
        ensures { result ≡ slot_count self.now }
    {
        self.homes.len() as u16
    }

    // The level of the top area, 2 to 4.
    #[tactic(auto, using(crate::proofs::Held::top_told, crate::proofs::Held::nodes_few))]
    pub fn top_level(&self) -> u8
        ensures answer { result ≡ top_level self.now }
        ensures range { (2 ≤ result) × (result ≤ 4) }
    {
        self.nodes[0].area.level
    }

    #[tactic(auto, using(crate::proofs::Held::count_told, crate::proofs::Held::node_told))]
    fn node(&self, i: u16) -> Option<Node>
        ensures answer { result ≡ (if numbered (length self.now) i then Some (node_of self.now i) else None) }
        ensures few { IfSome result (λ n. (n.place.before ≤ n.place.after) × (n.place.after ≤ 1024)) }
    {
        let k = index_of(self.nodes.len(), i)?;
        Some(self.nodes[k])
    }

    // What the area's record says.
    pub fn area(&self, i: u16) -> Option<Area>
        ensures { result ≡ (if numbered (length self.now) i then Some (area_at self.now i) else None) }
    {
        Some(self.node(i)?.area)
    }

    // Whether the area is one of the lowest.
    pub fn is_lowest(&self, i: u16) -> bool
        ensures { result ≡ is_lowest self.now i }
    {
        self.area(i).is_some_and(|area| area.level == 1)
    }

    // The slots of an area.
    pub fn slots(&self, i: u16) -> Option<Slots>
        ensures answer { result ≡ (if numbered (length self.now) i then Some (slots_of self.now i) else None) }
        ensures few { IfSome result (λ s. (s.first ≤ s.last + 1) × (s.last ≤ 1024)) }
    {
        let place = self.node(i)?.place;
        Some(Slots {
            first: place.before as u16 + 1,
            last: place.after as u16,
        })
    }

    // How many slots an area has.
    pub fn slots_in(&self, i: u16) -> Option<u16>
        ensures { result ≡ (if numbered (length self.now) i then Some (slots_held self.now i) else None) }
    {
        let slots = self.slots(i)?;
        Some(slots.last + 1 - slots.first)
    }

    // The lowest area of a slot.
    #[tactic(auto, using(crate::proofs::Held::total_told, crate::proofs::Held::home_told))]
    pub fn home(&self, slot: u16) -> Option<u16>
        ensures { result ≡ (if numbered (slot_count self.now) slot then Some (home_of self.now slot) else None) }
    {
        let k = index_of(self.homes.len(), slot)?;
        Some(self.homes[k])
    }

    // The area under whose child area i stands, or 0, as `Place` has it.
    #[tactic(auto, using(crate::proofs::Asked::no_parent))]
    fn parent(&self, i: u16) -> u16
        ensures { result ≡ parent_of self.now i }
    {
        self.node(i).map_or(0, |node| node.place.parent)
    }

    // The area over a lowest area at a level; itself at level 1.
    pub fn area_over(&self, i: u16, level: u8) -> Option<u16>
        ensures { result ≡ (if is_lowest self.now i && (nat_le 1 level && nat_le level (top_level self.now)) then Some (area_over self.now level i) else None) }
    {
        if !self.is_lowest(i) || level == 0 || level > self.top_level() {
            return None;
        }
        Some((1..level).fold(i, |over, _| self.parent(over)))
    }

    // The lowest level at which one area contains both lowest areas.
    pub fn common_level(&self, x: u16, y: u16) -> Option<u8>
        ensures { result ≡ (if is_lowest self.now x && is_lowest self.now y then Some (common_level self.now x y) else None) }
    {
        if !self.is_lowest(x) || !self.is_lowest(y) {
            return None;
        }
        let mut over_x = x;
        let mut over_y = y;
        // tried as a `find` over the levels: it climbs anew to each
        for level in 1..self.top_level() {
            if over_x == over_y {
                return Some(level);
            }
            over_x = self.parent(over_x);
            over_y = self.parent(over_y);
        }
        Some(self.top_level())
    }
}
