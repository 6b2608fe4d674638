// What a plan's record says of an area, and where the walk meets the area.
ghost use Rattle.std.specs.Prelude.{◌≡◌, ◌≤◌};
ghost use Rattle.std.proofs.Common.{rules};
ghost use Rattle.plan.specs.Tree.{node_fits};
ghost use Rattle.plan.specs.Reading.{slots_right};

use chain::Linked;

// An area as its record gives it: its level, the first of the areas below it, the next area under the same parent, and
// its own slots. Links are numbers, with 0 for none, since the records have this form and `chain` walks it.
#[derive(Clone, Copy, PartialEq, Eq, Debug)]
pub struct Area {
    pub level: u8,
    pub child: u16,
    pub next: u16,
    pub slots: u16,
}

impl Area {
    // The area's own slots, as a number wide enough to add up.
    pub(crate) fn own_slots(self) -> u32
        ensures value { result ≡ self.slots }
        ensures bound { result ≤ 65535 }
    {
        u32::from(self.slots)
    }

    // Whether it has as many slots of its own as an area of its level may.
    pub(crate) fn has_right_slots(self) -> bool
        ensures { result ≡ slots_right self }
    {
        if self.level == 1 {
            (1..=1024).contains(&self.slots)
        } else {
            self.slots == 0
        }
    }
}

impl Linked for Area {
    ghost link = { λ a. a.next };

    ghost relinked = { λ a n. record a { next = n } };

    ghost laws = { Prim.search rules };

    fn next(&self) -> u16 {
        self.next
    }

    fn set_next(&mut self, next: u16) {
        self.next = next;
    }
}

// Where the walk meets an area: at which level and under which parent, and how many slots come before the area's own and
// up to its last. The parent of the top area is 0, as `parent_of` has it, by which the laws of a plan climb: an Option
// would be no plainer, since each clause would turn it back.
#[derive(Clone, Copy, PartialEq, Eq, Debug)]
pub struct Place {
    pub area: u16,
    pub level: u8,
    pub parent: u16,
    pub before: u32,
    pub after: u32,
}

// An area and where the walk meets it.
#[derive(Clone, Copy, PartialEq, Eq, Debug)]
pub(crate) struct Node {
    pub area: Area,
    pub place: Place,
}

impl Node {
    // Whether the area stands at its own level; just the lowest areas have no child.
    pub(crate) fn stands_right(&self) -> bool
        ensures { result ≡ node_fits self.now }
    {
        let is_lowest = self.place.level == 1;
        self.area.level == self.place.level && (self.area.child == 0) == is_lowest
    }
}

// A range of slots, both ends counted.
#[derive(Clone, Copy, PartialEq, Eq, Debug)]
pub struct Slots {
    pub first: u16,
    pub last: u16,
}
