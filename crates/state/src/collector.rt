//! What the collectors keep for each area.

/// Where the round of a lowest area has come to.
#[derive(Clone, Copy, PartialEq, Eq, Debug)]
pub enum Stage {
    /// between two rounds
    Resting,
    /// shading what is reached, at this level or above
    Pass(u8),
    /// recovering white blocks, from this slot on
    Sweep(u16),
}

/// What a lowest area has done for a level since the area above it at that level last changed its phase.
#[derive(Clone, Copy, PartialEq, Eq, Debug)]
pub enum Status {
    /// status 0: no round that counts has begun
    Unstarted,
    /// status 1: such a round runs
    Begun,
    /// status 2: such a round has ended
    Ended,
}

/// What a lowest area keeps for one level: its status there, and whether the running round sends marks of that level.
#[derive(Clone, Copy, PartialEq, Eq, Debug)]
pub struct AtLevel {
    pub status: Status,
    pub sends: bool,
}

/// The collector of a lowest area: its stage; what it keeps for each level from 2 on; the first free slot.
#[derive(Clone, Copy, PartialEq, Eq, Debug)]
pub struct Collector {
    pub stage: Stage,
    pub levels: [AtLevel; 3],
    // a number, with 0 for none, as the product prescribes links
    pub free: u16,
}

/// What an area above the lowest does.
#[derive(Clone, Copy, PartialEq, Eq, Debug)]
pub enum Phase {
    /// marks of its level are sent and set
    Marking,
    /// entries of its level that are not marked are lost
    Recovering,
}
