//! The invariant of the rules, and the proofs of what they guarantee; the crate `guarantees` has the functions that carry
//! the guarantees. The function here carries a step on the way in its contract, and does nothing.
#![tactic(auto)]

ghost use Rattle.laws.specs.Steps.{ReachableBlocksStand};

/// Where the invariant holds, no call recovers a block that is reachable when the call comes.
pub fn reachable_blocks_stand()
    ensures { ReachableBlocksStand }
{}
