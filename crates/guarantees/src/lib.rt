//! What the rules of the memory guarantee, for every accepted plan, every past and every post, whichever waiting mark each
//! take picks; and that with less than their figures and premises the guarantees are false. Each function carries a
//! statement in its contract and does nothing.
#![tactic(auto)]

ghost use Rattle.std.specs.Prelude.{◌+◌, ◌-◌, ◌*◌};
ghost use Rattle.guarantees.specs.Needed.{ATurnLessIsTooFew, HoldsKeepBlocks, NoLapIsTooFew, OneLapIsTooFew, TwoRecoveriesAreTooFew};
ghost use Rattle.guarantees.specs.Picks.{NoTakenMarkIsDropped, PickedPastsArePasts, SameCallsSameEnd, TurnsGoOnAPast};
ghost use Rattle.state.specs.Pasts.{Reach};
ghost use Rattle.state.specs.Promises.{MarkingsEndSoon, NoReachableBlockIsRecovered, RecoveriesEndSoon, RoundsEndSoon, TurnsAloneRecoverAllGarbage};
ghost use Rattle.laws.specs.Promises.{MarkingsEndWithin, NoCallRecovers, RecoveriesEndWithin, RoundsEndWithin, TurnsAloneRecoverAllBut};

/// No call of any past recovers a block that was reachable when the call came.
pub fn no_reachable_block_is_recovered()
    ensures figures { NoCallRecovers Reach }
    ensures promised { NoReachableBlockIsRecovered }
{}

/// Under turns alone: three recoveries of the top area, then three of every area of each level downward, then two rounds of
/// every lowest area, and every block that was unreachable when the turns began is free.
pub fn turns_alone_recover_all_garbage()
    ensures figures { TurnsAloneRecoverAllBut Reach 3 2 }
    ensures promised { TurnsAloneRecoverAllGarbage }
{}

/// Under turns alone a lowest area ends a round within 2n + H + 2 of its turns, where it has n slots and H is the top level.
pub fn rounds_end_soon()
    ensures figures { RoundsEndWithin (λ slots top. 2 * slots + top + 2) }
    ensures promised { RoundsEndSoon }
{}

/// Under turns alone an area of level L over n slots that is marking ends that marking within 2n(L − 1) + 2 laps.
pub fn markings_end_soon()
    ensures figures { MarkingsEndWithin (λ slots level. 2 * slots * (level - 1) + 2) }
    ensures promised { MarkingsEndSoon }
{}

/// Under turns alone an area that is recovering ends that recovery within one lap.
pub fn recoveries_end_soon()
    ensures figures { RecoveriesEndWithin 1 }
    ensures promised { RecoveriesEndSoon }
{}

/// What turns alone lead to after a past came about by a past: so one may begin to count anywhere among them.
pub fn turns_go_on_a_past()
    ensures { TurnsGoOnAPast }
{}

/// Each mark that the start of a round takes can be set when it is taken: none is dropped.
pub fn no_taken_mark_is_dropped()
    ensures { NoTakenMarkIsDropped }
{}

/// A past in which takes pick marks in some order is one by the rules, so each guarantee holds of it.
pub fn picked_pasts_are_pasts()
    ensures { PickedPastsArePasts }
{}

/// Two pasts with the same calls end in the same memory and the same set of waiting marks, whatever was picked.
pub fn same_calls_same_end()
    ensures { SameCallsSameEnd }
{}

/// With two recoveries of each area in place of three, a block that was unreachable when the turns began may still be there.
pub fn two_recoveries_are_too_few()
    ensures { TwoRecoveriesAreTooFew }
{}

/// If only registers made blocks reachable, the recovery of all other blocks would be false: a block with a hold stays.
pub fn holds_keep_blocks()
    ensures { HoldsKeepBlocks }
{}

/// A lowest area may need all of its 2n + H + 2 turns to end a round.
pub fn a_turn_less_is_too_few()
    ensures { ATurnLessIsTooFew }
{}

/// Within no lap a recovery may not end.
pub fn no_lap_is_too_few()
    ensures { NoLapIsTooFew }
{}

/// Within one lap a marking may not end.
pub fn one_lap_is_too_few()
    ensures { OneLapIsTooFew }
{}
