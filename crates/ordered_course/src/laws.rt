//! Laws of the definitions: each function does nothing, and its contract is the law.

ghost use Rattle.ordered_course.specs.Laws.{AgreeingTimesTell, PartsTellStates, HeldBetween, WalksAreAlike, BlockedIsSound};

/// The steps of a closed ordering of a well made task, at times that agree with it, are the steps of its timed plan in
/// an order that agrees with the times, and turn the slopes that are the plan's rates.
pub fn agreeing_times_tell()
    ensures { AgreeingTimesTell }
{}

/// What a first part of the list carries to an instant is the state before or after it, in each fact and fluent about
/// which the steps out of order are quiet.
pub fn parts_tell_states()
    ensures { PartsTellStates }
{}

/// A comparison that holds after one step and before a later one, with no step between that changes its fluents, holds
/// at every rational instant between the two.
pub fn held_between()
    ensures { HeldBetween }
{}

/// The states along a list and the states in time keep the same constraints, where both go through the same changes one
/// by one.
pub fn walks_are_alike()
    ensures { WalksAreAlike }
{}

/// An ordering of a well made task that is blocked has no valid times: a literal or a hard constraint that fails along
/// the list of its steps fails in each of its timed plans.
pub fn blocked_is_sound()
    ensures { BlockedIsSound }
{}
