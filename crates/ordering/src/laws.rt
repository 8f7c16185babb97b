//! Laws of the definitions: each function does nothing, and its contract is the law.

ghost use Rattle.ordering.specs.Laws.{RefusalsAreExact, StatesGoByTheList, TiesAreEnough};

/// A built ordering refuses exactly the steps and pairs with which it would not be built, and is closed exactly where
/// nothing is refused.
pub fn refusals_are_exact()
    ensures { RefusalsAreExact }
{}

/// The states of a timed plan are those in which the earlier steps leave it, taken one by one in the order of any list
/// that agrees with the times.
pub fn states_go_by_the_list()
    ensures { StatesGoByTheList }
{}

/// Links leave nothing out: where the times agree with what ties the steps, the order of the list gives the states that
/// the order in time gives.
pub fn ties_are_enough()
    ensures { TiesAreEnough }
{}
