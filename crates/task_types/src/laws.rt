//! Laws of the definitions: each function does nothing, and its contract is the law.

ghost use Rattle.task_types.specs.ExampleClashes.{ClashesComeOut, ClashingPlansComeOut};
ghost use Rattle.task_types.specs.ExampleCosts.{CostsComeOut};
ghost use Rattle.task_types.specs.ExampleOrderings.{BuiltOrderingsComeOut, ClosedOrderingsComeOut, TimesComeOut, BlockedOrderingsComeOut};
ghost use Rattle.task_types.specs.ExamplePlans.{PlansAreValid, PlansAreRefused};
ghost use Rattle.task_types.specs.ExampleStates.{StatesComeOut};
ghost use Rattle.task_types.specs.ExampleTasks.{TasksAreWellMade, LimitsAreReached, NamesAreRefused, SchemasAreRefused, LongListsAreRefused, FactsAndFluentsAreRefused, ActionsAreRefused, SnapsAreRefused, NumbersAreRefused, TimedStepsAreRefused, GoalsAreRefused, TermsAreRefused, PiecesAreRefused, MetricsAreRefused};
ghost use Rattle.task_types.specs.ExampleTouches.{TouchesComeOut, TokensComeOut};
ghost use Rattle.task_types.specs.Laws.{OneListOfHappenings, SegmentsGoByTheirEnds, ValidOrOneReason, BothWaysRound, LinesInAnyOrder, ConstraintsAlongTheTrace, ReckoningsEndAtTheValue, LinksByTouches, SortingKeepsLinks, TimedPlansAreFormed, TimedPlansHaveTheSteps, StatesGoByNumber, AgreementGoesByPairs, ClashesAreSetApart, FirstStatesHaveTheFirstMoments};

/// The happenings of a plan are the one ascending list of the times of its steps.
pub fn one_list_of_happenings()
    ensures { OneListOfHappenings }
{}

/// At a happening the states by time are the states by number.
pub fn states_go_by_number()
    ensures { StatesGoByNumber }
{}

/// Between two adjacent happenings a condition holds at every instant exactly where it holds at both ends: fluents
/// change there at constant rates (Fox and Long 2003).
pub fn segments_go_by_their_ends()
    ensures { SegmentsGoByTheirEnds }
{}

/// A formed plan is valid or has a first reason, never both, and only one.
pub fn valid_or_one_reason()
    ensures { ValidOrOneReason }
{}

/// Clashes and links are the same both ways round.
pub fn both_ways_round()
    ensures { BothWaysRound }
{}

/// The order of a plan's lines and their numbers are free, where no two assignments to one fluent meet, as in each
/// valid plan of a well made task.
pub fn lines_in_any_order()
    ensures { LinesInAnyOrder }
{}

/// Each trajectory constraint, said of the states by their numbers, is what one pass along the states finds; and at
/// most once says that in no three states, in their order, the formula holds, fails and holds (Gerevini and Long 2005).
pub fn constraints_along_the_trace()
    ensures { ConstraintsAlongTheTrace }
{}

/// The first moment of a formula is the time of the first state in which it holds.
pub fn first_states_have_the_first_moments()
    ensures { FirstStatesHaveTheFirstMoments }
{}

/// What is reckoned step by step ends at the exact value that is meant, so a reckoning that is defined throughout has
/// that value.
pub fn reckonings_end_at_the_value()
    ensures { ReckoningsEndAtTheValue }
{}

/// Times agree with an ordering exactly where its pair links hold, step by later step, and each step has its place in
/// time.
pub fn agreement_goes_by_pairs()
    ensures { AgreementGoesByPairs }
{}

/// Two steps that clash are set apart in every ordering.
pub fn clashes_are_set_apart()
    ensures { ClashesAreSetApart }
{}

/// The timed plan of an ordering and its times is formed.
pub fn timed_plans_are_formed()
    ensures { TimedPlansAreFormed }
{}

/// The timed plan of a closed ordering has as many plan steps as the ordering.
pub fn timed_plans_have_the_steps()
    ensures { TimedPlansHaveTheSteps }
{}

/// The link of two snap actions can be read off their touches.
pub fn links_by_touches()
    ensures { LinksByTouches }
{}

/// The steps of an ordering may be sorted by time without losing agreement, since links are the same both ways round.
pub fn sorting_keeps_links()
    ensures { SortingKeepsLinks }
{}

/// The states of small plans, as worked out by hand.
pub fn states_come_out()
    ensures { StatesComeOut }
{}

/// Small plans that are valid, and one for each reason why a plan isn't.
pub fn plans_come_out()
    ensures valid { PlansAreValid }
    ensures refused { PlansAreRefused }
{}

/// Steps that clash, and steps that don't.
pub fn clashes_come_out()
    ensures steps { ClashesComeOut }
    ensures plans { ClashingPlansComeOut }
{}

/// The costs of small plans, as worked out by hand.
pub fn costs_come_out()
    ensures { CostsComeOut }
{}

/// Small orderings: which are built, closed and blocked, which times agree, and which plans they make.
pub fn orderings_come_out()
    ensures built { BuiltOrderingsComeOut }
    ensures closed { ClosedOrderingsComeOut }
    ensures times { TimesComeOut }
    ensures blocked { BlockedOrderingsComeOut }
{}

/// The touches of the steps of small tasks.
pub fn touches_come_out()
    ensures touches { TouchesComeOut }
    ensures tokens { TokensComeOut }
{}

/// Small tasks that are well made, also just inside each limit.
pub fn well_made_tasks_pass()
    ensures well_made { TasksAreWellMade }
    ensures limits { LimitsAreReached }
{}

/// Tasks that are broken in one place aren't well made.
pub fn broken_tasks_are_refused()
    ensures names { NamesAreRefused }
    ensures schemas { SchemasAreRefused }
    ensures long_lists { LongListsAreRefused }
    ensures facts { FactsAndFluentsAreRefused }
    ensures actions { ActionsAreRefused }
    ensures snaps { SnapsAreRefused }
    ensures numbers { NumbersAreRefused }
    ensures timed { TimedStepsAreRefused }
    ensures goals { GoalsAreRefused }
    ensures terms { TermsAreRefused }
    ensures pieces { PiecesAreRefused }
    ensures metrics { MetricsAreRefused }
{}
