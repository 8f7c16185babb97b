//! Worked examples: each function does nothing, and its contract says what small domains and problems come to.

ghost use Rattle.grounder.specs.ExampleBindings.{BindingsComeOut};
ghost use Rattle.grounder.specs.ExampleFacts.{FactsComeOut};
ghost use Rattle.grounder.specs.ExampleComparisons.{ComparisonsComeOut};
ghost use Rattle.grounder.specs.ExampleValues.{ValuesComeOut};
ghost use Rattle.grounder.specs.ExampleFaults.{FaultsComeOut};
ghost use Rattle.grounder.specs.ExampleLimits.{LimitsComeOut};
ghost use Rattle.grounder.specs.ExampleActions.{ActionsComeOut};
ghost use Rattle.grounder.specs.ExampleTerms.{TermsComeOut};

/// Which bindings make actions, and in which order.
pub fn bindings_come_out()
    ensures { BindingsComeOut }
{}

/// Which facts and fluents there are, and in which order.
pub fn facts_come_out()
    ensures { FactsComeOut }
{}

/// Equalities of terms, and the forms of comparisons.
pub fn comparisons_come_out()
    ensures { ComparisonsComeOut }
{}

/// Fluents without a value, divisors of value 0, and what is assigned twice.
pub fn values_come_out()
    ensures { ValuesComeOut }
{}

/// Which fault is told, and at which place.
pub fn faults_come_out()
    ensures { FaultsComeOut }
{}

/// What is counted, and the limits.
pub fn limits_come_out()
    ensures { LimitsComeOut }
{}

/// Actions, snap actions and timed steps.
pub fn actions_come_out()
    ensures { ActionsComeOut }
{}

/// Preferences, constraints, formulas and weights.
pub fn terms_come_out()
    ensures { TermsComeOut }
{}
