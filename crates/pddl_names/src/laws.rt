//! What follows from the definitions.

ghost use Rattle.pddl_names.specs.Declarations.{Text, Typed};
ghost use Rattle.pddl_names.specs.Examples.{ExamplesComeOut};
ghost use Rattle.pddl_names.specs.Laws.{FittingIsAnOrder, LeastIsFirst};
ghost use Rattle.pddl_names.specs.declared.offences.Offence.{Offence};
ghost use Rattle.std.specs.Prelude.{List};

/// Fitting is an order of types: each type fits itself, and what fits a type fits what that type fits. Types may form
/// rings; a type that is left out has no part in it.
pub fn fitting_is_an_order()
    ensures { (types : List Typed) (t u v : Text) → FittingIsAnOrder types t u v }
{}

/// An answered offence is one of those that the definition lists, none of them stands before it, and none is answered
/// exactly where there is none.
pub fn least_offence_is_first()
    ensures { (offences : List Offence) (o : Offence) → LeastIsFirst offences o }
{}

/// The examples have the offences that were worked out by hand.
pub fn examples_come_out()
    ensures { ExamplesComeOut }
{}
