//! Laws of the definitions: each function does nothing, and its contract is the law.

ghost use Rattle.rate_ledger.specs.Laws.{ValueFormsAreValues, ValueFormsAreStates};

/// At any point, whether the times that it gives agree with anything or not, the value forms of a step are what the
/// steps so far carry to its time; and a fluent's rate is the sum of its rates of the actions that run.
pub fn value_forms_are_values()
    ensures { ValueFormsAreValues }
{}

/// At times that agree with a closed ordering, value forms are the values of fluents in the states of its timed plan:
/// those of a step that looks at or marks the fluent or a group of it, those of a step that bends it, and those at the
/// end.
pub fn value_forms_are_states()
    ensures { ValueFormsAreStates }
{}
