//! What the definitions imply: each function does nothing, and its contract is the law.

ghost use Rattle.accepted_files.specs.Laws.{
  CleanAtomsAreBindings,
  AcceptedFilesAreClean,
  NamesAreTaskNames,
  AcceptedTypesAreNamed,
  AcceptedPartsAreNoLonger,
  AcceptedTimeCostsFit,
  ReadersPromise,
};

/// Where no phase of the readers finds an offence, every ground atom is a binding of its predicate, with objects that
/// fit the types of its parameters, and every fluent with a first value a binding of its function.
pub fn clean_atoms_are_bindings()
    ensures { CleanAtomsAreBindings }
{}

/// In a domain and a problem of it that their readers accept, no name, type, form or limit is wrong.
pub fn accepted_files_are_clean()
    ensures { AcceptedFilesAreClean }
{}

/// The names of types, constants, objects and actions that readers accept are in lower case and have 1 to 64 bytes: a
/// letter, then letters, digits, dashes and underscores. So each type has a name.
pub fn accepted_names_are_task_names()
    ensures names { NamesAreTaskNames }
    ensures types { AcceptedTypesAreNamed }
{}

/// A name, a list of parameters, the changes of an action and the entries of `:init` that readers accept are no longer
/// than the text, and an action has half as many bounds of its duration.
pub fn accepted_parts_are_no_longer()
    ensures { AcceptedPartsAreNoLonger }
{}

/// The time costs that readers accept rise: in three numbers `0 <= soft < hard` and `0 <= top`, or 1 to 16 pieces, each
/// of which ends later than the one before it and costs no less.
pub fn accepted_time_costs_fit()
    ensures { AcceptedTimeCostsFit }
{}

/// A domain and a problem that their readers accept are such as the grounder asks for, where neither text has more than
/// 1,048,576 bytes.
pub fn readers_promise()
    ensures { ReadersPromise }
{}
