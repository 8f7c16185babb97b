//! What files without an offence keep to.

ghost use Rattle.pddl_forms.specs.Accepted.{MomentsLieAboveZero, LiteralsAgree, ParametersAreFew, ObjectsAreFew};

/// A problem whose forms are right has its timed literals above 0, and none that contradict each other; within the limits
/// an action has at most 12 parameters, and there are at most 512 constants and objects.
pub fn accepted_files_keep_to()
    ensures moments { MomentsLieAboveZero }
    ensures literals { LiteralsAgree }
    ensures parameters { ParametersAreFew }
    ensures objects { ObjectsAreFew }
{}
