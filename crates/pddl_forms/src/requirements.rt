//! The requirement flags that are known.

ghost use Rattle.std.specs.Prelude.{◌≡◌};
ghost use Rattle.pddl_terms.specs.Words.{same_word};
ghost use Rattle.pddl_forms.specs.Offences.{least_with};
ghost use Rattle.pddl_forms.specs.Requirements.{is_condition_flag, is_number_flag, is_other_flag, is_known, requirement_offences, requirements_offences};

use crate::expressions::met_unless;
use pddl_names::Offence;
use pddl_terms::{Kind, Name};

fn same_word(word: &[u8], other: &[u8]) -> bool
    ensures { result ≡ same_word word.now other.now }
{
    word.eq_ignore_ascii_case(other)
}

fn is_condition_flag(word: &[u8]) -> bool
    ensures { result ≡ is_condition_flag word.now }
{
    same_word(word, b":negative-preconditions")
        || same_word(word, b":disjunctive-preconditions")
        || same_word(word, b":existential-preconditions")
        || same_word(word, b":universal-preconditions")
        || same_word(word, b":quantified-preconditions")
        || same_word(word, b":equality")
        || same_word(word, b":conditional-effects")
}

fn is_number_flag(word: &[u8]) -> bool
    ensures { result ≡ is_number_flag word.now }
{
    same_word(word, b":fluents")
        || same_word(word, b":numeric-fluents")
        || same_word(word, b":action-costs")
        || same_word(word, b":durative-actions")
        || same_word(word, b":duration-inequalities")
        || same_word(word, b":continuous-effects")
        || same_word(word, b":timed-initial-literals")
}

fn is_other_flag(word: &[u8]) -> bool
    ensures { result ≡ is_other_flag word.now }
{
    same_word(word, b":strips")
        || same_word(word, b":typing")
        || same_word(word, b":adl")
        || same_word(word, b":preferences")
        || same_word(word, b":constraints")
        || same_word(word, b":time-costs")
        || same_word(word, b":time")
}

#[tactic(auto, unfolding(crate::specs::Requirements::is_known))]
fn is_known(word: &[u8]) -> bool
    ensures { result ≡ is_known word.now }
{
    is_condition_flag(word) || is_number_flag(word) || is_other_flag(word)
}

#[tactic(auto, using(crate::proofs::Least::least_of))]
fn least_of_requirement(flag: &Name, found: Option<Offence>) -> Option<Offence>
    ensures { result ≡ least_with found (requirement_offences flag.now) }
{
    let is_known = is_known(flag.bytes.as_slice());
    met_unless(found, is_known, Kind::Requirement, flag.at)
}

/// The least of what was found before and of requirements that aren't known.
#[tactic(auto, using(crate::proofs::Least::least_of))]
pub(crate) fn least_of_requirements(
    requirements: &[Name],
    found: Option<Offence>,
) -> Option<Offence>
    ensures { result ≡ least_with found (requirements_offences requirements.now) }
{
    let mut found = found;
    for flag in requirements {
        found = least_of_requirement(flag, found);
    }
    found
}
