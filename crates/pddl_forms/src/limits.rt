//! How much a domain and a problem of it may hold.

ghost use Rattle.std.specs.Prelude.{◌≡◌, ◌-◌, None, length, slice_get};
ghost use Rattle.std.specs.List.{flat_map};
ghost use Rattle.std.specs.Option.{option_copied};
ghost use Rattle.pddl_forms.specs.Offences.{least_with};
ghost use Rattle.pddl_names.specs.Offences.{least};
ghost use Rattle.pddl_forms.specs.Limits.{names_in, at_most, predicate_limits, action_limits, domain_limits, curve_limits, time_cost_limits, piece_place, past_piece, pieces_limit, problem_limits};

use crate::offences::met;
use pddl_names::Offence;
use pddl_terms::{
    ActionDef, CostCurve, Declared, Domain, Group, Kind, Name, PieceDef, Problem, TimeCost,
};

/// The most constants of a domain and objects of a problem, together.
pub const MOST_OBJECTS: usize = 512;
/// The most parameters of an action or a predicate.
pub const MOST_PARAMETERS: usize = 12;
/// The most pieces of a time cost.
pub const MOST_PIECES: usize = 16;

/// The name at a place of a typed list, counted from 0.
#[tactic(auto, using(crate::proofs::NamesIn::names_of))]
fn name_at(groups: &[Group], place: usize) -> Option<&Name>
    ensures { option_copied result ≡ slice_get (names_in groups.now) place }
{
    let mut left = groups;
    let mut place = place;
    while let Some((group, more)) = left.split_first() {
        let names = group.names.as_slice();
        if place < names.len() {
            return names.get(place);
        }
        place -= names.len();
        left = more;
    }
    None
}

/// The least of what was found before and of the first name past so many in a typed list.
#[tactic(auto, using(crate::proofs::Least::least_of))]
fn least_past(most: usize, groups: &[Group], found: Option<Offence>) -> Option<Offence>
    ensures { result ≡ least_with found (at_most most groups.now) }
{
    match name_at(groups, most) {
        Some(name) => met(found, Kind::Limit, name.at),
        None => found,
    }
}

/// How many more names there may be beside those of a typed list, so that there are at most so many.
#[tactic(auto, using(crate::proofs::NamesIn::counts_of))]
fn room_beside(most: usize, groups: &[Group]) -> usize
    ensures { result ≡ most - length (names_in groups.now) }
{
    let mut room = most;
    let mut left = groups;
    while let Some((group, more)) = left.split_first() {
        room = room.saturating_sub(group.names.len());
        left = more;
    }
    room
}

#[tactic(auto, using(crate::proofs::Least::least_of))]
fn least_of_predicate(predicate: &Declared, found: Option<Offence>) -> Option<Offence>
    ensures { result ≡ least_with found (predicate_limits predicate.now) }
{
    match predicate {
        Declared::Named(_, _, parameters) => {
            least_past(MOST_PARAMETERS, parameters.as_slice(), found)
        }
        Declared::LeftOut(_) => found,
    }
}

#[tactic(auto, using(crate::proofs::Least::least_of))]
fn least_of_predicates(predicates: &[Declared], found: Option<Offence>) -> Option<Offence>
    ensures { result ≡ least_with found (flat_map predicate_limits predicates.now) }
{
    let mut found = found;
    for predicate in predicates {
        found = least_of_predicate(predicate, found);
    }
    found
}

fn least_of_action(action: &ActionDef, found: Option<Offence>) -> Option<Offence>
    ensures { result ≡ least_with found (action_limits action.now) }
{
    least_past(MOST_PARAMETERS, action.parameters.as_slice(), found)
}

#[tactic(auto, using(crate::proofs::Least::least_of))]
fn least_of_actions(actions: &[ActionDef], found: Option<Offence>) -> Option<Offence>
    ensures { result ≡ least_with found (flat_map action_limits actions.now) }
{
    let mut found = found;
    for action in actions {
        found = least_of_action(action, found);
    }
    found
}

#[tactic(auto, using(crate::proofs::Least::least_of), unfolding(crate::specs::Limits::domain_limits))]
fn least_of_domain(domain: &Domain) -> Option<Offence>
    ensures { result ≡ least_with None (domain_limits domain.now) }
{
    let found = least_past(MOST_OBJECTS, domain.constants.as_slice(), None);
    let found = least_of_predicates(domain.predicates.as_slice(), found);
    least_of_actions(domain.actions.as_slice(), found)
}

/// The least place at which a domain holds more than it may: a thirteenth parameter of a predicate or an action, or the
/// 513th constant. `None` where it doesn't.
pub fn domain_limit_offence(domain: &Domain) -> Option<Offence>
    ensures { result ≡ least (domain_limits domain.now) }
{
    least_of_domain(domain)
}

fn piece_place(piece: &PieceDef) -> u32
    ensures { result ≡ piece_place piece.now }
{
    match piece {
        PieceDef::Piece { at, .. } => *at,
        PieceDef::LeftOut(at) => *at,
    }
}

fn piece_at(pieces: &[PieceDef], place: usize) -> Option<&PieceDef>
    ensures { option_copied result ≡ slice_get pieces.now place }
{
    pieces.get(place)
}

#[tactic(auto, using(crate::proofs::Least::least_of))]
fn least_past_pieces(pieces: &[PieceDef], found: Option<Offence>) -> Option<Offence>
    ensures { result ≡ least_with found (past_piece (slice_get pieces.now pieces_limit)) }
{
    match piece_at(pieces, MOST_PIECES) {
        Some(piece) => met(found, Kind::Limit, piece_place(piece)),
        None => found,
    }
}

#[tactic(auto, using(crate::proofs::Least::least_of))]
fn least_of_curve(curve: &CostCurve, found: Option<Offence>) -> Option<Offence>
    ensures { result ≡ least_with found (curve_limits curve.now) }
{
    match curve {
        CostCurve::Three { .. } => found,
        CostCurve::Pieces(pieces) => least_past_pieces(pieces.as_slice(), found),
    }
}

#[tactic(auto, using(crate::proofs::Least::least_of))]
fn least_of_time_cost(cost: &TimeCost, found: Option<Offence>) -> Option<Offence>
    ensures { result ≡ least_with found (time_cost_limits cost.now) }
{
    match cost {
        TimeCost::Named(_, _, _, curve) => least_of_curve(curve, found),
        TimeCost::LeftOut(_) => found,
    }
}

#[tactic(auto, using(crate::proofs::Least::least_of))]
fn least_of_time_costs(costs: &[TimeCost], found: Option<Offence>) -> Option<Offence>
    ensures { result ≡ least_with found (flat_map time_cost_limits costs.now) }
{
    let mut found = found;
    for cost in costs {
        found = least_of_time_cost(cost, found);
    }
    found
}

#[tactic(auto, using(crate::proofs::Least::least_of), unfolding(crate::specs::Limits::problem_limits))]
fn least_of_problem(domain: &Domain, problem: &Problem) -> Option<Offence>
    ensures { result ≡ least_with None (problem_limits domain.now problem.now) }
{
    let room = room_beside(MOST_OBJECTS, domain.constants.as_slice());
    let found = least_past(room, problem.objects.as_slice(), None);
    least_of_time_costs(problem.time_costs.as_slice(), found)
}

/// The least place at which a problem of the domain holds more than it may: the object that is the 513th of the domain's
/// constants and its own objects, or the seventeenth piece of a time cost. `None` where it doesn't.
pub fn problem_limit_offence(domain: &Domain, problem: &Problem) -> Option<Offence>
    ensures { result ≡ least (problem_limits domain.now problem.now) }
{
    least_of_problem(domain, problem)
}
