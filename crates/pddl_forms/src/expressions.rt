//! Linear expressions: products with one factor at most that is no constant, and quotients by constants.

ghost use Rattle.std.specs.Prelude.{◌≡◌, ◌++◌, ◌+◌, ◌<◌, ◌^◌, ◌&&◌, not, nat_le, length, if◌then◌else◌};
ghost use Rattle.std.specs.List.{flat_map, filter, list_all};
ghost use Rattle.pddl_terms.specs.declared.faults.Kind.TheVariants.{Nonlinear};
ghost use Rattle.pddl_forms.specs.Offences.{least_with, unless};
ghost use Rattle.pddl_forms.specs.Expressions.{is_constant, is_changing, expression_offences, side_offences};

use crate::functions::{Functions, is_static};
use crate::offences::met;
use pddl_names::Offence;
use pddl_terms::{ExprTree, Kind, Side};

/// Whether an expression is a constant, and the least of what was found before it and in it.
#[derive(Clone, Copy)]
pub(crate) struct Judgement {
    pub is_constant: bool,
    pub found: Option<Offence>,
}

/// The least of what was found before and of this, unless all is right.
#[tactic(auto, using(crate::proofs::Least::least_of))]
pub(crate) fn met_unless(
    found: Option<Offence>,
    right: bool,
    kind: Kind,
    at: u32,
) -> Option<Offence>
    ensures { result ≡ least_with found (unless right kind at) }
{
    if right { found } else { met(found, kind, at) }
}

fn both(one: bool, other: bool) -> bool
    ensures { result ≡ one && other }
{
    one && other
}

// How many factors are no constants, with one factor more.
fn counted(changing: usize, is_constant: bool) -> usize
    requires { changing + 1 < 2 ^ 64 }
    ensures { result ≡ changing + (if not is_constant then 1 else 0) }
{
    if is_constant { changing } else { changing + 1 }
}

fn judged(is_constant: bool, found: Option<Offence>) -> Judgement
    ensures constant { result.is_constant ≡ is_constant }
    ensures found { result.found ≡ found }
{
    Judgement { is_constant, found }
}

/// Whether an expression is a constant, and the least of what was found before and in it.
#[cycle(judgements)]
#[tactic(auto, using(crate::proofs::Judgements::judgements))]
pub(crate) fn judge(functions: &Functions, tree: &ExprTree, found: Option<Offence>) -> Judgement
    ensures constant { result.is_constant ≡ is_constant functions.now tree.now }
    ensures found { result.found ≡ least_with found (expression_offences functions.now tree.now) }
{
    match tree {
        ExprTree::Number(_, _) => judged(true, found),
        ExprTree::Fluent(fluent) => {
            judged(is_static(functions, fluent.name.bytes.as_slice()), found)
        }
        ExprTree::Duration(_) => judged(false, found),
        ExprTree::Sum(_, parts) => judge_sum(functions, parts.as_slice(), found),
        ExprTree::Product(at, factors) => judge_product(functions, *at, factors.as_slice(), found),
        ExprTree::Negative(_, part) => judge(functions, part.get(), found),
        ExprTree::Difference(_, left, right) => {
            let first = judge(functions, left.get(), found);
            let second = judge(functions, right.get(), first.found);
            judged(both(first.is_constant, second.is_constant), second.found)
        }
        ExprTree::Quotient(at, left, right) => {
            let first = judge(functions, left.get(), found);
            let second = judge(functions, right.get(), first.found);
            let found = met_unless(second.found, second.is_constant, Kind::Nonlinear, *at);
            judged(both(first.is_constant, second.is_constant), found)
        }
        ExprTree::LeftOut(at) => judged(true, met(found, Kind::LeftOut, *at)),
        ExprTree::TotalTime(_) => judged(false, found),
        ExprTree::Violated(_, _) => judged(false, found),
        ExprTree::TimeCost(_, _) => judged(false, found),
    }
}

#[cycle(judgements)]
#[tactic(auto, using(crate::proofs::Least::least_of))]
fn judge_sum(functions: &Functions, parts: &[ExprTree], found: Option<Offence>) -> Judgement
    ensures constant { result.is_constant ≡ list_all (is_constant functions.now) parts.now }
    ensures found { result.found
        ≡ least_with found (flat_map (expression_offences functions.now) parts.now) }
{
    let mut all = judged(true, found);
    for part in parts {
        let next = judge(functions, part, all.found);
        all = judged(both(all.is_constant, next.is_constant), next.found);
    }
    all
}

#[cycle(judgements)]
#[tactic(auto, using(crate::proofs::Least::least_of))]
fn judge_product(
    functions: &Functions,
    at: u32,
    factors: &[ExprTree],
    found: Option<Offence>,
) -> Judgement
    ensures constant { result.is_constant ≡ list_all (is_constant functions.now) factors.now }
    ensures found { result.found ≡ least_with found
        (flat_map (expression_offences functions.now) factors.now
        ++ unless (nat_le (length (filter (is_changing functions.now) factors.now)) 1) Nonlinear at) }
{
    let mut found = found;
    let mut changing: usize = 0;
    for factor in factors {
        let next = judge(functions, factor, found);
        found = next.found;
        changing = counted(changing, next.is_constant);
    }
    judged(
        changing == 0,
        met_unless(found, changing <= 1, Kind::Nonlinear, at),
    )
}

/// The least of what was found before an expression and in it.
pub(crate) fn least_of_expression(
    functions: &Functions,
    tree: &ExprTree,
    found: Option<Offence>,
) -> Option<Offence>
    ensures { result ≡ least_with found (expression_offences functions.now tree.now) }
{
    judge(functions, tree, found).found
}

#[tactic(auto, using(crate::proofs::Least::least_of))]
fn least_of_side(functions: &Functions, side: &Side, found: Option<Offence>) -> Option<Offence>
    ensures { result ≡ least_with found (side_offences functions.now side.now) }
{
    match side {
        Side::Variable(_) => found,
        Side::Bare(_) => found,
        Side::Expression(tree) => least_of_expression(functions, tree, found),
    }
}

/// The same of the two sides of an `=`.
#[tactic(auto, using(crate::proofs::Least::least_of))]
pub(crate) fn least_of_sides(
    functions: &Functions,
    left: &Side,
    right: &Side,
    found: Option<Offence>,
) -> Option<Offence>
    ensures { result ≡ least_with found
        (side_offences functions.now left.now ++ side_offences functions.now right.now) }
{
    let found = least_of_side(functions, left, found);
    least_of_side(functions, right, found)
}
