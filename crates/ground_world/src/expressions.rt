//! Expressions under a binding: their values as forms, their flaws, and the fluents that have no value.

ghost use Rattle.std.specs.Prelude.{◌≡◌, [], ◌∷◌, ◌++◌, map, IfOk, OnOk};
ghost use Rattle.ground_world.specs.World.{World, Env, ground_fluent};
ghost use Rattle.ground_world.specs.Expressions.{Unknowns, fluent_form, own_unknown, preference_unknown, cost_unknown, reckoned, operated, divided, minus_form};
ghost use Rattle.ground_world.specs.Expressions as reckoning;
ghost use Rattle.ground_world.specs.Operations.{operation};
ghost use Rattle.ground_world.specs.Shown.{world_of};
ghost use Rattle.ground_world.specs.Readings.{world_in, unknowns_in, env_in, reckoned_in};

use crate::binding::{ground_fluent, symbol};
use crate::operations::{Flaw, Operands, Operation, divide, negate, operate, operate_on_two};
use crate::readings::Reading;
use crate::sums::{constant_form, unknown};
use crate::tables::Tables;
use exact_lin::{FluentId, Form, Fraction, NoMemory};
use pddl_terms::{Atom, ExprTree};
use sqlite_items::Items;
use std::alloc::Global;

/// The form of a ground fluent: its value where its function is static, else an unknown.
pub fn fluent_form(
    alloc: Global,
    tables: &Tables,
    fluent: &[u32],
) -> Result<Form<FluentId, Fraction>, NoMemory>
    ensures { IfOk result (λ form. form ≡ fluent_form (world_of tables.now) fluent.now) }
{
    if !tables.is_static_function(symbol(fluent)) {
        return unknown(alloc, tables.fluents.place_or_len(fluent) as u32);
    }
    match tables.value(fluent) {
        Some(value) => Ok(constant_form(alloc, value)),
        None => Ok(Form::zero(alloc)),
    }
}

/// The number of the duration, or of the total time, among the unknowns.
pub fn own_unknown(reading: &Reading) -> u32
    ensures { result ≡ own_unknown (world_in reading.now) }
{
    reading.tables.fluents.len() as u32
}

/// The number of a preference among the unknowns.
pub fn preference_unknown(reading: &Reading, name: &[u8]) -> u32
    ensures { result ≡ preference_unknown (world_in reading.now) (unknowns_in reading.now) name.now }
{
    own_unknown(reading) + 1 + 2 * reading.names.preferences.place_or_len(name) as u32
}

/// The number of a time cost among the unknowns.
pub fn cost_unknown(reading: &Reading, name: &[u8]) -> u32
    ensures { result ≡ cost_unknown (world_in reading.now) (unknowns_in reading.now) name.now }
{
    own_unknown(reading) + 2 + 2 * reading.names.costs.place_or_len(name) as u32
}

// The form of a fluent with its terms.
fn atom_form(
    alloc: Global,
    reading: &Reading,
    atom: &Atom,
) -> Result<Option<Form<FluentId, Fraction>>, NoMemory>
    ensures { IfOk result (λ form. form ≡ Some (fluent_form (world_in reading.now) (ground_fluent (world_in reading.now) (env_in reading.now) atom.now))) }
{
    let fluent = ground_fluent(alloc, reading.tables, reading.env, atom)?;
    let form = fluent_form(alloc, reading.tables, fluent.as_slice())?;
    Ok(Some(form))
}

// The form of the duration, or of the total time.
pub fn own_form(
    alloc: Global,
    reading: &Reading,
) -> Result<Option<Form<FluentId, Fraction>>, NoMemory>
    ensures { IfOk result (λ form. form ≡ Some (reckoning.unknown (own_unknown (world_in reading.now)))) }
{
    let form = unknown(alloc, own_unknown(reading))?;
    Ok(Some(form))
}

// The form of a preference in a metric.
fn preference_form(
    alloc: Global,
    reading: &Reading,
    name: &[u8],
) -> Result<Option<Form<FluentId, Fraction>>, NoMemory>
    ensures { IfOk result (λ form. form ≡ Some (reckoning.unknown (preference_unknown (world_in reading.now) (unknowns_in reading.now) name.now))) }
{
    let form = unknown(alloc, preference_unknown(reading, name))?;
    Ok(Some(form))
}

// The form of a time cost in a metric.
fn cost_form(
    alloc: Global,
    reading: &Reading,
    name: &[u8],
) -> Result<Option<Form<FluentId, Fraction>>, NoMemory>
    ensures { IfOk result (λ form. form ≡ Some (reckoning.unknown (cost_unknown (world_in reading.now) (unknowns_in reading.now) name.now))) }
{
    let form = unknown(alloc, cost_unknown(reading, name))?;
    Ok(Some(form))
}

// The byte at which an expression begins.
fn place(tree: &ExprTree) -> u32
    ensures { (w : World) (us : Unknowns) (env : Env) → result ≡ (reckoned w us env tree.now).place }
{
    match tree {
        ExprTree::Number(at, _) => *at,
        ExprTree::Fluent(atom) => atom.at,
        ExprTree::Duration(at) => *at,
        ExprTree::Sum(at, _) => *at,
        ExprTree::Product(at, _) => *at,
        ExprTree::Negative(at, _) => *at,
        ExprTree::Difference(at, _, _) => *at,
        ExprTree::Quotient(at, _, _) => *at,
        ExprTree::LeftOut(at) => *at,
        ExprTree::TotalTime(at) => *at,
        ExprTree::Violated(at, _) => *at,
        ExprTree::TimeCost(at, _) => *at,
    }
}

/// The value of an expression, or None where it has none. Its flaws are put at the end of the others.
#[cycle(reckoning)]
pub fn reckon(
    alloc: Global,
    reading: &Reading,
    tree: &ExprTree,
    flaws: &mut Items<Flaw>,
) -> Result<Option<Form<FluentId, Fraction>>, NoMemory>
    ensures value { IfOk result (λ value. value ≡ (reckoned_in reading.now tree.now).value) }
    ensures flaws { OnOk result (flaws.new ≡ flaws.old ++ (reckoned_in reading.now tree.now).flaws) }
{
    match tree {
        ExprTree::Number(_, number) => Ok(Some(constant_form(alloc, *number))),
        ExprTree::Fluent(atom) => atom_form(alloc, reading, atom),
        ExprTree::Duration(_) => own_form(alloc, reading),
        ExprTree::Sum(at, parts) => {
            reckon_list(alloc, reading, *at, Operation::Sum, parts.as_slice(), flaws)
        }
        ExprTree::Product(at, parts) => {
            reckon_list(
                alloc,
                reading,
                *at,
                Operation::Product,
                parts.as_slice(),
                flaws,
            )
        }
        ExprTree::Negative(at, part) => reckon_negative(alloc, reading, *at, part.get(), flaws),
        ExprTree::Difference(at, left, right) => {
            reckon_difference(alloc, reading, *at, left.get(), right.get(), flaws)
        }
        ExprTree::Quotient(at, left, right) => {
            reckon_quotient(alloc, reading, *at, left.get(), right.get(), flaws)
        }
        ExprTree::LeftOut(_) => Ok(None),
        ExprTree::TotalTime(_) => own_form(alloc, reading),
        ExprTree::Violated(_, name) => preference_form(alloc, reading, name.bytes.as_slice()),
        ExprTree::TimeCost(_, name) => cost_form(alloc, reading, name.bytes.as_slice()),
    }
}

// What an operation gives of some expressions.
#[cycle(reckoning)]
fn reckon_list(
    alloc: Global,
    reading: &Reading,
    at: u32,
    what: Operation,
    trees: &[ExprTree],
    flaws: &mut Items<Flaw>,
) -> Result<Option<Form<FluentId, Fraction>>, NoMemory>
    ensures value { IfOk result (λ value. value
        ≡ (operated at (operation what) (map (reckoned_in reading.now) trees.now)).value) }
    ensures flaws { OnOk result (flaws.new ≡ flaws.old
        ++ (operated at (operation what) (map (reckoned_in reading.now) trees.now)).flaws) }
{
    let mut operands = Operands::new(alloc);
    for tree in trees {
        let value = reckon(alloc, reading, tree, flaws)?;
        operands.push(value)?;
    }
    operate(alloc, at, what, &operands, flaws)
}

// The negative of an expression.
#[cycle(reckoning)]
fn reckon_negative(
    alloc: Global,
    reading: &Reading,
    at: u32,
    part: &ExprTree,
    flaws: &mut Items<Flaw>,
) -> Result<Option<Form<FluentId, Fraction>>, NoMemory>
    ensures value { IfOk result (λ value. value ≡ (operated at minus_form (reckoned_in reading.now part.now ∷ [])).value) }
    ensures flaws { OnOk result (flaws.new ≡ flaws.old ++ (operated at minus_form (reckoned_in reading.now part.now ∷ [])).flaws) }
{
    let value = reckon(alloc, reading, part, flaws)?;
    negate(alloc, at, value, flaws)
}

// The difference of two expressions.
#[cycle(reckoning)]
fn reckon_difference(
    alloc: Global,
    reading: &Reading,
    at: u32,
    left: &ExprTree,
    right: &ExprTree,
    flaws: &mut Items<Flaw>,
) -> Result<Option<Form<FluentId, Fraction>>, NoMemory>
    ensures value { IfOk result (λ value. value
        ≡ (operated at minus_form (reckoned_in reading.now left.now ∷ reckoned_in reading.now right.now ∷ [])).value) }
    ensures flaws { OnOk result (flaws.new ≡ flaws.old
        ++ (operated at minus_form (reckoned_in reading.now left.now ∷ reckoned_in reading.now right.now ∷ [])).flaws) }
{
    let minuend = reckon(alloc, reading, left, flaws)?;
    let subtrahend = reckon(alloc, reading, right, flaws)?;
    operate_on_two(alloc, at, Operation::Minus, minuend, subtrahend, flaws)
}

// The quotient of two expressions.
#[cycle(reckoning)]
fn reckon_quotient(
    alloc: Global,
    reading: &Reading,
    at: u32,
    left: &ExprTree,
    right: &ExprTree,
    flaws: &mut Items<Flaw>,
) -> Result<Option<Form<FluentId, Fraction>>, NoMemory>
    ensures value { IfOk result (λ value. value
        ≡ (divided at (reckoned_in reading.now left.now) (reckoned_in reading.now right.now)).value) }
    ensures flaws { OnOk result (flaws.new ≡ flaws.old
        ++ (divided at (reckoned_in reading.now left.now) (reckoned_in reading.now right.now)).flaws) }
{
    let dividend = reckon(alloc, reading, left, flaws)?;
    let divisor = reckon(alloc, reading, right, flaws)?;
    divide(alloc, at, dividend, place(right), divisor, flaws)
}
