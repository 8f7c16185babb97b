//! Conditions under a binding: their parts, and whether the static ones hold.

ghost use Rattle.std.specs.Prelude.{◌≡◌, ◌≤◌, ◌++◌, map, IfOk, OnOk};
ghost use Rattle.std.specs.List.{list_all};
ghost use Rattle.ground_world.specs.Conditions.{Compares, test, negated, condition_parts, static_part_holds, side_object, equal_part};
ghost use Rattle.ground_world.specs.Counts.{condition_count, part_limit};
ghost use Rattle.ground_world.specs.Shown.{env_of, world_of, expression_of, part_of, parts_of, turned};

use crate::binding::{Bound, bound_object, ground_atom, symbol};
use crate::choosing::{bound, choices_within, variables};
use crate::parts::{CondPart, CondTest, Operand};
use crate::tables::Tables;
use exact_lin::NoMemory;
use pddl_names::is_equality;
use pddl_terms::{Comparison, CondTree, Side};
use sqlite_items::Items;
use std::alloc::Global;

/// The most literals and comparisons of a condition.
pub const MOST_PARTS: usize = 65_536;

/// The object that a side of an equality of terms stands for.
pub fn side_object(tables: &Tables, env: &[Bound], side: &Side) -> u32
    ensures { result ≡ side_object (world_of tables.now) (env_of env.now) side.now }
{
    match side {
        Side::Variable(name) => bound_object(env, name.bytes.as_slice()),
        Side::Bare(name) => tables.object(name.bytes.as_slice()),
        Side::Expression(_) => 0,
    }
}

// The part that a comparison is.
fn compare_part<'a>(
    alloc: Global,
    env: &[Bound<'a>],
    place: u32,
    order: Comparison,
    left: Operand<'a>,
    right: Operand<'a>,
) -> Result<CondPart<'a>, NoMemory>
    ensures { IfOk result (λ part. part_of part ≡ Compares (test (env_of env.now) place order (expression_of left.entry) (expression_of right.entry))) }
{
    let env = Items::from_slice(alloc, env)?;
    Ok(CondPart::Compares(CondTest {
        place,
        order,
        left,
        right,
        env,
    }))
}

/// The part that an `=` with its sides is.
pub fn equal_part<'a>(
    alloc: Global,
    tables: &Tables,
    env: &[Bound<'a>],
    place: u32,
    left: &'a Side,
    right: &'a Side,
) -> Result<CondPart<'a>, NoMemory>
    ensures { IfOk result (λ part. part_of part ≡ equal_part (world_of tables.now) (env_of env.now) place left.now right.now) }
{
    if is_equality(&tables.functions, left, right) {
        let holds = side_object(tables, env, left) == side_object(tables, env, right);
        return Ok(CondPart::Same(holds));
    }
    compare_part(
        alloc,
        env,
        place,
        Comparison::Equal,
        Operand::Side(left),
        Operand::Side(right),
    )
}

// The part with the opposite truth.
fn negated<'a>(part: CondPart<'a>) -> CondPart<'a>
    ensures { part_of result ≡ negated (part_of part.entry) }
{
    match part {
        CondPart::Literal(atom, holds) => CondPart::Literal(atom, !holds),
        CondPart::Same(holds) => CondPart::Same(!holds),
        CondPart::Compares(comparison) => CondPart::Compares(comparison),
    }
}

// The part, or with `opposite` the part with the opposite truth.
fn turned<'a>(opposite: bool, part: CondPart<'a>) -> CondPart<'a>
    ensures { part_of result ≡ turned opposite (part_of part.entry) }
{
    if opposite { negated(part) } else { part }
}

/// Puts the parts of a condition at the end, in the order of the text, quantifiers written out; with `opposite` each with the opposite truth.
pub fn push_parts<'a>(
    alloc: Global,
    tables: &'a Tables,
    env: &[Bound<'a>],
    condition: &'a CondTree,
    opposite: bool,
    out: &mut Items<CondPart<'a>>,
) -> Result<(), NoMemory>
    requires { condition_count (world_of tables.now) condition.now ≤ part_limit }
    ensures { OnOk result (parts_of out.new ≡ parts_of out.old ++ map (turned opposite) (condition_parts (world_of tables.now) (env_of env.now) condition.now)) }
{
    match condition {
        CondTree::Empty(_) => Ok(()),
        CondTree::And(_, parts) => {
            for part in parts.as_slice() {
                push_parts(alloc, tables, env, part, opposite, out)?;
            }
            Ok(())
        }
        CondTree::Forall(_, groups, body) => {
            let variables = variables(alloc, tables, groups.as_slice())?;
            let slots = variables.as_slice();
            let count = choices_within(slots, MOST_PARTS);
            for number in 0..count {
                let inner = bound(alloc, env, slots, number, count)?;
                push_parts(alloc, tables, inner.as_slice(), body.get(), opposite, out)?;
            }
            Ok(())
        }
        CondTree::Atom(atom) => {
            let atom = ground_atom(alloc, tables, env, atom)?;
            out.push(turned(opposite, CondPart::Literal(atom, true)))?;
            Ok(())
        }
        CondTree::Not(_, inner) => push_parts(alloc, tables, env, inner.get(), !opposite, out),
        CondTree::Equal(place, left, right) => {
            let part = equal_part(alloc, tables, env, *place, left, right)?;
            out.push(turned(opposite, part))?;
            Ok(())
        }
        CondTree::Compare(place, order, left, right) => {
            let (left, right) = (Operand::Tree(left), Operand::Tree(right));
            let part = compare_part(alloc, env, *place, *order, left, right)?;
            out.push(turned(opposite, part))?;
            Ok(())
        }
        CondTree::LeftOut(_) => Ok(()),
    }
}

// Whether a part is no static condition that fails.
fn static_part_holds(tables: &Tables, part: &CondPart) -> bool
    ensures { result ≡ static_part_holds (world_of tables.now) (part_of part.now) }
{
    match part {
        CondPart::Literal(atom, holds) => {
            !tables.is_static(symbol(atom.as_slice())) || tables.is_held(atom.as_slice()) == *holds
        }
        CondPart::Same(holds) => *holds,
        CondPart::Compares(_) => true,
    }
}

/// Whether the static conditions among some parts hold.
pub fn static_holds(tables: &Tables, parts: &[CondPart]) -> bool
    ensures { result ≡ list_all (λ part. static_part_holds (world_of tables.now) (part_of part)) parts.now }
{
    parts.iter().all(|part| static_part_holds(tables, part))
}
