//! Timed literals over ground atoms.

ghost use Rattle.std.specs.Prelude.{◌≡◌, ◌++◌, map, OnOk, IfOk, []};
ghost use Rattle.std.specs.List.{flat_map};
ghost use Rattle.ground_world.specs.World.{ground_atom};
ghost use Rattle.ground_world.specs.Changes.{atoms_in};
ghost use Rattle.ground_world.specs.Shown.{world_of};
ghost use Rattle.grounder.specs.Task.{Timing as timed, timing, timings};
ghost use Rattle.grounder.specs.ShownTimings.{timings_of};

use exact_lin::{Fraction, NoMemory};
use ground_world::{Tables, ground_atom};
use pddl_terms::{Call, InitEntry, TimedLiteral};
use sqlite_items::Items;
use std::alloc::Global;

/// A ground atom that becomes true or false at a moment.
#[derive(Drop)]
pub struct Timing {
    pub moment: Fraction,
    pub holds: bool,
    pub atom: Items<u32>,
}

// Puts a timed literal at the end.
fn push_literal(
    alloc: Global,
    tables: &Tables,
    literal: &TimedLiteral,
    out: &mut Items<Timing>,
) -> Result<(), NoMemory>
    ensures { OnOk result (timings_of out.new ≡ timings_of out.old
        ++ timing (world_of tables.now) (InitEntry.Timed literal.now)) }
{
    match &literal.atom {
        Call::Named(atom) => {
            let atom = ground_atom(alloc, tables, &[], atom)?;
            out.push(Timing {
                moment: literal.moment,
                holds: literal.holds,
                atom,
            })?;
            Ok(())
        }
        Call::LeftOut(_) => Ok(()),
    }
}

// Puts the timed literal of an entry of the first state at the end, if it is one.
fn push_entry(
    alloc: Global,
    tables: &Tables,
    entry: &InitEntry,
    out: &mut Items<Timing>,
) -> Result<(), NoMemory>
    ensures { OnOk result (timings_of out.new ≡ timings_of out.old ++ timing (world_of tables.now) entry.now) }
{
    match entry {
        InitEntry::Holds(_) => Ok(()),
        InitEntry::Not(_, _) => Ok(()),
        InitEntry::Value(_, _, _) => Ok(()),
        InitEntry::Timed(literal) => push_literal(alloc, tables, literal, out),
        InitEntry::LeftOut(_) => Ok(()),
    }
}

/// The timed literals among the entries of a first state, in the order of the text.
#[tactic(auto, unfolding(crate::specs::Task::timings))]
pub fn timings(
    alloc: Global,
    tables: &Tables,
    entries: &[InitEntry],
) -> Result<Items<Timing>, NoMemory>
    ensures { IfOk result (λ ts. timings_of ts ≡ timings (world_of tables.now) entries.now) }
{
    let mut out = Items::new(alloc);
    for entry in entries {
        push_entry(alloc, tables, entry, &mut out)?;
    }
    Ok(out)
}
