//! Over-all conditions of the lines that run over a segment, asked in the state at one of its ends.

ghost use Rattle.std.specs.Prelude.{◌≡◌, ◌<◌, map, length};
ghost use Rattle.std.specs.List.{flat_map};
ghost use Rattle.task_types.specs.WellMade.{IsWellMade};
ghost use Rattle.timed_meaning.specs.Answers.{told, Tells};
ghost use Rattle.timed_meaning.specs.Moves.{AreLines};
ghost use Rattle.timed_meaning.specs.Owned.{lines_of};
ghost use Rattle.plan_validator.specs.Firsts.{noted, all_noted};
ghost use Rattle.plan_validator.specs.Segments.{over_all_of, over_all_note, over_all_values};

use crate::conditions::holds;
use crate::least::Least;
use exact_lin::{FormFault, Fraction, Id};
use task_types::{Condition, TaskParts};
use timed_meaning::PlacedLine;

fn over_all<'a>(parts: &'a TaskParts, placed: &PlacedLine) -> &'a Condition
    requires { placed.now.line.action < length parts.now.actions }
    ensures { result.now ≡ over_all_of parts.now placed.now }
{
    &parts.actions.as_slice()[placed.line.action.number() as usize].over_all
}

fn note_line(
    least: &mut Least,
    parts: &TaskParts,
    placed: &PlacedLine,
    segment: usize,
    facts: &[bool],
    fluents: &[Fraction],
) -> Result<(), FormFault>
    requires well_made { IsWellMade parts.now }
    requires covered { length fluents.now ≡ length parts.now.fluents }
    requires known { placed.now.line.action < length parts.now.actions }
    ensures { Tells result (over_all_values parts.now (told facts.now fluents.now) placed.now)
        (λ _. least.new.place ≡ noted least.old.place
        (over_all_note parts.now segment (told facts.now fluents.now) placed.now)) }
{
    match holds(over_all(parts, placed), facts, fluents) {
        Ok(met) => {
            least.note((placed.place, segment), met);
            Ok(())
        }
        Err(fault) => Err(fault),
    }
}

/// Notes at a segment whether the over-all conditions of the lines that run there hold in a state.
pub fn note_running(
    least: &mut Least,
    parts: &TaskParts,
    running: &[PlacedLine],
    segment: usize,
    facts: &[bool],
    fluents: &[Fraction],
) -> Result<(), FormFault>
    requires well_made { IsWellMade parts.now }
    requires covered { length fluents.now ≡ length parts.now.fluents }
    requires known { AreLines parts.now (lines_of running.now) }
    ensures { Tells result
        (flat_map (over_all_values parts.now (told facts.now fluents.now)) running.now)
        (λ _. least.new.place ≡ all_noted least.old.place
        (map (over_all_note parts.now segment (told facts.now fluents.now)) running.now)) }
{
    for placed in running {
        match note_line(least, parts, placed, segment, facts, fluents) {
            Ok(()) => {}
            Err(fault) => return Err(fault),
        }
    }
    Ok(())
}
