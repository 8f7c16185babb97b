//! What the steps of a happening read in the state before it: whether durations fit and conditions hold.

ghost use Rattle.std.specs.Prelude.{◌≡◌, ◌<◌, [], length};
ghost use Rattle.std.specs.List.{AllByRecursion, list_all, flat_map};
ghost use Rattle.exact_lin.specs.Forms.{Covers};
ghost use Rattle.task_types.specs.Plan.{snap_of, action_of};
ghost use Rattle.task_types.specs.State.{holds as holds_in};
ghost use Rattle.task_types.specs.Clash.{is_read_at, own_action};
ghost use Rattle.task_types.specs.Reckoned.{read_reckoned};
ghost use Rattle.task_types.specs.WellMade.{IsWellMade};
ghost use Rattle.timed_meaning.specs.Answers.{told, Tells};
ghost use Rattle.timed_meaning.specs.Told.{AreSteps};
ghost use Rattle.timed_meaning.specs.Owned.{steps_of};
ghost use Rattle.plan_validator.specs.Readings.{one_value, bound_met, bound_value, bound_read, is_long, fits_at, reading_of, as_start, as_end, with_reading, with_step, with_steps, bounds_reckoned, nothing_read};

use crate::conditions::{both, form_value, holds, is_at_most};
use crate::least::Least;
use exact_lin::{ActionId, FormFault, Fraction, Id};
use task_types::{Bound, Rules, Snap, SnapKind, TaskParts};
use timed_meaning::{OwnedStep, PlanStep};

/// What a step reads: whether its duration fits there, and whether its condition holds.
#[derive(Clone, Copy, Drop)]
pub struct Reading {
    pub fits: bool,
    pub ready: bool,
}

/// The least lines so far of which the duration doesn't fit, or the condition of the start or of the end fails.
#[derive(Clone, Copy, Drop)]
pub struct Readings {
    pub durations: Least,
    pub starts: Least,
    pub ends: Least,
}

pub fn is_read_at(kind: SnapKind, bound: &Bound) -> bool
    ensures { result ≡ is_read_at kind bound.now }
{
    match kind {
        SnapKind::Start => !bound.at_end,
        SnapKind::End => bound.at_end,
        SnapKind::Instant => false,
        SnapKind::Timed => false,
    }
}

fn bound_meets(bound: &Bound, fluents: &[Fraction], duration: Fraction) -> Result<bool, FormFault>
    requires { Covers (length fluents.now) bound.now.form.terms }
    ensures { Tells result (one_value (told [] fluents.now) bound.now.form)
        (λ b. b ≡ bound_met (told [] fluents.now) duration bound.now) }
{
    match form_value(&bound.form, fluents) {
        Ok(value) => {
            if bound.at_least {
                Ok(is_at_most(value, duration))
            } else {
                Ok(is_at_most(duration, value))
            }
        }
        Err(fault) => Err(fault),
    }
}

fn read_bound(
    kind: SnapKind,
    bound: &Bound,
    fluents: &[Fraction],
    duration: Fraction,
) -> Result<bool, FormFault>
    requires { Covers (length fluents.now) bound.now.form.terms }
    ensures { Tells result (bound_value kind (told [] fluents.now) bound.now)
        (λ b. b ≡ bound_read kind (told [] fluents.now) duration bound.now) }
{
    if is_read_at(kind, bound) {
        return bound_meets(bound, fluents, duration);
    }
    Ok(true)
}

fn read_bounds(
    kind: SnapKind,
    bounds: &[Bound],
    fluents: &[Fraction],
    duration: Fraction,
) -> Result<bool, FormFault>
    requires { AllByRecursion (λ b. Covers (length fluents.now) b.form.terms) bounds.now }
    ensures { Tells result (flat_map (bound_value kind (told [] fluents.now)) bounds.now)
        (λ b. b ≡ list_all (bound_read kind (told [] fluents.now) duration) bounds.now) }
{
    let mut all = true;
    for bound in bounds {
        match read_bound(kind, bound, fluents, duration) {
            Ok(meets) => all = both(all, meets),
            Err(fault) => return Err(fault),
        }
    }
    Ok(all)
}

fn bounds_of(parts: &TaskParts, action: ActionId) -> &[Bound]
    ensures { result.now ≡ (action_of parts.now action).bounds }
{
    match parts.actions.get(action.number() as usize) {
        Some(action) => action.bounds.as_slice(),
        None => &[],
    }
}

// The duration bounds of a snap action's own action; none where it has no action.
pub fn own_bounds<'a>(parts: &'a TaskParts, snap: &Snap) -> &'a [Bound]
    ensures { result.now ≡ flat_map (λ a. a.bounds) (own_action parts.now snap.now) }
{
    match snap.action {
        Some(action) => bounds_of(parts, action),
        None => &[],
    }
}

fn is_long(kind: SnapKind, rules: &Rules, duration: Fraction) -> bool
    ensures { result ≡ is_long kind rules.now duration }
{
    match kind {
        SnapKind::Start => is_at_most(rules.epsilon, duration),
        SnapKind::End => true,
        SnapKind::Instant => true,
        SnapKind::Timed => true,
    }
}

pub fn snap<'a>(parts: &'a TaskParts, step: &PlanStep) -> &'a Snap
    requires { step.now.snap < length parts.now.snaps }
    ensures { result.now ≡ snap_of parts.now step.now.snap }
{
    &parts.snaps.as_slice()[step.snap().number() as usize]
}

fn fits_at(
    parts: &TaskParts,
    rules: &Rules,
    step: &PlanStep,
    fluents: &[Fraction],
) -> Result<bool, FormFault>
    requires well_made { IsWellMade parts.now }
    requires covered { length fluents.now ≡ length parts.now.fluents }
    requires known { step.now.snap < length parts.now.snaps }
    ensures { Tells result (bounds_reckoned parts.now (told [] fluents.now) step.now)
        (λ b. b ≡ fits_at parts.now rules.now (told [] fluents.now) step.now) }
{
    let snap = snap(parts, step);
    let long = is_long(snap.kind, rules, step.duration());
    match read_bounds(snap.kind, own_bounds(parts, snap), fluents, step.duration()) {
        Ok(meets) => Ok(both(long, meets)),
        Err(fault) => Err(fault),
    }
}

// Whether the condition of a step holds.
fn is_ready(
    parts: &TaskParts,
    step: &PlanStep,
    facts: &[bool],
    fluents: &[Fraction],
) -> Result<bool, FormFault>
    requires well_made { IsWellMade parts.now }
    requires covered { length fluents.now ≡ length parts.now.fluents }
    requires known { step.now.snap < length parts.now.snaps }
    ensures { Tells result (flat_map (one_value (told facts.now fluents.now))
        (snap_of parts.now step.now.snap).condition.comparisons)
        (λ b. b ≡ holds_in (snap_of parts.now step.now.snap).condition (told facts.now fluents.now)) }
{
    holds(&snap(parts, step).condition, facts, fluents)
}

fn read_step(
    parts: &TaskParts,
    rules: &Rules,
    step: &PlanStep,
    facts: &[bool],
    fluents: &[Fraction],
) -> Result<Reading, FormFault>
    requires well_made { IsWellMade parts.now }
    requires covered { length fluents.now ≡ length parts.now.fluents }
    requires known { step.now.snap < length parts.now.snaps }
    ensures { Tells result (read_reckoned parts.now (told facts.now fluents.now) step.now)
        (λ r. r ≡ reading_of parts.now rules.now (told facts.now fluents.now) step.now) }
{
    match is_ready(parts, step, facts, fluents) {
        Ok(ready) => match fits_at(parts, rules, step, fluents) {
            Ok(fits) => Ok(Reading { fits, ready }),
            Err(fault) => Err(fault),
        },
        Err(fault) => Err(fault),
    }
}

fn as_start(kind: SnapKind, ready: bool) -> bool
    ensures { result ≡ as_start kind ready }
{
    match kind {
        SnapKind::Start => ready,
        SnapKind::End => true,
        SnapKind::Instant => ready,
        SnapKind::Timed => true,
    }
}

fn as_end(kind: SnapKind, ready: bool) -> bool
    ensures { result ≡ as_end kind ready }
{
    match kind {
        SnapKind::Start => true,
        SnapKind::End => ready,
        SnapKind::Instant => true,
        SnapKind::Timed => true,
    }
}

impl Readings {
    /// Nothing is read so far.
    pub fn new() -> Readings
        ensures { result ≡ nothing_read }
    {
        Readings {
            durations: Least::new(),
            starts: Least::new(),
            ends: Least::new(),
        }
    }

    fn note(&mut self, kind: SnapKind, owner: usize, reading: Reading)
        ensures { self.new ≡ with_reading kind owner reading self.old }
    {
        self.durations.note((owner, 0), reading.fits);
        self.starts.note((owner, 0), as_start(kind, reading.ready));
        self.ends.note((owner, 0), as_end(kind, reading.ready));
    }
}

fn note_step(
    readings: &mut Readings,
    parts: &TaskParts,
    rules: &Rules,
    owned: &OwnedStep,
    facts: &[bool],
    fluents: &[Fraction],
) -> Result<(), FormFault>
    requires well_made { IsWellMade parts.now }
    requires covered { length fluents.now ≡ length parts.now.fluents }
    requires known { owned.now.step.snap < length parts.now.snaps }
    ensures { Tells result (read_reckoned parts.now (told facts.now fluents.now) owned.now.step)
        (λ _. readings.new
        ≡ with_step parts.now rules.now (told facts.now fluents.now) readings.old owned.now) }
{
    match read_step(parts, rules, &owned.step, facts, fluents) {
        Ok(reading) => {
            readings.note(snap(parts, &owned.step).kind, owned.owner, reading);
            Ok(())
        }
        Err(fault) => Err(fault),
    }
}

/// Reads what the steps of a happening read in the state before it, and notes what that tells of their lines.
pub fn read_steps(
    readings: &mut Readings,
    parts: &TaskParts,
    rules: &Rules,
    here: &[OwnedStep],
    facts: &[bool],
    fluents: &[Fraction],
) -> Result<(), FormFault>
    requires well_made { IsWellMade parts.now }
    requires covered { length fluents.now ≡ length parts.now.fluents }
    requires known { AreSteps parts.now (steps_of here.now) }
    ensures { Tells result
        (flat_map (λ o. read_reckoned parts.now (told facts.now fluents.now) o.step) here.now)
        (λ _. readings.new
        ≡ with_steps parts.now rules.now (told facts.now fluents.now) readings.old here.now) }
{
    for owned in here {
        match note_step(readings, parts, rules, owned, facts, fluents) {
            Ok(()) => {}
            Err(fault) => return Err(fault),
        }
    }
    Ok(())
}
