//! The chain in parts of 64 bits as far as it is defined there, and on from there in parts of 128.

ghost use Rattle.std.specs.Prelude.{◌≡◌, ℕ, ◌+◌, ◌-◌, ◌≤◌, ◌^◌, ◌<◌, length, map, IfOk, OnErr};
ghost use Rattle.std.specs.Result.{MatchResult};
ghost use Rattle.cert_core.specs.Programs.{Program, Solves, cost_at, CostsAtLeast, ProvesCost, ProvesEmpty};
ghost use Rattle.rational.specs.Rational.{ℚ};
ghost use Rattle.exact_lin.specs.Reckoning.{wide_limit};
ghost use Rattle.lp_tableau.specs.Chains.{EndsOptimal, EndsInfeasible, Leads};
ghost use Rattle.lp_tableau.specs.Dictionaries.{Dictionary, initial, value_of};
ghost use Rattle.lp_tableau.specs.Meanings.{IsDictionary, StandsFor};
ghost use Rattle.lp_tableau.specs.Assignments.{point_of};
ghost use Rattle.lp_tableau.specs.Multipliers.{dual_of, farkas_of, numbered};
ghost use Rattle.lp_tableau.specs.Outcomes.{IsOutcome};
ghost use Rattle.lp_sparse.specs.Stops.{IsStopped};
ghost use Rattle.lp_sparse.specs.Widths.{shown_by, IsWidened, IsFirstPart, GoesOn, counted_from, CountsAtMost};

use crate::dictionary::SparseDictionary;
use crate::width::Width;
use cert_core::Rows;
use exact_lin::{Fraction, Id, Narrow, NoMemory};
use lp_tableau::Outcome;
use std::alloc::Global;
use std::marker::Model;

// How far the chain has come in parts of 64 bits.
#[derive(Clone, Copy, Drop)]
pub(crate) enum Part {
    // It is over.
    Over(Outcome),
    // It goes on in parts of 128 bits, after so many pivots.
    Made(u64),
}

// Walks the chain in parts of 64 bits, and widens the dictionary where the next pivot isn't defined in them.
fn first_part<R: Id, V: Id>(
    alloc: Global,
    width: &mut Width<R, V>,
    budget: u64,
) -> Result<Part, NoMemory>
    requires { IsDictionary (shown_by width.old) }
    ensures part { IfOk result (IsFirstPart (shown_by width.old) budget (shown_by width.new)) }
    ensures widened { IfOk result (λ part. GoesOn part → IsWidened width.new) }
    ensures memory { OnErr result
        (IsStopped wide_limit (shown_by width.old) budget (shown_by width.new)) }
{
    match width {
        Width::In64(narrow) => match narrow.solve(budget) {
            Ok(Outcome::Wide(made)) => match narrow.widen(alloc) {
                Ok(wide) => {
                    *width = Width::In128(wide);
                    Ok(Part::Made(made))
                },
                Err(memory) => Err(memory),
            },
            Ok(Outcome::Optimal) => Ok(Part::Over(Outcome::Optimal)),
            Ok(Outcome::Infeasible) => Ok(Part::Over(Outcome::Infeasible)),
            Ok(Outcome::Spent(spent)) => Ok(Part::Over(Outcome::Spent(spent))),
            Err(memory) => Err(memory),
        },
        Width::In128(_) => Ok(Part::Made(0)),
    }
}

// The outcome with so many pivots more, at most the budget.
fn counted(outcome: Outcome, made: u64, budget: u64) -> Outcome
    requires made { made ≤ budget }
    requires more { CountsAtMost (budget - made) outcome }
    ensures { result ≡ counted_from made outcome }
{
    match outcome {
        Outcome::Optimal => Outcome::Optimal,
        Outcome::Infeasible => Outcome::Infeasible,
        Outcome::Spent(more) => Outcome::Spent(made + more),
        Outcome::Wide(more) => Outcome::Wide(made + more),
    }
}

// Walks on in parts of 128 bits, after so many pivots.
fn second_part<R: Id, V: Id>(
    width: &mut Width<R, V>,
    made: u64,
    budget: u64,
) -> Result<Outcome, NoMemory>
    requires widened { IsWidened width.old }
    requires made { made ≤ budget }
    ensures { (first : Dictionary) → Leads wide_limit first made (shown_by width.old)
        → MatchResult result
        (IsOutcome wide_limit first budget (shown_by width.new))
        (λ _. IsStopped wide_limit first budget (shown_by width.new)) }
{
    match width {
        Width::In128(wide) => match wide.solve(budget - made) {
            Ok(outcome) => Ok(counted(outcome, made, budget)),
            Err(memory) => Err(memory),
        },
        Width::In64(_) => unreachable!(),
    }
}

// At most `budget` pivots, in parts of 64 bits first.
fn walk_on<R: Id, V: Id>(
    alloc: Global,
    width: &mut Width<R, V>,
    budget: u64,
) -> Result<Outcome, NoMemory>
    requires { IsDictionary (shown_by width.old) }
    ensures outcome { IfOk result
        (IsOutcome wide_limit (shown_by width.old) budget (shown_by width.new)) }
    ensures memory { OnErr result
        (IsStopped wide_limit (shown_by width.old) budget (shown_by width.new)) }
{
    match first_part(alloc, width, budget) {
        Ok(Part::Over(outcome)) => Ok(outcome),
        Ok(Part::Made(made)) => match second_part(width, made, budget) {
            Ok(outcome) => Ok(outcome),
            Err(memory) => Err(memory),
        },
        Err(memory) => Err(memory),
    }
}

fn write_point_of<R: Id, V: Id>(width: &Width<R, V>, out: &mut [Fraction])
    requires optimal { EndsOptimal (shown_by width.now) }
    requires length { length out.old ≡ length (shown_by width.now).nonbasic }
    ensures { out.new ≡ point_of (shown_by width.now) (length (shown_by width.now).nonbasic) }
{
    match width {
        Width::In64(narrow) => narrow.wide_point_into(out),
        Width::In128(wide) => wide.point_into(out),
    }
}

fn write_dual_of<R: Id, V: Id>(width: &Width<R, V>, out: &mut [Fraction])
    requires optimal { EndsOptimal (shown_by width.now) }
    requires length { length out.old ≡ length (shown_by width.now).rows }
    ensures { out.new ≡ dual_of (shown_by width.now) }
{
    match width {
        Width::In64(narrow) => narrow.wide_dual_into(out),
        Width::In128(wide) => wide.dual_into(out),
    }
}

fn write_farkas_of<R: Id, V: Id>(width: &Width<R, V>, out: &mut [Fraction])
    requires infeasible { (i : ℕ) × EndsInfeasible (shown_by width.now) i }
    requires length { length out.old ≡ length (shown_by width.now).rows }
    ensures { (i : ℕ) → EndsInfeasible (shown_by width.now) i
        → out.new ≡ farkas_of (shown_by width.now) i }
{
    match width {
        Width::In64(narrow) => narrow.wide_farkas_into(out),
        Width::In128(wide) => wide.farkas_into(out),
    }
}

/// A dictionary of a linear program which walks the chain of [`lp_tableau::Dictionary`] in parts of 64 bits as long as
/// it is defined there, and goes on from the same dictionary in parts of 128. Nobody sees the width: each call has the
/// contract of `SparseDictionary<R, V, Fraction>`.
#[derive(Drop)]
pub struct MixedDictionary<R: Id, V: Id> {
    alloc: Global,
    width: Width<R, V>,
}

impl<R: Id, V: Id> Model for MixedDictionary<R, V> {
    ghost use Rattle.lp_tableau.specs.Dictionaries.{Dictionary};
    ghost use Rattle.lp_tableau.specs.Meanings.{IsDictionary};
    ghost use Rattle.lp_sparse.specs.Widths.{shown_by};

    ghost Value = { Dictionary };

    ghost view = { λ m. shown_by m.width };

    ghost invariant = { λ m. IsDictionary (shown_by m.width) };
}

impl<R: Id, V: Id> MixedDictionary<R, V> {
    /// The first dictionary of the program, in which its variables are nonbasic and the slacks basic. The cost of the
    /// program's solutions has to have a bound below.
    pub fn new<P: Rows<R, V, Fraction>>(alloc: Global, program: &P) -> Result<Self, NoMemory>
        requires { (q : ℚ) × CostsAtLeast (P.program program.now) q }
        ensures value { IfOk result (λ d. d ≡ initial (P.program program.now)) }
        ensures stands { IfOk result (StandsFor (P.program program.now)) }
    {
        let width = match SparseDictionary::narrow_from(alloc, program)? {
            Some(narrow) => Width::In64(narrow),
            None => Width::In128(SparseDictionary::new(alloc, program)?),
        };
        Ok(MixedDictionary { alloc, width })
    }

    /// Makes at most `budget` pivots, as [`SparseDictionary::solve`] does; `Spent` and `Wide` count all pivots of the
    /// call, whatever the width in which they were made. `Wide` comes only where the pivot isn't defined in parts of
    /// 128 bits. After `NoMemory` the dictionary is the one before the pivot that wasn't made.
    pub fn solve(&mut self, budget: u64) -> Result<Outcome, NoMemory>
        ensures outcome { IfOk result (IsOutcome wide_limit self.old budget self.new) }
        ensures memory { OnErr result (IsStopped wide_limit self.old budget self.new) }
        ensures stands { (p : Program) → StandsFor p self.old → StandsFor p self.new }
        ensures variables { length self.new.nonbasic ≡ length self.old.nonbasic }
        ensures rows { length self.new.rows ≡ length self.old.rows }
    {
        walk_on(self.alloc, &mut self.width, budget)
    }

    /// The least cost of the program's solutions, after `Outcome::Optimal`.
    pub fn value(&self) -> Fraction
        requires { EndsOptimal self.now }
        ensures value { result ≡ value_of self.now }
        ensures least { (p : Program) → StandsFor p self.now → CostsAtLeast p result }
    {
        match &self.width {
            Width::In64(narrow) => narrow.value().widen(),
            Width::In128(wide) => wide.value(),
        }
    }

    /// Writes the solution of least cost, after `Outcome::Optimal`: a number for each variable of the program.
    pub fn point_into(&self, out: &mut [Fraction])
        requires optimal { EndsOptimal self.now }
        requires length { length out.old ≡ length self.now.nonbasic }
        ensures point { out.new ≡ point_of self.now (length self.now.nonbasic) }
        ensures solves { (p : Program) → StandsFor p self.now → Solves p out.new }
        ensures cost { (p : Program) → StandsFor p self.now
            → cost_at p out.new ≡ value_of self.now }
    {
        write_point_of(&self.width, out)
    }

    /// Writes the dual row, after `Outcome::Optimal`: multipliers, one for each row of the program, which prove that
    /// each solution costs at least the value.
    pub fn dual_into(&self, out: &mut [Fraction])
        requires optimal { EndsOptimal self.now }
        requires length { length out.old ≡ length self.now.rows }
        ensures dual { out.new ≡ dual_of self.now }
        ensures proves { (p : Program) → StandsFor p self.now
            → ProvesCost p (numbered 0 out.new) (value_of self.now) }
    {
        write_dual_of(&self.width, out)
    }

    /// Writes the Farkas row, after `Outcome::Infeasible`: multipliers, one for each row of the program, which prove
    /// that the program has no solution.
    pub fn farkas_into(&self, out: &mut [Fraction])
        requires infeasible { (i : ℕ) × EndsInfeasible self.now i }
        requires length { length out.old ≡ length self.now.rows }
        ensures farkas { (i : ℕ) → EndsInfeasible self.now i
            → out.new ≡ farkas_of self.now i }
        ensures proves { (p : Program) → StandsFor p self.now
            → ProvesEmpty p (numbered 0 out.new) }
    {
        write_farkas_of(&self.width, out)
    }
}
