//! Dictionaries of linear programs on rows without their zeros, and what can be read off them.

ghost use Rattle.std.specs.Prelude.{◌≡◌, ℕ, length, map, IfOk, IfSome, OnErr, MatchOption};
ghost use Rattle.cert_core.specs.Programs.{Program, Solves, cost_at, CostsAtLeast, ProvesCost, ProvesEmpty};
ghost use Rattle.rational.specs.Rational.{ℚ};
ghost use Rattle.lp_tableau.specs.Chains.{EndsOptimal, EndsInfeasible};
ghost use Rattle.lp_tableau.specs.Dictionaries.{initial, value_of};
ghost use Rattle.lp_tableau.specs.Meanings.{StandsFor};
ghost use Rattle.lp_tableau.specs.Assignments.{point_of};
ghost use Rattle.lp_tableau.specs.Multipliers.{dual_of, farkas_of, numbered};
ghost use Rattle.lp_tableau.specs.Outcomes.{IsOutcome};
ghost use Rattle.lp_sparse.specs.NarrowPrograms.{IsNarrow};
ghost use Rattle.lp_sparse.specs.Stops.{IsStopped};

use crate::narrow::narrow_tableau;
use crate::results::{write_dual, write_farkas, write_point};
use crate::rules::leaving;
use crate::start::first_tableau;
use crate::tableau::Tableau;
use crate::walk::walk;
use crate::widening::widen_tableau;
use cert_core::Rows;
use exact_lin::{Fraction, Id, Narrow, NoMemory, Scalar};
use lp_tableau::Outcome;
use std::alloc::Global;
use std::marker::{Model, PhantomData};

/// A dictionary of a linear program: among the points `x >= 0` with `A x <= b`, the least cost `base + c x`. Each
/// basic variable and the cost stand in it as a constant and multiples of the nonbasic variables (Chvátal 1983), of
/// which those by 0 take neither time nor memory. Variables have the numbers of the program, then come the slacks of
/// its rows. It walks the chain of [`lp_tableau::Dictionary`].
#[derive(Drop)]
pub struct SparseDictionary<R: Id, V: Id, S: Scalar> {
    tableau: Tableau<S>,
    spare: Vec<Vec<(usize, S)>>,
    ids: PhantomData<(R, V)>,
}

impl<R: Id, V: Id, S: Scalar> Model for SparseDictionary<R, V, S> {
    ghost use Rattle.lp_tableau.specs.Dictionaries.{Dictionary};
    ghost use Rattle.lp_sparse.specs.SparseTableaus.{dictionary_of, IsSound};

    ghost Value = { Dictionary };

    ghost view = { λ d. dictionary_of S.value d.tableau };

    ghost invariant = { λ d. IsSound S.value S.limit d.tableau };
}

impl<R: Id, V: Id, S: Scalar> SparseDictionary<R, V, S> {
    /// The first dictionary of the program, in which its variables are nonbasic and the slacks basic. The cost of the
    /// program's solutions has to have a bound below.
    pub fn new<P: Rows<R, V, S>>(alloc: Global, program: &P) -> Result<Self, NoMemory>
        requires { (q : ℚ) × CostsAtLeast (P.program program.now) q }
        ensures value { IfOk result (λ d. d ≡ initial (P.program program.now)) }
        ensures stands { IfOk result (StandsFor (P.program program.now)) }
    {
        let tableau = first_tableau(alloc, program)?;
        Ok(SparseDictionary {
            tableau,
            spare: Vec::new(alloc),
            ids: PhantomData,
        })
    }

    /// Makes at most `budget` pivots. The rules choose them (Bland 1977): where a constant is negative, the basic
    /// variable of least number with a negative constant leaves, and the nonbasic variable of least number with a
    /// positive entry in its row enters; otherwise the nonbasic variable of least number with a negative entry in the
    /// cost enters, and of the basic variables with a negative entry in its column the one of least ratio of constant
    /// to minus entry leaves, ties going to the least number.
    ///
    /// After `NoMemory` the dictionary is the one before the pivot that wasn't made.
    pub fn solve(&mut self, budget: u64) -> Result<Outcome, NoMemory>
        ensures outcome { IfOk result (IsOutcome S.limit self.old budget self.new) }
        ensures memory { OnErr result (IsStopped S.limit self.old budget self.new) }
        ensures stands { (p : Program) → StandsFor p self.old → StandsFor p self.new }
        ensures variables { length self.new.nonbasic ≡ length self.old.nonbasic }
        ensures rows { length self.new.rows ≡ length self.old.rows }
    {
        walk(&mut self.tableau, &mut self.spare, budget)
    }

    /// The least cost of the program's solutions, after `Outcome::Optimal`.
    pub fn value(&self) -> S
        requires { EndsOptimal self.now }
        ensures value { S.value result ≡ value_of self.now }
        ensures least { (p : Program) → StandsFor p self.now → CostsAtLeast p (S.value result) }
    {
        self.tableau.value()
    }

    /// Writes the solution of least cost, after `Outcome::Optimal`: a number for each variable of the program.
    pub fn point_into(&self, out: &mut [S])
        requires optimal { EndsOptimal self.now }
        requires length { length out.old ≡ length self.now.nonbasic }
        ensures point { map S.value out.new ≡ point_of self.now (length self.now.nonbasic) }
        ensures solves { (p : Program) → StandsFor p self.now → Solves p (map S.value out.new) }
        ensures cost { (p : Program) → StandsFor p self.now
            → cost_at p (map S.value out.new) ≡ value_of self.now }
    {
        write_point(&self.tableau, out)
    }

    /// Writes the dual row, after `Outcome::Optimal`: multipliers, one for each row of the program, which prove that
    /// each solution costs at least the value.
    pub fn dual_into(&self, out: &mut [S])
        requires optimal { EndsOptimal self.now }
        requires length { length out.old ≡ length self.now.rows }
        ensures dual { map S.value out.new ≡ dual_of self.now }
        ensures proves { (p : Program) → StandsFor p self.now
            → ProvesCost p (numbered 0 (map S.value out.new)) (value_of self.now) }
    {
        write_dual(&self.tableau, out)
    }

    /// Writes the Farkas row, after `Outcome::Infeasible`: multipliers, one for each row of the program, which prove
    /// that the program has no solution.
    pub fn farkas_into(&self, out: &mut [S])
        requires infeasible { (i : ℕ) × EndsInfeasible self.now i }
        requires length { length out.old ≡ length self.now.rows }
        ensures farkas { (i : ℕ) → EndsInfeasible self.now i
            → map S.value out.new ≡ farkas_of self.now i }
        ensures proves { (p : Program) → StandsFor p self.now
            → ProvesEmpty p (numbered 0 (map S.value out.new)) }
    {
        match leaving(&self.tableau) {
            Some(i) => write_farkas(&self.tableau, i, out),
            None => {},
        }
    }
}

impl<R: Id, V: Id> SparseDictionary<R, V, Narrow> {
    /// The first dictionary of the program in parts of 64 bits; None where one of the program's numbers has none.
    pub fn narrow_from<P: Rows<R, V, Fraction>>(
        alloc: Global,
        program: &P,
    ) -> Result<Option<SparseDictionary<R, V, Narrow>>, NoMemory>
        requires { (q : ℚ) × CostsAtLeast (P.program program.now) q }
        ensures value { IfOk result (λ found. MatchOption found (¬ IsNarrow (P.program program.now))
            (λ d. IsNarrow (P.program program.now) × d ≡ initial (P.program program.now))) }
        ensures stands { IfOk result (λ found. IfSome found (StandsFor (P.program program.now))) }
    {
        let wide = first_tableau(alloc, program)?;
        match narrow_tableau(alloc, wide)? {
            Some(tableau) => Ok(Some(SparseDictionary {
                tableau,
                spare: Vec::new(alloc),
                ids: PhantomData,
            })),
            None => Ok(None),
        }
    }

    /// The same dictionary in parts of 128 bits.
    pub fn widen(&self, alloc: Global) -> Result<SparseDictionary<R, V, Fraction>, NoMemory>
        ensures { IfOk result (λ d. d ≡ self.now) }
    {
        let tableau = widen_tableau(alloc, &self.tableau)?;
        Ok(SparseDictionary {
            tableau,
            spare: Vec::new(alloc),
            ids: PhantomData,
        })
    }

    // `point_into` in parts of 128 bits, and so the other two.
    pub(crate) fn wide_point_into(&self, out: &mut [Fraction])
        requires { length out.old ≡ length self.now.nonbasic }
        ensures { map (λ q. q) out.new ≡ point_of self.now (length self.now.nonbasic) }
    {
        write_point(&self.tableau, out)
    }

    pub(crate) fn wide_dual_into(&self, out: &mut [Fraction])
        requires { length out.old ≡ length self.now.rows }
        ensures { map (λ q. q) out.new ≡ dual_of self.now }
    {
        write_dual(&self.tableau, out)
    }

    pub(crate) fn wide_farkas_into(&self, out: &mut [Fraction])
        requires infeasible { (i : ℕ) × EndsInfeasible self.now i }
        requires length { length out.old ≡ length self.now.rows }
        ensures { (i : ℕ) → EndsInfeasible self.now i
            → map (λ q. q) out.new ≡ farkas_of self.now i }
    {
        match leaving(&self.tableau) {
            Some(i) => write_farkas(&self.tableau, i, out),
            None => {},
        }
    }
}
