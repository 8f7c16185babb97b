//! Small programs, solved by the dense form and by both sparse ones.

ghost use Rattle.std.specs.Prelude.{◌≡◌, ℕ, length, IsTrue, IfOk, IfSome};
ghost use Rattle.rational.specs.Rational.{ℚ};
ghost use Rattle.cert_core.specs.Programs.{CostsAtLeast};
ghost use Rattle.lp_tableau.specs.Chains.{EndsInfeasible, EndsOptimal};

use crate::{MixedDictionary, SparseDictionary, nonzero_pairs};
use cert_core::{DualRow, Rows, check_dual};
use exact_lin::{Fraction, Id, Narrow, NoMemory, RowId, Scalar, VarId};
use lp_tableau::{Dictionary, Outcome};
use std::alloc::Global;
use std::test::Fail;

// The row a x + b y <= bound.
#[derive(Clone, Copy)]
struct Inequality {
    a: i32,
    b: i32,
    bound: i32,
}

// Three rows over the variables x and y, and the cost c x + d y.
#[derive(Clone, Copy)]
struct Listed {
    lines: [Inequality; 3],
    c: i32,
    d: i32,
}

impl<R: Id, V: Id, S: Scalar> Rows<R, V, S> for Listed {
    ghost use Rattle.lp_tableau.specs.TwoVariables.{two_variables, two_variables-even};

    ghost program = { λ p. two_variables (λ l. l.a) (λ l. l.b) (λ l. l.bound) p.lines p.c p.d };

    fn row_count(&self) -> u32 {
        3
    }

    fn var_count(&self) -> u32 {
        2
    }

    fn entry(&self, r: R, v: V) -> S {
        let line = self.lines[r.number() as usize];
        if v.number() == 0 {
            S::of_int(line.a)
        } else {
            S::of_int(line.b)
        }
    }

    fn bound(&self, r: R) -> S {
        let line = self.lines[r.number() as usize];
        S::of_int(line.bound)
    }

    fn cost(&self, v: V) -> S {
        if v.number() == 0 {
            S::of_int(self.c)
        } else {
            S::of_int(self.d)
        }
    }

    fn base(&self) -> S {
        S::of_int(0)
    }

    ghost even = { λ p. two_variables-even _ _ _ p.lines p.c p.d };
}

// The rows -x <= bound and 100 x - y <= 0, without a cost.
#[derive(Drop)]
struct FarAway<S> {
    bound: S,
}

impl<R: Id, V: Id, S: Scalar> Rows<R, V, S> for FarAway<S> {
    ghost use Rattle.lp_tableau.specs.TwoVariables.{far_away, far_away-even};

    ghost program = { λ p. far_away (S.value p.bound) };

    fn row_count(&self) -> u32 {
        2
    }

    fn var_count(&self) -> u32 {
        2
    }

    fn entry(&self, r: R, v: V) -> S {
        if r.number() == 0 {
            if v.number() == 0 {
                S::of_int(-1)
            } else {
                S::of_int(0)
            }
        } else if v.number() == 0 {
            S::of_int(100)
        } else {
            S::of_int(-1)
        }
    }

    fn bound(&self, r: R) -> S {
        if r.number() == 0 {
            self.bound
        } else {
            S::of_int(0)
        }
    }

    fn cost(&self, _v: V) -> S {
        S::of_int(0)
    }

    fn base(&self) -> S {
        S::of_int(0)
    }

    ghost even = { λ p. far_away-even (S.value p.bound) };
}

// A row that, taken once, shows that a program's cost is at least `least`; or no row, where nothing has to be shown.
#[derive(Clone, Copy)]
struct Floor {
    row: Option<u32>,
    least: i32,
}

fn floor_row(alloc: Global, floor: Floor) -> Result<DualRow<RowId, Fraction>, NoMemory> {
    let mut pairs = Vec::new(alloc);
    if let Some(row) = floor.row {
        pairs.push((RowId::of(row), Fraction::of_int(1)))?;
    }
    DualRow::of_pairs(alloc, &pairs)
}

// Whether the program has this floor.
fn has_floor<P: Rows<RowId, VarId, Fraction>>(
    alloc: Global,
    program: &P,
    floor: Floor,
) -> Result<bool, NoMemory>
    ensures { IfOk result (λ told. IsTrue told
        → (q : ℚ) × CostsAtLeast (P.program program.now) q) }
{
    let row = floor_row(alloc, floor)?;
    match check_dual(program, &row, Fraction::of_int(floor.least)) {
        Ok(()) => Ok(true),
        Err(_) => Ok(false),
    }
}

// The first dictionary over whole rows, where the program has the floor; and so the others.
fn dense_of<P: Rows<RowId, VarId, Fraction>>(
    alloc: Global,
    program: &P,
    floor: Floor,
) -> Result<Option<Dictionary<RowId, VarId, Fraction>>, NoMemory> {
    if !has_floor(alloc, program, floor)? {
        return Ok(None);
    }
    Ok(Some(Dictionary::new(alloc, program)?))
}

fn sparse_of<P: Rows<RowId, VarId, Fraction>>(
    alloc: Global,
    program: &P,
    floor: Floor,
) -> Result<Option<SparseDictionary<RowId, VarId, Fraction>>, NoMemory>
    ensures variables { IfOk result (λ found. IfSome found (λ d.
        length d.nonbasic ≡ length (P.program program.now).costs)) }
    ensures rows { IfOk result (λ found. IfSome found (λ d.
        length d.rows ≡ length (P.program program.now).rows)) }
{
    if !has_floor(alloc, program, floor)? {
        return Ok(None);
    }
    Ok(Some(SparseDictionary::new(alloc, program)?))
}

fn mixed_of<P: Rows<RowId, VarId, Fraction>>(
    alloc: Global,
    program: &P,
    floor: Floor,
) -> Result<Option<MixedDictionary<RowId, VarId>>, NoMemory>
    ensures variables { IfOk result (λ found. IfSome found (λ d.
        length d.nonbasic ≡ length (P.program program.now).costs)) }
    ensures rows { IfOk result (λ found. IfSome found (λ d.
        length d.rows ≡ length (P.program program.now).rows)) }
{
    if !has_floor(alloc, program, floor)? {
        return Ok(None);
    }
    Ok(Some(MixedDictionary::new(alloc, program)?))
}

// That in parts of 64 bits, where the program has such parts.
fn narrow_of<P: Rows<RowId, VarId, Fraction>>(
    alloc: Global,
    program: &P,
    floor: Floor,
) -> Result<Option<SparseDictionary<RowId, VarId, Narrow>>, NoMemory> {
    if !has_floor(alloc, program, floor)? {
        return Ok(None);
    }
    SparseDictionary::narrow_from(alloc, program)
}

// How the chain of a form ends under a budget; None where the program doesn't have the floor.
fn dense_outcome(
    alloc: Global,
    program: &Listed,
    floor: Floor,
    budget: u64,
) -> Result<Option<Outcome>, NoMemory> {
    match dense_of(alloc, program, floor)? {
        Some(mut dictionary) => Ok(Some(dictionary.solve(budget))),
        None => Ok(None),
    }
}

fn sparse_outcome(
    alloc: Global,
    program: &Listed,
    floor: Floor,
    budget: u64,
) -> Result<Option<Outcome>, NoMemory> {
    match sparse_of(alloc, program, floor)? {
        Some(mut dictionary) => Ok(Some(dictionary.solve(budget)?)),
        None => Ok(None),
    }
}

fn mixed_outcome(
    alloc: Global,
    program: &Listed,
    floor: Floor,
    budget: u64,
) -> Result<Option<Outcome>, NoMemory> {
    match mixed_of(alloc, program, floor)? {
        Some(mut dictionary) => Ok(Some(dictionary.solve(budget)?)),
        None => Ok(None),
    }
}

// A program, its floor, after how many pivots its chain ends, how, and what it gives: the cost, a point and multipliers
// of the rows, each 0 where it isn't defined.
#[derive(Clone, Copy)]
struct Case {
    program: Listed,
    floor: Floor,
    pivots: u64,
    outcome: Outcome,
    cost: i32,
    point: [i32; 2],
    multipliers: [i32; 3],
}

// Whether all forms come out under this budget as the case says.
fn agrees(alloc: Global, case: &Case, budget: u64) -> Result<bool, NoMemory> {
    let wanted = if budget < case.pivots {
        Some(Outcome::Spent(budget))
    } else {
        Some(case.outcome)
    };
    let dense = dense_outcome(alloc, &case.program, case.floor, budget)? == wanted;
    let sparse = sparse_outcome(alloc, &case.program, case.floor, budget)? == wanted;
    let mixed = mixed_outcome(alloc, &case.program, case.floor, budget)? == wanted;
    Ok(dense && sparse && mixed)
}

fn are(found: &[Fraction], wanted: &[i32]) -> bool {
    found.len() == wanted.len()
        && found
            .iter()
            .zip(wanted)
            .all(|(x, n)| *x == Fraction::of_int(*n))
}

// Whether an optimal dictionary gives what the case says.
fn sparse_costs(dictionary: &SparseDictionary<RowId, VarId, Fraction>, case: &Case) -> bool
    requires optimal { EndsOptimal dictionary.now }
    requires rows { length dictionary.now.rows ≡ 3 }
    requires variables { length dictionary.now.nonbasic ≡ 2 }
{
    let mut point = [Fraction::of_int(0); 2];
    dictionary.point_into(&mut point);
    let mut multipliers = [Fraction::of_int(0); 3];
    dictionary.dual_into(&mut multipliers);
    are(&multipliers, &case.multipliers)
        && are(&point, &case.point)
        && dictionary.value() == Fraction::of_int(case.cost)
}

// Whether one without a solution gives the multipliers that the case says.
fn sparse_has_none(dictionary: &SparseDictionary<RowId, VarId, Fraction>, case: &Case) -> bool
    requires infeasible { (i : ℕ) × EndsInfeasible dictionary.now i }
    requires rows { length dictionary.now.rows ≡ 3 }
{
    let mut multipliers = [Fraction::of_int(0); 3];
    dictionary.farkas_into(&mut multipliers);
    are(&multipliers, &case.multipliers)
}

// Whether the sparse form ends as the case says and gives what it says.
fn sparse_gives(alloc: Global, case: &Case) -> Result<bool, NoMemory> {
    match sparse_of(alloc, &case.program, case.floor)? {
        Some(mut dictionary) => match dictionary.solve(9)? {
            Outcome::Optimal => {
                Ok(case.outcome == Outcome::Optimal && sparse_costs(&dictionary, case))
            },
            Outcome::Infeasible => {
                Ok(case.outcome == Outcome::Infeasible && sparse_has_none(&dictionary, case))
            },
            Outcome::Spent(_) | Outcome::Wide(_) => Ok(false),
        },
        None => Ok(false),
    }
}

// The same of the mixed form.
fn mixed_costs(dictionary: &MixedDictionary<RowId, VarId>, case: &Case) -> bool
    requires optimal { EndsOptimal dictionary.now }
    requires rows { length dictionary.now.rows ≡ 3 }
    requires variables { length dictionary.now.nonbasic ≡ 2 }
{
    let mut point = [Fraction::of_int(0); 2];
    dictionary.point_into(&mut point);
    let mut multipliers = [Fraction::of_int(0); 3];
    dictionary.dual_into(&mut multipliers);
    are(&multipliers, &case.multipliers)
        && are(&point, &case.point)
        && dictionary.value() == Fraction::of_int(case.cost)
}

fn mixed_has_none(dictionary: &MixedDictionary<RowId, VarId>, case: &Case) -> bool
    requires infeasible { (i : ℕ) × EndsInfeasible dictionary.now i }
    requires rows { length dictionary.now.rows ≡ 3 }
{
    let mut multipliers = [Fraction::of_int(0); 3];
    dictionary.farkas_into(&mut multipliers);
    are(&multipliers, &case.multipliers)
}

fn mixed_gives(alloc: Global, case: &Case) -> Result<bool, NoMemory> {
    match mixed_of(alloc, &case.program, case.floor)? {
        Some(mut dictionary) => match dictionary.solve(9)? {
            Outcome::Optimal => {
                Ok(case.outcome == Outcome::Optimal && mixed_costs(&dictionary, case))
            },
            Outcome::Infeasible => {
                Ok(case.outcome == Outcome::Infeasible && mixed_has_none(&dictionary, case))
            },
            Outcome::Spent(_) | Outcome::Wide(_) => Ok(false),
        },
        None => Ok(false),
    }
}

fn line(a: i32, b: i32, bound: i32) -> Inequality {
    Inequality { a, b, bound }
}

const NONE: Inequality = Inequality {
    a: 0,
    b: 0,
    bound: 0,
};

// x <= 1 and x >= 2.
fn apart() -> Case {
    Case {
        program: Listed {
            lines: [line(1, 0, 1), line(-1, 0, -2), NONE],
            c: 0,
            d: 0,
        },
        floor: Floor {
            row: None,
            least: 0,
        },
        pivots: 1,
        outcome: Outcome::Infeasible,
        cost: 0,
        point: [0, 0],
        multipliers: [1, 1, 0],
    }
}

// x >= 2 and x <= 5, at the cost x.
fn between() -> Case {
    Case {
        program: Listed {
            lines: [line(-1, 0, -2), line(1, 0, 5), NONE],
            c: 1,
            d: 0,
        },
        floor: Floor {
            row: Some(0),
            least: 2,
        },
        pivots: 1,
        outcome: Outcome::Optimal,
        cost: 2,
        point: [2, 0],
        multipliers: [1, 0, 0],
    }
}

// x <= 3 twice, at the cost -x: both rows give the ratio 3.
fn tied() -> Case {
    Case {
        program: Listed {
            lines: [line(1, 0, 3), line(1, 0, 3), NONE],
            c: -1,
            d: 0,
        },
        floor: Floor {
            row: Some(0),
            least: -3,
        },
        pivots: 1,
        outcome: Outcome::Optimal,
        cost: -3,
        point: [3, 0],
        multipliers: [1, 0, 0],
    }
}

// x <= y, x <= 2 and y <= 2, at the cost -x: the first pivot leaves x at 0.
fn degenerate() -> Case {
    Case {
        program: Listed {
            lines: [line(1, -1, 0), line(1, 0, 2), line(0, 1, 2)],
            c: -1,
            d: 0,
        },
        floor: Floor {
            row: Some(1),
            least: -2,
        },
        pivots: 2,
        outcome: Outcome::Optimal,
        cost: -2,
        point: [2, 2],
        multipliers: [0, 1, 0],
    }
}

#[test]
fn all_forms_agree_under_each_budget(rt: HostRuntime) -> Result<(), Fail> {
    for case in &[apart(), between(), tied(), degenerate()] {
        for budget in 0..12 {
            assert!(rt; agrees(rt.alloc(), case, budget)?);
        }
    }
    Ok(())
}

#[test]
fn ended_chains_give_costs_points_and_multipliers(rt: HostRuntime) -> Result<(), Fail> {
    for case in &[apart(), between(), tied(), degenerate()] {
        assert!(rt; sparse_gives(rt.alloc(), case)?);
        assert!(rt; mixed_gives(rt.alloc(), case)?);
    }
    Ok(())
}

#[test]
fn zeros_are_left_out(rt: HostRuntime) -> Result<(), Fail> {
    let numbers = [
        Fraction::of_int(0),
        Fraction::of_int(3),
        Fraction::of_int(0),
        Fraction::of_int(-4),
    ];
    let pairs = nonzero_pairs::<RowId, Fraction>(rt.alloc(), &numbers)?;
    let wanted = [
        (RowId::of(1), Fraction::of_int(3)),
        (RowId::of(3), Fraction::of_int(-4)),
    ];
    assert!(rt; pairs.as_slice() == wanted.as_slice());
    Ok(())
}

// The outcome of one pivot in parts of 64 bits, and that of one more in parts of 128.
fn widened_between(alloc: Global, case: &Case) -> Result<Option<(Outcome, Outcome)>, NoMemory> {
    let Some(mut narrow) = narrow_of(alloc, &case.program, case.floor)? else {
        return Ok(None);
    };
    let first = narrow.solve(1)?;
    let mut wide = narrow.widen(alloc)?;
    Ok(Some((first, wide.solve(1)?)))
}

#[test]
fn a_chain_goes_on_where_it_was_widened(rt: HostRuntime) -> Result<(), Fail> {
    let found = widened_between(rt.alloc(), &degenerate())?;
    assert!(rt; found == Some((Outcome::Spent(1), Outcome::Optimal)));
    Ok(())
}

// 10^18, and 100 times as much.
fn far() -> Option<(Fraction, Fraction)> {
    let Ok(x) = Fraction::of_int(1000000000).mul(Fraction::of_int(1000000000)) else {
        return None;
    };
    match x.mul(Fraction::of_int(100)) {
        Ok(y) => Some((x, y)),
        Err(_) => None,
    }
}

const NO_FLOOR: Floor = Floor {
    row: None,
    least: 0,
};

// How the chain in parts of 64 bits ends, where the program has such parts.
fn narrow_outcome(
    alloc: Global,
    program: &FarAway<Fraction>,
    budget: u64,
) -> Result<Option<Outcome>, NoMemory> {
    match narrow_of(alloc, program, NO_FLOOR)? {
        Some(mut narrow) => Ok(Some(narrow.solve(budget)?)),
        None => Ok(None),
    }
}

// 100 * 10^18 has no parts of 64 bits, and is no number of a program that has them.
#[test]
fn a_far_point_is_wide_in_parts_of_64_bits(rt: HostRuntime) -> Result<(), Fail> {
    let (x, y) = far().ok_or("past 128 bits")?;
    let program = FarAway { bound: x.neg() };
    assert!(rt; narrow_outcome(rt.alloc(), &program, 5)? == Some(Outcome::Wide(0)));
    let farther = FarAway { bound: y.neg() };
    assert!(rt; narrow_outcome(rt.alloc(), &farther, 5)? == None);
    Ok(())
}

// The point of the mixed form after two calls of one pivot each, where they end so.
fn far_point(
    alloc: Global,
    program: &FarAway<Fraction>,
) -> Result<Option<(Fraction, Fraction)>, NoMemory> {
    let Some(mut mixed) = mixed_of(alloc, program, NO_FLOOR)? else {
        return Ok(None);
    };
    if mixed.solve(1)? != Outcome::Spent(1) {
        return Ok(None);
    }
    let mut point = [Fraction::of_int(0); 2];
    match mixed.solve(1)? {
        Outcome::Optimal => mixed.point_into(&mut point),
        Outcome::Infeasible | Outcome::Spent(_) | Outcome::Wide(_) => return Ok(None),
    }
    Ok(Some((point[0], point[1])))
}

#[test]
fn a_far_point_is_widened(rt: HostRuntime) -> Result<(), Fail> {
    let (x, y) = far().ok_or("past 128 bits")?;
    let program = FarAway { bound: x.neg() };
    assert!(rt; far_point(rt.alloc(), &program)? == Some((x, y)));
    Ok(())
}
