//! Small programs, solved at both widths.

ghost use Rattle.std.specs.Prelude.{◌≡◌, length, IfOk, IfSome};

use crate::{Dictionary, Outcome};
use cert_core::{DualRow, Rows, check_dual};
use exact_lin::{Fraction, Id, Narrow, NoMemory, RowId, Scalar, VarId};
use std::alloc::Global;
use std::test::Fail;

// The row a x + b y <= bound.
#[derive(Clone, Copy)]
struct Inequality {
    a: i32,
    b: i32,
    bound: i32,
}

// Three rows over the variables x and y, and the cost c x + d y.
#[derive(Clone, Copy)]
struct Listed {
    lines: [Inequality; 3],
    c: i32,
    d: i32,
}

impl<R: Id, V: Id, S: Scalar> Rows<R, V, S> for Listed {
    ghost use Rattle.lp_tableau.specs.TwoVariables.{two_variables, two_variables-even};

    ghost program = { λ p. two_variables (λ l. l.a) (λ l. l.b) (λ l. l.bound) p.lines p.c p.d };

    fn row_count(&self) -> u32 {
        3
    }

    fn var_count(&self) -> u32 {
        2
    }

    fn entry(&self, r: R, v: V) -> S {
        let line = self.lines[r.number() as usize];
        if v.number() == 0 {
            S::of_int(line.a)
        } else {
            S::of_int(line.b)
        }
    }

    fn bound(&self, r: R) -> S {
        let line = self.lines[r.number() as usize];
        S::of_int(line.bound)
    }

    fn cost(&self, v: V) -> S {
        if v.number() == 0 {
            S::of_int(self.c)
        } else {
            S::of_int(self.d)
        }
    }

    fn base(&self) -> S {
        S::of_int(0)
    }

    ghost even = { λ p. two_variables-even _ _ _ p.lines p.c p.d };
}

// Two rows over one variable x, each a factor and a bound, and the cost's factor.
#[derive(Drop)]
struct OneVariable {
    rows: [(i32, i32); 2],
    cost: i32,
}

impl<R: Id, V: Id, S: Scalar> Rows<R, V, S> for OneVariable {
    ghost use Rattle.rational.specs.Rational.{whole};
    ghost use Rattle.std.specs.Prelude.{pos};
    ghost use Rattle.cert_core.specs.Listed.{listed_program, listed-even};

    ghost program = { λ p. listed_program whole p.rows p.cost (pos 0) };

    fn row_count(&self) -> u32 {
        2
    }

    fn var_count(&self) -> u32 {
        1
    }

    fn entry(&self, r: R, _v: V) -> S {
        let row = self.rows[r.number() as usize];
        S::of_int(row.0)
    }

    fn bound(&self, r: R) -> S {
        let row = self.rows[r.number() as usize];
        S::of_int(row.1)
    }

    fn cost(&self, _v: V) -> S {
        S::of_int(self.cost)
    }

    fn base(&self) -> S {
        S::of_int(0)
    }

    ghost even = { λ p. listed-even whole p.rows p.cost (pos 0) };
}

// The rows -x <= bound and 100 x - y <= 0, without a cost.
#[derive(Drop)]
struct FarAway<S> {
    bound: S,
}

impl<R: Id, V: Id, S: Scalar> Rows<R, V, S> for FarAway<S> {
    ghost use Rattle.lp_tableau.specs.TwoVariables.{far_away, far_away-even};

    ghost program = { λ p. far_away (S.value p.bound) };

    fn row_count(&self) -> u32 {
        2
    }

    fn var_count(&self) -> u32 {
        2
    }

    fn entry(&self, r: R, v: V) -> S {
        if r.number() == 0 {
            if v.number() == 0 {
                S::of_int(-1)
            } else {
                S::of_int(0)
            }
        } else if v.number() == 0 {
            S::of_int(100)
        } else {
            S::of_int(-1)
        }
    }

    fn bound(&self, r: R) -> S {
        if r.number() == 0 {
            self.bound
        } else {
            S::of_int(0)
        }
    }

    fn cost(&self, _v: V) -> S {
        S::of_int(0)
    }

    fn base(&self) -> S {
        S::of_int(0)
    }

    ghost even = { λ p. far_away-even (S.value p.bound) };
}

// A program, a row of the program that, taken once, bounds its cost from below by `least`, and what comes of it under a budget.
#[derive(Clone, Copy)]
struct Case {
    program: Listed,
    bounding: Option<u32>,
    least: i32,
    budget: u64,
    outcome: Outcome,
    multipliers: [i32; 3],
    value: i32,
    point: [i32; 2],
}

fn are<S: Scalar>(out: &[S], wanted: &[i32]) -> bool {
    out.len() == wanted.len() && out.iter().zip(wanted).all(|(x, n)| *x == S::of_int(*n))
}

// The first dictionary of a program whose cost is at least `least`, as a row tells, taken once, or no row.
fn first_of<S: Scalar, P: Rows<RowId, VarId, S>>(
    alloc: Global,
    program: &P,
    bounding: Option<u32>,
    least: i32,
) -> Result<Option<Dictionary<RowId, VarId, S>>, NoMemory>
    ensures variables { IfOk result (λ found. IfSome found (λ d.
        length d.nonbasic ≡ length (P.program program.now).costs)) }
    ensures rows { IfOk result (λ found. IfSome found (λ d.
        length d.rows ≡ length (P.program program.now).rows)) }
{
    let mut pairs = Vec::new(alloc);
    if let Some(row) = bounding {
        pairs.push((RowId::of(row), S::of_int(1)))?;
    }
    let row = DualRow::of_pairs(alloc, &pairs)?;
    match check_dual::<RowId, VarId, S, P>(program, &row, S::of_int(least)) {
        Ok(()) => Ok(Some(Dictionary::new(alloc, program)?)),
        Err(_) => Ok(None),
    }
}

// Whether the case comes out as it says.
fn holds<S: Scalar>(alloc: Global, case: &Case) -> Result<bool, NoMemory> {
    let mut dictionary = match first_of::<S, Listed>(
        alloc,
        &case.program,
        case.bounding,
        case.least,
    )? {
        Some(dictionary) => dictionary,
        None => return Ok(false),
    };
    let answer = dictionary.solve(case.budget);
    let mut rows = [S::of_int(0); 3];
    let mut point = [S::of_int(0); 2];
    let mut value = S::of_int(0);
    match answer {
        Outcome::Optimal => {
            value = dictionary.value();
            dictionary.dual_into(&mut rows);
            dictionary.point_into(&mut point);
        },
        Outcome::Infeasible => dictionary.farkas_into(&mut rows),
        Outcome::Spent(_) | Outcome::Wide(_) => {},
    }
    let rows_are = are(&rows, &case.multipliers);
    let point_is = are(&point, &case.point);
    Ok(answer == case.outcome && rows_are && point_is && value == S::of_int(case.value))
}

fn outcome_is<S: Scalar>(alloc: Global, case: &Case, outcome: Outcome) -> Result<bool, NoMemory> {
    match first_of::<S, Listed>(alloc, &case.program, case.bounding, case.least)? {
        Some(mut dictionary) => Ok(dictionary.solve(case.budget) == outcome),
        None => Ok(false),
    }
}

fn line(a: i32, b: i32, bound: i32) -> Inequality {
    Inequality { a, b, bound }
}

fn program(first: Inequality, second: Inequality, third: Inequality, c: i32, d: i32) -> Listed {
    Listed {
        lines: [first, second, third],
        c,
        d,
    }
}

#[test]
fn small_programs_are_solved(rt: HostRuntime) -> Result<(), Fail> {
    let none = line(0, 0, 0);
    let apart = program(line(1, 0, 1), line(-1, 0, -2), none, 0, 0);
    let above = program(line(-1, 0, -2), line(1, 0, 5), none, 1, 0);
    let tied = program(line(1, 0, 3), line(1, 0, 3), none, -1, 0);
    let degenerate = program(line(1, -1, 0), line(1, 0, 2), line(0, 1, 2), -1, 0);
    let cases = [
        Case {
            program: apart,
            bounding: None,
            least: 0,
            budget: 1,
            outcome: Outcome::Infeasible,
            multipliers: [1, 1, 0],
            value: 0,
            point: [0, 0],
        },
        Case {
            program: apart,
            bounding: None,
            least: 0,
            budget: 0,
            outcome: Outcome::Spent(0),
            multipliers: [0, 0, 0],
            value: 0,
            point: [0, 0],
        },
        Case {
            program: above,
            bounding: None,
            least: 0,
            budget: 1,
            outcome: Outcome::Optimal,
            multipliers: [1, 0, 0],
            value: 2,
            point: [2, 0],
        },
        Case {
            program: tied,
            bounding: Some(0),
            least: -3,
            budget: 9,
            outcome: Outcome::Optimal,
            multipliers: [1, 0, 0],
            value: -3,
            point: [3, 0],
        },
        Case {
            program: degenerate,
            bounding: Some(1),
            least: -2,
            budget: 1,
            outcome: Outcome::Spent(1),
            multipliers: [0, 0, 0],
            value: 0,
            point: [0, 0],
        },
        Case {
            program: degenerate,
            bounding: Some(1),
            least: -2,
            budget: 2,
            outcome: Outcome::Optimal,
            multipliers: [0, 1, 0],
            value: -2,
            point: [2, 2],
        },
    ];
    for case in &cases {
        assert!(rt; holds::<Fraction>(rt.alloc(), case)?);
        assert!(rt; holds::<Narrow>(rt.alloc(), case)?);
    }
    Ok(())
}

// The second pivot makes 2147483647 - 2147483648 / (2147483647 * 2147483629), which has no narrow parts.
#[test]
fn a_pivot_may_be_wide(rt: HostRuntime) -> Result<(), Fail> {
    let steep = program(
        line(-2147483647, 0, -1),
        line(1, -2147483629, -1),
        line(0, 1, 2147483647),
        0,
        0,
    );
    for (budget, narrow, wide) in [
        (1, Outcome::Spent(1), Outcome::Spent(1)),
        (2, Outcome::Wide(1), Outcome::Optimal),
    ] {
        let case = Case {
            program: steep,
            bounding: None,
            least: 0,
            budget,
            outcome: narrow,
            multipliers: [0, 0, 0],
            value: 0,
            point: [0, 0],
        };
        assert!(rt; outcome_is::<Narrow>(rt.alloc(), &case, narrow)?);
        assert!(rt; outcome_is::<Fraction>(rt.alloc(), &case, wide)?);
    }
    Ok(())
}

// Whether the rows x <= 1 and -x <= -2 have no solution, told after one pivot by the Farkas row 1, 1.
fn one_variable_has_none<S: Scalar>(alloc: Global) -> Result<bool, NoMemory> {
    let program = OneVariable {
        rows: [(1, 1), (-1, -2)],
        cost: 0,
    };
    let Some(mut dictionary) = first_of::<S, OneVariable>(alloc, &program, None, 0)? else {
        return Ok(false);
    };
    let spent = dictionary.solve(0) == Outcome::Spent(0);
    let mut farkas = [S::of_int(0); 2];
    match dictionary.solve(1) {
        Outcome::Infeasible => dictionary.farkas_into(&mut farkas),
        Outcome::Optimal | Outcome::Spent(_) | Outcome::Wide(_) => {},
    }
    let proved = are(&farkas, &[1, 1]);
    Ok(spent && proved)
}

// Whether the rows -x <= -2 and x <= 5 with the cost x have 2 as their least, told after one pivot.
fn one_variable_costs_two<S: Scalar>(alloc: Global) -> Result<bool, NoMemory> {
    let program = OneVariable {
        rows: [(-1, -2), (1, 5)],
        cost: 1,
    };
    let Some(mut dictionary) = first_of::<S, OneVariable>(alloc, &program, Some(0), 2)? else {
        return Ok(false);
    };
    let mut dual = [S::of_int(0); 2];
    let mut point = [S::of_int(0)];
    let mut value = S::of_int(0);
    match dictionary.solve(1) {
        Outcome::Optimal => {
            value = dictionary.value();
            dictionary.dual_into(&mut dual);
            dictionary.point_into(&mut point);
        },
        Outcome::Infeasible | Outcome::Spent(_) | Outcome::Wide(_) => {},
    }
    let dual_is = are(&dual, &[1, 0]);
    let point_is = are(&point, &[2]);
    Ok(dual_is && point_is && value == S::of_int(2))
}

#[test]
fn programs_over_one_variable(rt: HostRuntime) -> Result<(), Fail> {
    assert!(rt; one_variable_has_none::<Fraction>(rt.alloc())?);
    assert!(rt; one_variable_has_none::<Narrow>(rt.alloc())?);
    assert!(rt; one_variable_costs_two::<Fraction>(rt.alloc())?);
    assert!(rt; one_variable_costs_two::<Narrow>(rt.alloc())?);
    Ok(())
}

fn is_point<S: Scalar>(point: &[S], x: S, y: S) -> bool {
    point.len() == 2 && point[0] == x && point[1] == y
}

// Whether the program with x at least 10^18 comes out so under this budget, at the point x, y where it is optimal.
fn far_is<S: Scalar>(
    alloc: Global,
    budget: u64,
    outcome: Outcome,
    x: S,
    y: S,
) -> Result<bool, NoMemory> {
    let Ok(bound) = S::of_int(-1000000000).mul(S::of_int(1000000000)) else {
        return Ok(false);
    };
    let program = FarAway { bound };
    let Some(mut dictionary) = first_of::<S, FarAway<S>>(alloc, &program, None, 0)? else {
        return Ok(false);
    };
    let mut point = [S::of_int(0); 2];
    let answer = dictionary.solve(budget);
    match answer {
        Outcome::Optimal => dictionary.point_into(&mut point),
        Outcome::Infeasible | Outcome::Spent(_) | Outcome::Wide(_) => {},
    }
    let there = is_point(&point, x, y);
    Ok(answer == outcome && there)
}

// 10^18, and 100 times as much.
fn far_point() -> Option<(Fraction, Fraction)> {
    let Ok(x) = Fraction::of_int(1000000000).mul(Fraction::of_int(1000000000)) else {
        return None;
    };
    match x.mul(Fraction::of_int(100)) {
        Ok(y) => Some((x, y)),
        Err(_) => None,
    }
}

// 100 * 10^18 has no narrow parts.
#[test]
fn a_far_point_is_wide(rt: HostRuntime) -> Result<(), Fail> {
    let none = Narrow::of_int(0);
    assert!(rt; far_is(rt.alloc(), 5, Outcome::Wide(0), none, none)?);
    let start = Fraction::of_int(0);
    assert!(rt; far_is(rt.alloc(), 1, Outcome::Spent(1), start, start)?);
    match far_point() {
        Some((x, y)) => assert!(rt; far_is(rt.alloc(), 2, Outcome::Optimal, x, y)?),
        None => assert!(rt; false),
    }
    Ok(())
}
