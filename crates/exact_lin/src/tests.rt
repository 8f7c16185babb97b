//! Rows of numbers and small forms, at both widths.

ghost use Rattle.std.specs.Prelude.{◌≡◌, length, IfOk};
ghost use Rattle.exact_lin.specs.Forms.{Covers};

use super::*;
use crate::reckoning_laws::places_have_one_answer;
use std::alloc::Global;
use std::cmp::Ordering;
use std::process::Abort;
use std::test::Fail;

type Parts = (i128, i128);

// Two numbers; their sum and their product, or None where a part is past the limit; and how they compare.
type Row = (Parts, Parts, Option<Parts>, Option<Parts>, Ordering);

// The same rows at the largest part m of either width. It is odd, so m and m - 1, and m and m - 2, have nothing in common.
macro_rules! rows {
    ($m:expr) => {
        [
            ((0, 1), (0, 1), Some((0, 1)), Some((0, 1)), Ordering::Equal),
            ((1, 2), (1, 3), Some((5, 6)), Some((1, 6)), Ordering::Greater),
            ((1, 6), (1, 3), Some((1, 2)), Some((1, 18)), Ordering::Less),
            ((1, 2), (-1, 2), Some((0, 1)), Some((-1, 4)), Ordering::Greater),
            ((-3, 4), (2, 3), Some((-1, 12)), Some((-1, 2)), Ordering::Less),
            (($m, 1), (0, 1), Some(($m, 1)), Some((0, 1)), Ordering::Greater),
            (($m, 1), (1, 1), None, Some(($m, 1)), Ordering::Greater),
            ((-$m, 1), (-1, 1), None, Some(($m, 1)), Ordering::Less),
            (($m - 1, 1), (1, 1), Some(($m, 1)), Some(($m - 1, 1)), Ordering::Greater),
            ((1 - $m, 1), (-1, 1), Some((-$m, 1)), Some(($m - 1, 1)), Ordering::Less),
            ((1, $m), (0, 1), Some((1, $m)), Some((0, 1)), Ordering::Greater),
            ((1, $m), (1, $m), Some((2, $m)), None, Ordering::Equal),
            ((1, $m), (-1, $m), Some((0, 1)), None, Ordering::Greater),
            ((1, $m), (1, 1), None, Some((1, $m)), Ordering::Less),
            ((1, $m), (-1, 1), Some((1 - $m, $m)), Some((-1, $m)), Ordering::Greater),
            ((1, $m), (1, $m - 1), None, None, Ordering::Less),
            ((1, $m - 1), (1, $m - 1), Some((1, ($m - 1) / 2)), None, Ordering::Equal),
            (($m, 2), (1, 2), None, Some(($m, 4)), Ordering::Greater),
            (($m, 2), (2, 1), None, Some(($m, 1)), Ordering::Greater),
            (($m, 1), (1, $m), None, Some((1, 1)), Ordering::Greater),
            (($m - 1, $m), ($m, $m - 1), None, Some((1, 1)), Ordering::Less),
            (($m, 1), (2, 1), None, None, Ordering::Greater),
            (($m, $m - 1), ($m - 1, $m - 2), None, Some(($m, $m - 2)), Ordering::Less),
            ((-$m, $m - 1), (1 - $m, $m - 2), None, Some(($m, $m - 2)), Ordering::Greater),
        ]
    };
}

static WIDE_ROWS: [Row; 24] = rows!(170141183460469231731687303715884105727);

static NARROW_ROWS: [Row; 24] = rows!(9223372036854775807);

fn wide(rt: &impl Abort, parts: Parts) -> Fraction {
    Fraction::of_parts(parts.0, parts.1).expect(rt, "in parts of 128 bits")
}

fn narrow(rt: &impl Abort, parts: Parts) -> Narrow {
    wide(rt, parts).narrow().expect(rt, "in parts of 64 bits")
}

fn check<S: Scalar>(
    rt: &impl Abort,
    line: usize,
    pair: (S, S),
    sum: Option<S>,
    product: Option<S>,
    order: Ordering,
) {
    let (a, b) = pair;
    assert!(rt; a.add(b).ok() == sum, "sum in row {line}");
    assert!(rt; b.add(a).ok() == sum, "turned sum in row {line}");
    assert!(rt; a.mul(b).ok() == product, "product in row {line}");
    assert!(rt; b.mul(a).ok() == product, "turned product in row {line}");
    assert!(rt; Scalar::cmp(a, b) == order, "order in row {line}");
    assert!(rt;
        Scalar::cmp(a.neg(), b.neg()) == order.reverse(),
        "order of the negatives in row {line}"
    );
}

#[test]
fn sums_products_and_orders(rt: HostRuntime) {
    for (line, (a, b, sum, product, order)) in WIDE_ROWS.iter().enumerate() {
        check(
            &rt,
            line,
            (wide(&rt, *a), wide(&rt, *b)),
            sum.map(|p| wide(&rt, p)),
            product.map(|p| wide(&rt, p)),
            *order,
        );
    }
    for (line, (a, b, sum, product, order)) in NARROW_ROWS.iter().enumerate() {
        check(
            &rt,
            line,
            (narrow(&rt, *a), narrow(&rt, *b)),
            sum.map(|p| narrow(&rt, p)),
            product.map(|p| narrow(&rt, p)),
            *order,
        );
    }
}

// A numerator and a denominator; the parts in lowest terms; and the reciprocal's, where there is one.
static WHOLE_AND_BROKEN: [(Parts, Option<Parts>, Option<Parts>); 16] = [
    ((2, 4), Some((1, 2)), Some((2, 1))),
    ((-6, 4), Some((-3, 2)), Some((-2, 3))),
    ((0, 5), Some((0, 1)), None),
    ((7, 7), Some((1, 1)), Some((1, 1))),
    ((1, 0), None, None),
    ((1, -1), None, None),
    ((-170141183460469231731687303715884105728, 1), None, None),
    ((-170141183460469231731687303715884105728, 2), None, None),
    ((1, -170141183460469231731687303715884105728), None, None),
    (
        (170141183460469231731687303715884105727, 1),
        Some((170141183460469231731687303715884105727, 1)),
        Some((1, 170141183460469231731687303715884105727)),
    ),
    (
        (-170141183460469231731687303715884105727, 3),
        Some((-170141183460469231731687303715884105727, 3)),
        Some((-3, 170141183460469231731687303715884105727)),
    ),
    (
        (1, 170141183460469231731687303715884105727),
        Some((1, 170141183460469231731687303715884105727)),
        Some((170141183460469231731687303715884105727, 1)),
    ),
    (
        (-9223372036854775807, 2),
        Some((-9223372036854775807, 2)),
        Some((-2, 9223372036854775807)),
    ),
    (
        (9223372036854775808, 1),
        Some((9223372036854775808, 1)),
        Some((1, 9223372036854775808)),
    ),
    (
        (-9223372036854775808, 3),
        Some((-9223372036854775808, 3)),
        Some((-3, 9223372036854775808)),
    ),
    (
        (18446744073709551614, 2),
        Some((9223372036854775807, 1)),
        Some((1, 9223372036854775807)),
    ),
];

fn parts(x: Fraction) -> Parts {
    (x.num(), x.den())
}

// Whether the parts fit 64 bits.
fn is_narrow(p: Parts) -> bool {
    p.0 <= 9223372036854775807 && p.0 >= -9223372036854775807 && p.1 <= 9223372036854775807
}

fn turned<S: Scalar>(x: S) -> Option<S> {
    if x.sign() == Sign::Zero {
        None
    } else {
        Some(x.recip())
    }
}

#[test]
fn parts_reciprocals_and_widths(rt: HostRuntime) {
    for (line, (given, lowest, reciprocal)) in WHOLE_AND_BROKEN.iter().enumerate() {
        let made = Fraction::of_parts(given.0, given.1);
        assert!(rt; made.map(parts) == *lowest, "parts in row {line}");
        if let Some(x) = made {
            assert!(rt;
                turned(x).map(parts) == *reciprocal,
                "reciprocal in row {line}"
            );
            match x.narrow() {
                Some(small) => {
                    assert!(rt;
                        is_narrow(parts(x)) && small.widen() == x,
                        "width of row {line}"
                    );
                    assert!(rt;
                        turned(small).map(|y| parts(y.widen())) == *reciprocal,
                        "narrow reciprocal in row {line}"
                    );
                }
                None => assert!(rt; !is_narrow(parts(x)), "width of row {line}"),
            }
        }
    }
    assert!(rt; parts(Fraction::of_int(-2147483648)) == (-2147483648, 1));
    assert!(rt; parts(Narrow::of_int(2147483647).widen()) == (2147483647, 1));
    assert!(rt;
        wide(&rt, (1, 3)) < wide(&rt, (1, 2)) && narrow(&rt, (-1, 3)) > narrow(&rt, (-1, 2))
    );
}

// A sum x + 2 y, and how x compares with y.
fn joined<S: Scalar>(rt: &impl Abort, x: S, y: S, sum: Option<S>, order: Ordering) {
    assert!(rt;
        add_product(x, S::of_int(2), y).ok() == sum && add_product(x, S::of_int(0), y) == Ok(x)
    );
    assert!(rt; is_below(x, y) == order.is_lt() && is_at_most(x, y) == order.is_le());
    assert!(rt; is_negative(x) == is_positive(x.neg()));
}

#[test]
fn sums_with_products(rt: HostRuntime) {
    let (big, one) = (170141183460469231731687303715884105727, 1);
    joined(
        &rt,
        wide(&rt, (1, 2)),
        wide(&rt, (1, 3)),
        Some(wide(&rt, (7, 6))),
        Ordering::Greater,
    );
    joined(
        &rt,
        wide(&rt, (-1, 1)),
        wide(&rt, (big, one)),
        None,
        Ordering::Less,
    );
    joined(
        &rt,
        narrow(&rt, (1, 2)),
        narrow(&rt, (1, 2)),
        Some(narrow(&rt, (3, 2))),
        Ordering::Equal,
    );
    places_have_one_answer::<u8>();
}

#[test]
fn ids_and_lists(rt: HostRuntime) -> Result<(), Fail> {
    let mut names: IdVec<FactId, u8> = IdVec::new(rt.alloc());
    assert!(rt; names.is_empty());
    let first = names.push(7).map_err(|_| "memory")?;
    let second = names.push(9).map_err(|_| "memory")?;
    assert!(rt; first < second && first.number() == 0 && second == FactId::of(1));
    assert!(rt; names.get(first).copied() == Some(7) && names.get(second).copied() == Some(9));
    assert!(rt; names.get(FactId::of(2)).copied() == None && names.len() == 2);
    assert!(rt; names.as_slice() == [7, 9].as_slice());
    Ok(())
}

fn term<S: Scalar>(form: &Form<VarId, S>, place: usize) -> Option<(u32, S)> {
    form.terms().get(place).map(|t| (t.0.number(), t.1))
}

// The form 1/2 + 2 x0 + x3 / 3, made term by term.
fn half_and_two_terms<S: Scalar>(
    alloc: Global,
    half: S,
    third: S,
) -> Result<Form<VarId, S>, FormFault>
    ensures { IfOk result (λ form. Covers 4 form.terms) }
{
    let mut form = Form::zero(alloc);
    form.add_term(VarId::of(3), third)?;
    form.add_term(VarId::of(0), S::of_int(1))?;
    form.add_term(VarId::of(2), S::of_int(0))?;
    form.add_term(VarId::of(0), S::of_int(1))?;
    match form.add_constant(half) {
        Ok(()) => Ok(form),
        Err(wide) => Err(FormFault::from(wide)),
    }
}

// `near` is the point (1, big, big, 3) and `far` the point (big, 0, 0, 0), where `big` is the largest whole number.
fn forms<S: Scalar>(
    rt: &impl Abort,
    alloc: Global,
    half: S,
    third: S,
    big: S,
    near: &[S],
    far: &[S],
) -> Result<(), FormFault>
    requires near { length near.now ≡ 4 }
    requires far { length far.now ≡ 4 }
{
    let form = half_and_two_terms(alloc, half, third)?;
    assert!(rt; form.constant() == half && form.terms().len() == 2);
    assert!(rt; term(&form, 0) == Some((0, S::of_int(2))) && term(&form, 1) == Some((3, third)));
    assert!(rt;
        form.coefficient(VarId::of(3)) == third && form.coefficient(VarId::of(2)) == S::of_int(0)
    );
    assert!(rt; form.value_at(near) == Ok(half.add(S::of_int(3))?));
    assert!(rt; form.value_at(far) == Err(Wide));

    scaled_forms(rt, &form, half, third, &other_form(alloc, third)?, big)
}

fn other_form<S: Scalar>(alloc: Global, third: S) -> Result<Form<VarId, S>, FormFault> {
    let one = S::of_int(1);
    let mut other: Form<VarId, S> = Form::zero(alloc);
    other.add_term(VarId::of(0), one)?;
    other.add_term(VarId::of(1), one)?;
    other.add_term(VarId::of(4), third)?;
    other.add_constant(one)?;
    Ok(other)
}

fn scaled_forms<S: Scalar>(
    rt: &impl Abort,
    form: &Form<VarId, S>,
    half: S,
    third: S,
    other: &Form<VarId, S>,
    big: S,
) -> Result<(), FormFault> {
    let minus_two = S::of_int(-2);
    let mut sum = form.copy()?;
    sum.add_scaled(other, minus_two)?;
    assert!(rt; sum.constant() == half.add(minus_two)? && sum.terms().len() == 3);
    assert!(rt; term(&sum, 0) == Some((1, minus_two)) && term(&sum, 1) == Some((3, third)));
    assert!(rt; term(&sum, 2) == Some((4, third.mul(minus_two)?)));
    wide_forms(rt, sum, other, big)
}

fn wide_forms<S: Scalar>(
    rt: &impl Abort,
    form: Form<VarId, S>,
    other: &Form<VarId, S>,
    big: S,
) -> Result<(), FormFault> {
    let mut sum = form;
    let before = sum.copy()?;
    assert!(rt; sum.add_scaled(other, big) == Err(FormFault::Wide));
    assert!(rt; sum.add_term(VarId::of(1), big.neg()) == Err(FormFault::Wide));
    assert!(rt; sum.add_constant(big.neg()) == Err(Wide));
    assert!(rt; sum.terms() == before.terms() && sum.constant() == before.constant());
    sum.add_term(VarId::of(1), S::of_int(2))?;
    assert!(rt; sum.terms().len() == 2 && sum.constant() != S::of_int(0));
    Ok(())
}

#[test]
fn sums_and_values_of_forms(rt: HostRuntime) -> Result<(), Fail> {
    let (zero, one, three, big) = (
        Fraction::of_int(0),
        Fraction::of_int(1),
        Fraction::of_int(3),
        wide(&rt, (170141183460469231731687303715884105727, 1)),
    );
    forms(
        &rt,
        rt.alloc(),
        wide(&rt, (1, 2)),
        wide(&rt, (1, 3)),
        big,
        &[one, big, big, three],
        &[big, zero, zero, zero],
    )?;
    let (zero, one, three, big) = (
        Narrow::of_int(0),
        Narrow::of_int(1),
        Narrow::of_int(3),
        narrow(&rt, (9223372036854775807, 1)),
    );
    forms(
        &rt,
        rt.alloc(),
        narrow(&rt, (1, 2)),
        narrow(&rt, (1, 3)),
        big,
        &[one, big, big, three],
        &[big, zero, zero, zero],
    )?;
    Ok(())
}
