//! Certificates and trees over one variable.

ghost use Rattle.std.specs.Prelude.{◌≡◌, ◌<◌, ◌^◌, length};

use crate::{
    CertFault, DualRow, DualTree, FarkasRow, Rows, SoftRows, TreeFault, Way, are_within,
    check_dual, check_dual_in, check_farkas, check_leaf, check_leaves, check_tree,
};
use exact_lin::{Form, Fraction, Id, Narrow, RowId, Scalar, TermId, VarId, Wide};
use sqlite_items::Items;
use std::alloc::Global;
use std::process::Abort;
use std::test::Fail;

// A program over one variable: each row is a factor and a bound.
#[derive(Drop)]
struct Listed<S> {
    rows: Vec<(S, S)>,
    cost: S,
    base: S,
    ghost short: { length rows.items < 2 ^ 32 },
}

impl<R: Id, V: Id, S: Scalar> Rows<R, V, S> for Listed<S> {
    ghost use Rattle.cert_core.specs.Listed.{listed_program, listed-even};

    ghost program = { λ p. listed_program S.value p.rows.items p.cost p.base };

    fn row_count(&self) -> u32 {
        self.rows.len() as u32
    }

    fn var_count(&self) -> u32 {
        1
    }

    fn entry(&self, r: R, _v: V) -> S {
        self.rows[r.number() as usize].0
    }

    fn bound(&self, r: R) -> S {
        self.rows[r.number() as usize].1
    }

    fn cost(&self, _v: V) -> S {
        self.cost
    }

    fn base(&self) -> S {
        self.base
    }

    ghost even = { λ p. listed-even S.value p.rows.items p.cost p.base };
}

// A program over two variables: each row is a form, with its bound as the constant, and the cost is x + y.
#[derive(Drop)]
struct Forms {
    rows: Vec<Form<VarId, Fraction>>,
    ghost short: { length rows.items < 2 ^ 32 },
}

impl Rows<RowId, VarId, Fraction> for Forms {
    ghost use Rattle.cert_core.specs.Listed.{form_program, form_program-even};

    ghost program = { λ p. form_program p.rows.items };

    fn row_count(&self) -> u32 {
        self.rows.len() as u32
    }

    fn var_count(&self) -> u32 {
        2
    }

    fn entry(&self, r: RowId, v: VarId) -> Fraction {
        self.rows[r.number() as usize].coefficient(v)
    }

    fn row(&self, r: RowId) -> Option<&[(VarId, Fraction)]> {
        let terms = self.rows[r.number() as usize].terms();
        if are_within(terms, 2) {
            Some(terms)
        } else {
            None
        }
    }

    fn bound(&self, r: RowId) -> Fraction {
        self.rows[r.number() as usize].constant()
    }

    fn cost(&self, _v: VarId) -> Fraction {
        Fraction::of_int(1)
    }

    fn base(&self) -> Fraction {
        Fraction::of_int(0)
    }

    ghost even = { λ p. form_program-even p.rows.items };
}

// 2 <= x <= 5 at the cost x, with one term of two ways that costs 3 more where it is paid for; where `has_base` is
// false, no base is defined.
#[derive(Drop)]
struct Priced {
    has_base: bool,
}

impl<T: Id, R: Id, V: Id, S: Scalar> SoftRows<T, R, V, S> for Priced {
    ghost use Rattle.cert_core.specs.Listed.{priced, priced-lawful};

    ghost soft = { λ p. priced p.has_base };

    fn term_count(&self) -> u32 {
        1
    }

    fn ways(&self, _t: T) -> u32 {
        2
    }

    fn var_count(&self) -> u32 {
        1
    }

    fn row_count(&self, _made: &[Option<Way>]) -> u32 {
        2
    }

    fn entry(&self, _made: &[Option<Way>], r: R, _v: V) -> S {
        if r.number() == 0 {
            S::of_int(-1)
        } else {
            S::of_int(1)
        }
    }

    fn bound(&self, _made: &[Option<Way>], r: R) -> S {
        if r.number() == 0 {
            S::of_int(-2)
        } else {
            S::of_int(5)
        }
    }

    fn cost(&self, _v: V) -> S {
        S::of_int(1)
    }

    fn base(&self, made: &[Option<Way>]) -> Result<S, Wide> {
        if !self.has_base {
            return Err(Wide);
        }
        match made[0] {
            Some(way) => if way == Way(0) {
                Ok(S::of_int(0))
            } else {
                Ok(S::of_int(3))
            },
            None => Ok(S::of_int(0)),
        }
    }

    fn free_at(&self, _point: &[S], _t: T) -> Result<bool, Wide> {
        Ok(false)
    }

    ghost lawful = { λ p. priced-lawful p.has_base };
}

// The program of these rows, as whole numbers.
fn make_listed<S: Scalar>(
    rt: &impl Abort,
    alloc: Global,
    rows: &[(i32, i32)],
    cost: i32,
) -> Result<Listed<S>, Fail> {
    let mut listed = Vec::new(alloc);
    for row in rows {
        listed.push((S::of_int(row.0), S::of_int(row.1)))?;
    }
    assert!(rt; listed.len() < 100);
    Ok(Listed {
        rows: listed,
        cost: S::of_int(cost),
        base: S::of_int(0),
    })
}

fn pairs<S: Scalar>(alloc: Global, numbers: &[(u32, i32)]) -> Result<Vec<(RowId, S)>, Fail> {
    let mut pairs = Vec::new(alloc);
    for pair in numbers {
        pairs.push((RowId::of(pair.0), S::of_int(pair.1)))?;
    }
    Ok(pairs)
}

// The rows x <= 1 and -x <= -2 have no solution; the rows -x <= -2 and x <= 5 with the cost x have 2 as their least.
fn certificates_of_one_variable<S: Scalar>(rt: &impl Abort, alloc: Global) -> Result<(), Fail> {
    let empty: Listed<S> = make_listed(rt, alloc, &[(1, 1), (-1, -2)], 0)?;
    let farkas: [(&[(u32, i32)], Result<(), CertFault<RowId, VarId>>); 8] = [
        (&[(0, 1), (1, 1)], Ok(())),
        (&[(0, 1), (1, 2)], Err(CertFault::Column(VarId::of(0)))),
        (&[(0, 1)], Err(CertFault::Constant)),
        (&[(0, -1), (1, 1)], Err(CertFault::Negative(RowId::of(0)))),
        (&[(2, 1)], Err(CertFault::Range(2))),
        (&[(1, 1), (0, 1)], Err(CertFault::Range(0))),
        (&[(0, 1), (0, 1)], Err(CertFault::Range(0))),
        (&[], Err(CertFault::Constant)),
    ];
    for (numbers, answer) in farkas {
        let row = FarkasRow::of_pairs(alloc, &pairs::<S>(alloc, numbers)?)?;
        assert_eq!(rt; check_farkas(&empty, &row), answer);
    }
    let costed: Listed<S> = make_listed(rt, alloc, &[(-1, -2), (1, 5)], 1)?;
    let dual: [(&[(u32, i32)], i32, Result<(), CertFault<RowId, VarId>>); 4] = [
        (&[(0, 1)], 2, Ok(())),
        (&[(0, 1)], 3, Err(CertFault::Bound)),
        (&[], 0, Ok(())),
        (&[(0, 2)], 2, Err(CertFault::Column(VarId::of(0)))),
    ];
    for (numbers, cost, answer) in dual {
        let row = DualRow::of_pairs(alloc, &pairs::<S>(alloc, numbers)?)?;
        assert_eq!(rt; check_dual(&costed, &row, S::of_int(cost)), answer);
    }
    Ok(())
}

fn make_form(
    alloc: Global,
    bound: i32,
    terms: &[(u32, i32)],
) -> Result<Form<VarId, Fraction>, Fail> {
    let mut form = Form::zero(alloc);
    form.add_constant(Fraction::of_int(bound)).ok();
    for term in terms {
        form.add_term(VarId::of(term.0), Fraction::of_int(term.1))
            .ok();
    }
    Ok(form)
}

// The rows x + y <= 5, -x - y <= -2 and, read entry by entry, y - z <= 1, of which z is no variable.
fn make_forms(rt: &impl Abort, alloc: Global) -> Result<Forms, Fail> {
    let mut rows = Vec::new(alloc);
    rows.push(make_form(alloc, 5, &[(0, 1), (1, 1)])?)?;
    rows.push(make_form(alloc, -2, &[(0, -1), (1, -1)])?)?;
    rows.push(make_form(alloc, 1, &[(1, 1), (2, -1)])?)?;
    assert!(rt; rows.len() < 100);
    Ok(Forms { rows })
}

// With room for the sums of both columns and without, the answers are the same.
#[test]
fn sums_of_all_columns_at_once(rt: HostRuntime) -> Result<(), Fail> {
    let program = make_forms(&rt, rt.alloc())?;
    let cases: [(&[(u32, i32)], i32, Answer); 6] = [
        (&[(1, 1)], 2, Ok(())),
        (&[(1, 1)], 3, Err(CertFault::Bound)),
        (&[(1, 2)], 2, Err(CertFault::Column(VarId::of(0)))),
        (&[(0, 1), (1, 2), (2, 1)], -2, Ok(())),
        (
            &[(0, 1), (1, 2), (2, -1)],
            -2,
            Err(CertFault::Negative(RowId::of(2))),
        ),
        (&[(2, 1), (1, 1)], 1, Err(CertFault::Range(1))),
    ];
    for (numbers, cost, answer) in cases {
        let row = DualRow::of_pairs(rt.alloc(), &pairs(rt.alloc(), numbers)?)?;
        let cost = Fraction::of_int(cost);
        let mut sums = [None, None, Some(Fraction::of_int(7))];
        assert_eq!(rt; check_dual_in(&program, &row, cost, &mut sums), answer);
        assert_eq!(rt; check_dual(&program, &row, cost), answer);
    }
    Ok(())
}

#[test]
fn certificates_at_both_widths(rt: HostRuntime) -> Result<(), Fail> {
    certificates_of_one_variable::<Fraction>(&rt, rt.alloc())?;
    certificates_of_one_variable::<Narrow>(&rt, rt.alloc())
}

// A split of the term 0, with a child for each of these multipliers of row 0.
fn make_split<S: Scalar>(
    alloc: Global,
    multipliers: &[i32],
) -> Result<DualTree<TermId, RowId, S>, Fail> {
    let mut children = Items::new(alloc);
    for multiplier in multipliers {
        let row = DualRow::of_pairs(alloc, &pairs::<S>(alloc, &[(0, *multiplier)])?)?;
        children.push(DualTree::AtLeast(row))?;
    }
    Ok(DualTree::Split(TermId::of(0), children))
}

// A split of the term 0 whose first child splits it again.
fn make_nested(alloc: Global) -> Result<DualTree<TermId, RowId, Fraction>, Fail> {
    let mut children = Items::new(alloc);
    children.push(make_split(alloc, &[1, 1])?)?;
    let row = DualRow::of_pairs(alloc, &pairs(alloc, &[(0, 1)])?)?;
    children.push(DualTree::AtLeast(row))?;
    Ok(DualTree::Split(TermId::of(0), children))
}

// A split of the term 0 whose second child claims that its program has no solution.
fn make_empty_claim(alloc: Global) -> Result<DualTree<TermId, RowId, Fraction>, Fail> {
    let mut children = Items::new(alloc);
    let row = DualRow::of_pairs(alloc, &pairs(alloc, &[(0, 1)])?)?;
    children.push(DualTree::AtLeast(row))?;
    let row = FarkasRow::of_pairs(alloc, &pairs(alloc, &[(1, 1)])?)?;
    children.push(DualTree::None(row))?;
    Ok(DualTree::Split(TermId::of(0), children))
}

type Answer = Result<(), CertFault<RowId, VarId>>;

type TreeAnswer = Result<(), TreeFault<RowId, VarId>>;

// What the check of the tree answers, where its leaves can be counted.
fn tree_answer(
    soft: &Priced,
    tree: &DualTree<TermId, RowId, Fraction>,
    cost: i32,
) -> Option<TreeAnswer> {
    match tree.leaves() {
        Some(_count) => {
            let mut made = [None];
            Some(check_tree(soft, tree, Fraction::of_int(cost), &mut made))
        },
        None => None,
    }
}

// What the check of the leaf answers, where there is one.
fn leaf_answer(
    soft: &Priced,
    tree: &DualTree<TermId, RowId, Fraction>,
    leaf: u32,
    cost: i32,
) -> Option<Answer> {
    match tree.leaves() {
        Some(count) => if 1 <= leaf && leaf <= count {
            let mut made = [None];
            Some(check_leaf(soft, tree, leaf, Fraction::of_int(cost), &mut made))
        } else {
            None
        },
        None => None,
    }
}

// What the check of the leaves from the second to the ninth answers.
fn later_answer(tree: &DualTree<TermId, RowId, Fraction>, cost: i32) -> Option<TreeAnswer> {
    match tree.leaves() {
        Some(_count) => {
            let mut made = [None];
            let soft = Priced { has_base: true };
            Some(check_leaves(&soft, tree, 2, 9, Fraction::of_int(cost), &mut made))
        },
        None => None,
    }
}

fn fault_at(leaf: u32, fault: CertFault<RowId, VarId>) -> Option<TreeAnswer> {
    Some(Err(TreeFault { leaf, fault }))
}

// The tree's check and those of its leaves, of which there are no more, answer so.
fn answers(
    rt: &impl Abort,
    tree: &DualTree<TermId, RowId, Fraction>,
    cost: i32,
    whole: Option<TreeAnswer>,
    leaves: &[Answer],
) {
    let soft = Priced { has_base: true };
    assert_eq!(rt; tree_answer(&soft, tree, cost), whole);
    let mut leaf: u32 = 1;
    for answer in leaves {
        assert_eq!(rt; leaf_answer(&soft, tree, leaf, cost), Some(*answer));
        leaf = leaf.wrapping_add(1);
    }
    assert!(rt; leaf_answer(&soft, tree, leaf, cost).is_none());
}

fn negative() -> CertFault<RowId, VarId> {
    CertFault::Negative(RowId::of(0))
}

// Each solution costs at least 2, and at least 5 where the term is paid for.
#[test]
fn trees_and_their_leaves(rt: HostRuntime) -> Result<(), Fail> {
    let cases: [(&[i32], i32, Option<TreeAnswer>, &[Answer]); 5] = [
        (&[1, 1], 2, Some(Ok(())), &[Ok(()), Ok(())]),
        (
            &[1, 1],
            3,
            fault_at(1, CertFault::Bound),
            &[Err(CertFault::Bound), Ok(())],
        ),
        (
            &[1, -1],
            2,
            fault_at(2, negative()),
            &[Ok(()), Err(negative())],
        ),
        (
            &[1],
            2,
            fault_at(1, CertFault::Range(0)),
            &[Err(CertFault::Range(0))],
        ),
        (
            &[],
            2,
            fault_at(1, CertFault::Range(0)),
            &[Err(CertFault::Range(0))],
        ),
    ];
    for (multipliers, cost, whole, leaves) in cases {
        let tree = make_split(rt.alloc(), multipliers)?;
        answers(&rt, &tree, cost, whole, leaves);
    }
    Ok(())
}

#[test]
fn a_term_split_again_and_a_claim_of_none(rt: HostRuntime) -> Result<(), Fail> {
    let nested = make_nested(rt.alloc())?;
    let again = [Err(CertFault::Range(0)), Err(CertFault::Range(0)), Ok(())];
    answers(&rt, &nested, 2, fault_at(1, CertFault::Range(0)), &again);
    let claim = make_empty_claim(rt.alloc())?;
    answers(
        &rt,
        &claim,
        2,
        fault_at(2, CertFault::Constant),
        &[Ok(()), Err(CertFault::Constant)],
    );
    assert_eq!(rt; later_answer(&claim, 2), fault_at(2, CertFault::Constant));
    Ok(())
}

#[test]
fn an_undefined_base_is_wide(rt: HostRuntime) -> Result<(), Fail> {
    let tree = make_split(rt.alloc(), &[1, 1])?;
    let soft = Priced { has_base: false };
    assert_eq!(rt; tree_answer(&soft, &tree, 2), fault_at(1, CertFault::Wide));
    assert_eq!(rt; leaf_answer(&soft, &tree, 2, 2), Some(Err(CertFault::Wide)));
    assert_eq!(rt; later_answer(&tree, 3), Some(Ok(())));
    Ok(())
}

// 2147483647 times 2147483647, three times, is past the narrow limit.
fn wide_answer<S: Scalar>(rt: &impl Abort, alloc: Global) -> Result<Answer, Fail> {
    let most = 2147483647;
    let steep: Listed<S> = make_listed(rt, alloc, &[(most, 0), (most, 0), (most, 0)], 0)?;
    let row = FarkasRow::of_pairs(
        alloc,
        &pairs::<S>(alloc, &[(0, most), (1, most), (2, most)])?,
    )?;
    Ok(check_farkas(&steep, &row))
}

#[test]
fn a_sum_may_be_wide(rt: HostRuntime) -> Result<(), Fail> {
    assert_eq!(rt;
        wide_answer::<Narrow>(&rt, rt.alloc())?,
        Err(CertFault::Wide)
    );
    assert_eq!(rt;
        wide_answer::<Fraction>(&rt, rt.alloc())?,
        Err(CertFault::Constant)
    );
    Ok(())
}
