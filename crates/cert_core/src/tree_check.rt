//! The checks of a tree of decisions: of all its leaves, of some that follow each other, of one.

ghost use Rattle.std.specs.Prelude.{◌≡◌, ℕ, ◌+◌, ◌<◌, ◌≤◌, ◌^◌, max, Some, None, IsTrue, ◌↔◌, [], ◌∷◌, length, map, IsOk, IfOk, IfErr, OnOk};
ghost use Rattle.std.specs.List.{sum_by};
ghost use Rattle.cert_core.specs.declared.program.CertFault.TheVariants.{Range};
ghost use Rattle.cert_core.specs.Checks.{claim_of};
ghost use Rattle.basics.specs.Duties.{Judges, IsFirstUnmet};
ghost use Rattle.cert_core.specs.Faults.{fault_of, multipliers_of, tree_fault_of};
ghost use Rattle.cert_core.specs.LeafWalks.{JudgesLeaves};
ghost use Rattle.cert_core.specs.Soft.{AlwaysCosts, AreDecisions, AreUndecided, decide, decision_of, ways_of};
ghost use Rattle.cert_core.specs.Trees.{AreLeavesReckoned, ProvesTree, Shows, leaf_duties, leaves_duties, between_duties, numbered_duties, leaves_of, leaf_count, is_fit, child_leaves, top};

use crate::check::check;
use crate::claim::Claim;
use crate::decided::under;
use crate::program::CertFault;
use crate::soft::{SoftRows, Way};
use crate::tree::{DualTree, TreeFault};
use exact_lin::{Id, Scalar};

/// Checks that the tree shows that every solution under every complete list of decisions costs at least `cost`: each
/// split names a term that is undecided above it and has one child for each way of it in order, and each leaf proves
/// its program, under the decisions above it, empty or its cost at least `cost`. Leaves count from 1; a split without
/// children counts as one. A split that can't be made is the fault `Range` of its term at the next leaf, and a base
/// that is not defined is `Wide` at its leaf.
pub fn check_tree<T: Id, R: Id, V: Id, S: Scalar, P: SoftRows<T, R, V, S>>(
    soft: &P,
    tree: &DualTree<T, R, S>,
    cost: S,
    made: &mut [Option<Way>],
) -> Result<(), TreeFault<R, V>>
    requires undecided { AreUndecided (P.soft soft.now) made.old }
    requires countable { leaf_count tree.now < 2 ^ 32 }
    ensures ok { let leaves = leaves_of T.number_of R.number_of S.value (P.soft soft.now)
        (S.value cost) tree.now (top made.old) in
        IsOk result ↔ (ProvesTree (P.soft soft.now) leaves
        × AreLeavesReckoned S.limit (P.soft soft.now) leaves) }
    ensures first_fault { IfErr result (λ fault. IsFirstUnmet
        (leaves_duties S.limit (P.soft soft.now) 1
        (leaves_of T.number_of R.number_of S.value (P.soft soft.now) (S.value cost) tree.now
        (top made.old)))
        (tree_fault_of R.number_of V.number_of fault)) }
    ensures always_costs { OnOk result (AlwaysCosts (P.soft soft.now) (S.value cost)) }
    ensures made { made.new ≡ made.old }
{
    check_leaves(soft, tree, 1, u32::MAX, cost, made)
}

/// Checks the leaves with the numbers from `from` to `to`, counted from 1, one after another. Below a split that can't be
/// made each leaf has the fault `Range` of the term of the first such split from the root; else a leaf's fault is that of
/// its base and its multipliers under the decisions above it. Numbers past the last leaf ask nothing. The tree is walked
/// once, up to the leaf `to`.
pub fn check_leaves<T: Id, R: Id, V: Id, S: Scalar, P: SoftRows<T, R, V, S>>(
    soft: &P,
    tree: &DualTree<T, R, S>,
    from: u32,
    to: u32,
    cost: S,
    made: &mut [Option<Way>],
) -> Result<(), TreeFault<R, V>>
    requires undecided { AreUndecided (P.soft soft.now) made.old }
    requires countable { leaf_count tree.now < 2 ^ 32 }
    requires from_one { 1 ≤ from }
    requires ordered { from ≤ to }
    ensures judged { Judges result (tree_fault_of R.number_of V.number_of)
        (between_duties S.limit (P.soft soft.now) from to 1
        (leaves_of T.number_of R.number_of S.value (P.soft soft.now) (S.value cost) tree.now
        (top made.old))) }
    ensures made { made.new ≡ made.old }
{
    let mut no_sums = [];
    check_leaves_in(soft, tree, from, to, cost, made, &mut no_sums)
}

/// What [`check_leaves`] answers, with room for all sums of a leaf as [`crate::check_farkas_in`] has it.
pub fn check_leaves_in<T: Id, R: Id, V: Id, S: Scalar, P: SoftRows<T, R, V, S>>(
    soft: &P,
    tree: &DualTree<T, R, S>,
    from: u32,
    to: u32,
    cost: S,
    made: &mut [Option<Way>],
    sums: &mut [Option<S>],
) -> Result<(), TreeFault<R, V>>
    requires undecided { AreUndecided (P.soft soft.now) made.old }
    requires countable { leaf_count tree.now < 2 ^ 32 }
    requires from_one { 1 ≤ from }
    requires ordered { from ≤ to }
    ensures judged { Judges result (tree_fault_of R.number_of V.number_of)
        (between_duties S.limit (P.soft soft.now) from to 1
        (leaves_of T.number_of R.number_of S.value (P.soft soft.now) (S.value cost) tree.now
        (top made.old))) }
    ensures made { made.new ≡ made.old }
{
    match check_part(soft, tree, Asked { from, to, cost }, made, sums, 0) {
        Ok(_) => Ok(()),
        Err(fault) => Err(fault),
    }
}

/// Checks the leaf with this number, counted from 1: below a split that can't be made, the fault `Range` of the term
/// of the first such split from the root; else the base and the multipliers of the leaf under the decisions above it.
pub fn check_leaf<T: Id, R: Id, V: Id, S: Scalar, P: SoftRows<T, R, V, S>>(
    soft: &P,
    tree: &DualTree<T, R, S>,
    leaf: u32,
    cost: S,
    made: &mut [Option<Way>],
) -> Result<(), CertFault<R, V>>
    requires undecided { AreUndecided (P.soft soft.now) made.old }
    requires countable { leaf_count tree.now < 2 ^ 32 }
    requires from_one { 1 ≤ leaf }
    requires in_range { leaf ≤ leaf_count tree.now }
    ensures judged { Judges result (fault_of R.number_of V.number_of)
        (numbered_duties S.limit (P.soft soft.now)
        (leaves_of T.number_of R.number_of S.value (P.soft soft.now) (S.value cost) tree.now
        (top made.old)) leaf) }
    ensures made { made.new ≡ made.old }
{
    match check_leaves(soft, tree, leaf, leaf, cost, made) {
        Ok(()) => Ok(()),
        Err(fault) => Err(fault.fault),
    }
}

// What a walk asks: the leaves with the numbers from `from` to `to`, and the cost that they have to prove.
#[derive(Clone, Copy, Drop)]
struct Asked<S> {
    from: u32,
    to: u32,
    cost: S,
}

// A leaf's multipliers, for the program under the decisions above it.
fn check_here<T: Id, R: Id, V: Id, S: Scalar, P: SoftRows<T, R, V, S>>(
    soft: &P,
    made: &[Option<Way>],
    pairs: &[(R, S)],
    claim: Claim<S>,
    sums: &mut [Option<S>],
) -> Result<(), CertFault<R, V>>
    requires { AreDecisions (P.soft soft.now) made.now }
    ensures { Judges result (fault_of R.number_of V.number_of)
        (leaf_duties S.limit (P.soft soft.now)
        (record {
          made = made.now;
          here = Shows (claim_of S.value claim)
              (multipliers_of R.number_of S.value pairs.now);
        })) }
{
    match under(soft, made) {
        Ok(program) => check(&program, pairs, claim, sums),
        Err(_) => Err(CertFault::Wide),
    }
}

// Whether a split names a term that is still undecided and has one child for each way of it.
fn fits<T: Id, R: Id, V: Id, S: Scalar, P: SoftRows<T, R, V, S>>(
    soft: &P,
    made: &[Option<Way>],
    t: T,
    children: usize,
) -> bool
    requires { AreDecisions (P.soft soft.now) made.now }
    ensures { result ≡ is_fit (P.soft soft.now) made.now (T.number_of t) children }
{
    let number = t.number();
    if number >= soft.term_count() {
        return false;
    }
    match made[number as usize] {
        Some(_) => false,
        None => children == soft.ways(t) as usize,
    }
}

// The next leaf after `done` others: passed where its number is below those that are asked, else checked.
fn check_next<T: Id, R: Id, V: Id, S: Scalar, P: SoftRows<T, R, V, S>>(
    soft: &P,
    made: &[Option<Way>],
    pairs: &[(R, S)],
    claim: Claim<S>,
    asked: Asked<S>,
    sums: &mut [Option<S>],
    done: u32,
) -> Result<u32, TreeFault<R, V>>
    requires decisions { AreDecisions (P.soft soft.now) made.now }
    requires inside { done < asked.to }
    ensures { JudgesLeaves result (tree_fault_of R.number_of V.number_of) S.limit
        (P.soft soft.now) asked.from asked.to done 1
        (record {
          made = made.now;
          here = Shows (claim_of S.value claim)
              (multipliers_of R.number_of S.value pairs.now);
        } ∷ []) }
{
    if done + 1 < asked.from {
        return Ok(done + 1);
    }
    match check_here(soft, made, pairs, claim, sums) {
        Ok(()) => Ok(done + 1),
        Err(fault) => Err(TreeFault {
            leaf: done + 1,
            fault,
        }),
    }
}

// A part below a split of this term that can't be made, after `done` leaves: the first of its leaves that is asked has
// the fault.
fn refuse<T: Id, R: Id, V: Id, S>(
    tree: &DualTree<T, R, S>,
    t: T,
    from: u32,
    done: u32,
) -> Result<u32, TreeFault<R, V>>
    requires { done + leaf_count tree.now < 2 ^ 32 }
    ensures passed { IfOk result (λ end. end ≡ done + leaf_count tree.now × end < from) }
    ensures refused { IfErr result (λ fault. fault.fault ≡ Range (T.number_of t)
        × fault.leaf ≡ max from (done + 1) × fault.leaf ≤ done + leaf_count tree.now) }
{
    let count = tree.leaves().unwrap();
    let end = done + count;
    if end < from {
        return Ok(end);
    }
    Err(TreeFault {
        leaf: if from <= done { done + 1 } else { from },
        fault: CertFault::Range(t.number()),
    })
}

// A part of a tree under the decisions above it, after `done` leaves: the number of leaves up to its end, or up to the
// last that is asked.
#[cycle(tree)]
fn check_part<T: Id, R: Id, V: Id, S: Scalar, P: SoftRows<T, R, V, S>>(
    soft: &P,
    tree: &DualTree<T, R, S>,
    asked: Asked<S>,
    made: &mut [Option<Way>],
    sums: &mut [Option<S>],
    done: u32,
) -> Result<u32, TreeFault<R, V>>
    requires decisions { AreDecisions (P.soft soft.now) made.old }
    requires countable { done + leaf_count tree.now < 2 ^ 32 }
    requires ordered { asked.from ≤ asked.to }
    requires inside { done < asked.to }
    ensures made { made.new ≡ made.old }
    ensures judged { JudgesLeaves result (tree_fault_of R.number_of V.number_of) S.limit
        (P.soft soft.now) asked.from asked.to done (leaf_count tree.now)
        (leaves_of T.number_of R.number_of S.value (P.soft soft.now) (S.value asked.cost) tree.now
        (top made.old)) }
{
    match tree {
        DualTree::None(row) => {
            check_next(soft, made, row.pairs(), Claim::Empty, asked, sums, done)
        }
        DualTree::AtLeast(row) => {
            check_next(
                soft,
                made,
                row.pairs(),
                Claim::AtLeast(asked.cost),
                asked,
                sums,
                done,
            )
        }
        DualTree::Split(t, children) => {
            if fits(soft, made, *t, children.len()) {
                check_children(soft, children.as_slice(), asked, made, sums, *t, done)
            } else {
                refuse(tree, *t, asked.from, done)
            }
        }
    }
}

// The children of a split that fits, one way after another.
#[cycle(tree)]
fn check_children<T: Id, R: Id, V: Id, S: Scalar, P: SoftRows<T, R, V, S>>(
    soft: &P,
    children: &[DualTree<T, R, S>],
    asked: Asked<S>,
    made: &mut [Option<Way>],
    sums: &mut [Option<S>],
    t: T,
    done: u32,
) -> Result<u32, TreeFault<R, V>>
    requires decisions { AreDecisions (P.soft soft.now) made.old }
    requires fits { IsTrue (is_fit (P.soft soft.now) made.old (T.number_of t)
        (length children.now)) }
    requires countable { done + sum_by leaf_count children.now < 2 ^ 32 }
    requires ordered { asked.from ≤ asked.to }
    requires inside { done < asked.to }
    ensures made { made.new ≡ made.old }
    ensures judged { JudgesLeaves result (tree_fault_of R.number_of V.number_of) S.limit
        (P.soft soft.now) asked.from asked.to done (sum_by leaf_count children.now)
        (child_leaves None made.old (T.number_of t) 0
        (map (leaves_of T.number_of R.number_of S.value (P.soft soft.now)
        (S.value asked.cost)) children.now)) }
{
    let mut done = done;
    let mut way = 0;
    for child in children {
        match check_child(soft, child, asked, made, sums, t, Way(way), done) {
            Ok(end) => done = end,
            Err(fault) => return Err(fault),
        }
        if done >= asked.to {
            return Ok(done);
        }
        way += 1;
    }
    Ok(done)
}

// One child, with the term decided in its way; the decision is taken back afterwards.
#[cycle(tree)]
fn check_child<T: Id, R: Id, V: Id, S: Scalar, P: SoftRows<T, R, V, S>>(
    soft: &P,
    child: &DualTree<T, R, S>,
    asked: Asked<S>,
    made: &mut [Option<Way>],
    sums: &mut [Option<S>],
    t: T,
    way: Way,
    done: u32,
) -> Result<u32, TreeFault<R, V>>
    requires decisions { AreDecisions (P.soft soft.now) made.old }
    requires term { T.number_of t < length made.old }
    requires undecided { decision_of made.old (T.number_of t) ≡ None }
    requires way { way < ways_of (P.soft soft.now) (T.number_of t) }
    requires countable { done + leaf_count child.now < 2 ^ 32 }
    requires ordered { asked.from ≤ asked.to }
    requires inside { done < asked.to }
    ensures made { made.new ≡ made.old }
    ensures judged { JudgesLeaves result (tree_fault_of R.number_of V.number_of) S.limit
        (P.soft soft.now) asked.from asked.to done (leaf_count child.now)
        (leaves_of T.number_of R.number_of S.value (P.soft soft.now) (S.value asked.cost) child.now
        (top (decide made.old (T.number_of t) way))) }
{
    let number = t.number() as usize;
    made[number] = Some(way);
    let answer = check_part(soft, child, asked, made, sums, done);
    made[number] = None;
    answer
}
