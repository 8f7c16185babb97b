//! Each public call once, on constraints over two facts.

ghost use Rattle.std.specs.Prelude.{◌≡◌, ◌-◌, ◌^◌, ◌<◌, ◌∷◌, [], length, IfOk, All};
ghost use Rattle.task_types.specs.declared.formulas.FactTree.TheVariants as tree;
ghost use Rattle.task_types.specs.Touch.{tree_facts, trail_facts};

use crate::{Automaton, TrailEnd, tree_holds};
use exact_lin::{FactId, Fraction, Id, NoMemory, Scalar};
use sqlite_items::{Boxed, Items};
use std::alloc::Global;
use task_types::{FactTree, Literal, Trail, TrailKind};

fn fact(number: u32, holds: bool) -> FactTree
    ensures { result ≡ tree.Is record { fact = number; holds = holds } }
{
    FactTree::Is(Literal {
        fact: FactId::of(number),
        holds,
    })
}

fn trail(kind: TrailKind) -> Trail
    ensures { trail_facts result ≡ 0 ∷ 1 ∷ [] }
{
    Trail {
        kind,
        first: fact(0, true),
        second: fact(1, true),
        moment: Fraction::of_int(3),
    }
}

// Not fact 0, or fact 1.
fn either(alloc: Global) -> Result<FactTree, NoMemory>
    ensures { IfOk result (λ formula. tree_facts formula ≡ 0 ∷ 1 ∷ []) }
{
    let mut parts = Items::new(alloc);
    parts.push(FactTree::Not(Boxed::new(alloc, fact(0, true))?))?;
    parts.push(fact(1, true))?;
    Ok(FactTree::Or(parts))
}

// How some states leave a constraint, and the first state of its first formula.
fn end_of(
    alloc: Global,
    kind: TrailKind,
    states: &[(bool, bool)],
) -> Result<(TrailEnd, Option<u32>), NoMemory>
    requires { length states.now < 2 ^ 32 - 1 }
{
    let mut automaton = Automaton::new(alloc, &trail(kind))?;
    for (first, second) in states {
        automaton.step(&[*first, *second]);
    }
    Ok((automaton.verdict(), automaton.first_step()))
}

#[test]
fn constraints_end(rt: HostRuntime) -> Result<(), NoMemory> {
    let none = (false, false);
    let a = (true, false);
    let both = (true, true);
    let rows = [
        (TrailKind::Always, [a, none, a], TrailEnd::Broken, Some(0)),
        (TrailKind::Sometime, [none, a, none], TrailEnd::Met, Some(1)),
        (TrailKind::Within, [none, a, a], TrailEnd::Timed(1), Some(1)),
        (TrailKind::Within, [none; 3], TrailEnd::Broken, None),
        (
            TrailKind::AtMostOnce,
            [a, none, a],
            TrailEnd::Broken,
            Some(0),
        ),
        (
            TrailKind::SometimeAfter,
            [a, both, none],
            TrailEnd::Met,
            Some(0),
        ),
        (
            TrailKind::SometimeBefore,
            [none, both, none],
            TrailEnd::Broken,
            Some(1),
        ),
        (TrailKind::AtEnd, [a, a, none], TrailEnd::Broken, Some(0)),
    ];
    for (kind, states, end, first) in rows {
        assert!(rt; end_of(rt.alloc(), kind, &states)? == (end, first));
    }
    Ok(())
}

#[test]
fn formulas_hold(rt: HostRuntime) -> Result<(), NoMemory> {
    let formula = either(rt.alloc())?;
    for (facts, holds) in [
        ([true, false], false),
        ([true, true], true),
        ([false, false], true),
    ] {
        assert!(rt; tree_holds(&formula, &facts) == holds);
    }
    Ok(())
}
