//! Expressions and lists of atoms over a world without names: each public call once, with ample memory.

use crate::{MetricNames, Numbering, Places, Reading, Tables, reckon};
use exact_lin::{Fraction, NoMemory, Scalar};
use pddl_names::Names;
use pddl_terms::ExprTree;
use sqlite_items::{Boxed, Items};
use std::alloc::Global;

// A world in which nothing is declared.
fn no_tables(alloc: Global) -> Tables {
    Tables {
        objects: Names::new(alloc),
        predicates: Names::new(alloc),
        functions: Names::new(alloc),
        sorts: Names::new(alloc),
        columns: Items::new(alloc),
        others: Items::new(alloc),
        changed_predicates: Places::new(alloc),
        changed_functions: Places::new(alloc),
        held: Numbering::new(alloc),
        given: Numbering::new(alloc),
        values: Items::new(alloc),
        fluents: Numbering::new(alloc),
    }
}

fn no_names(alloc: Global) -> MetricNames {
    MetricNames {
        preferences: Names::new(alloc),
        costs: Names::new(alloc),
    }
}

fn number(at: u32, value: i32) -> ExprTree {
    ExprTree::Number(at, Fraction::of_int(value))
}

// The quotient of 6 by a number.
fn six_by(alloc: Global, divisor: i32) -> Result<ExprTree, NoMemory> {
    let six = Boxed::new(alloc, number(3, 6))?;
    let other = Boxed::new(alloc, number(5, divisor))?;
    Ok(ExprTree::Quotient(0, six, other))
}

// The value of an expression that is a number, and how many flaws it has.
fn reckoned(alloc: Global, tree: &ExprTree) -> Result<(Option<Fraction>, usize), NoMemory> {
    let tables = no_tables(alloc);
    let names = no_names(alloc);
    let reading = Reading {
        tables: &tables,
        names: &names,
        env: &[],
    };
    let mut flaws = Items::new(alloc);
    let value = reckon(alloc, &reading, tree, &mut flaws)?;
    match value {
        Some(form) => Ok((Some(form.constant()), flaws.as_slice().len())),
        None => Ok((None, flaws.as_slice().len())),
    }
}

#[test]
fn quotients_are_reckoned(rt: HostRuntime) -> Result<(), NoMemory> {
    let by_two = reckoned(rt.alloc(), &six_by(rt.alloc(), 2)?)?;
    assert!(rt; by_two == (Some(Fraction::of_int(3)), 0));
    let by_zero = reckoned(rt.alloc(), &six_by(rt.alloc(), 0)?)?;
    assert!(rt; by_zero == (None, 1));
    Ok(())
}
