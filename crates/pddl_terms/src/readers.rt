//! The readers of parts of a text.

ghost use Rattle.std.specs.Prelude.{◌≡◌, ◌<◌, [], length};
ghost use Rattle.pddl_terms.specs.declared.grammar.Line.TheVariants.{Cond, Tree, EffectExpr, Con, Dur};
ghost use Rattle.pddl_terms.specs.Content.{content_at};
ghost use Rattle.pddl_terms.specs.Shape.{wrong_item};
ghost use Rattle.pddl_terms.specs.Typed.{groups};
ghost use Rattle.pddl_terms.specs.Conditions.{cond_tree};
ghost use Rattle.pddl_terms.specs.Expressions.{expr_tree};
ghost use Rattle.pddl_terms.specs.Formulas.{fact_tree};
ghost use Rattle.pddl_terms.specs.Constraints.{con_tree};
ghost use Rattle.pddl_terms.specs.Durations.{dur_tree};
ghost use Rattle.pddl_terms.specs.Readings.{Reads, listed, wrong_typed};

use crate::conditions::cond_tree;
use crate::constraints::con_tree;
use crate::durations::dur_tree;
use crate::expressions::expr_tree;
use crate::faults::{Kind, PddlFault};
use crate::formulas::fact_tree;
use crate::grammar::{Line, Listed, Rest};
use crate::items::kind_ahead;
use crate::shape::{first_wrong, first_wrong_item};
use crate::trees::{ConForm, CondTree, DurTree, ExprTree, FactForm, Group};
use crate::typed::groups;
use sexpr_text::{Forms, TokenKind};
use sqlite_items::Items;
use std::alloc::Global;

/// Reads the condition that stands at a token: the line `cond` of the grammar.
pub fn read_condition(alloc: Global, forms: &Forms, at: u32) -> Result<CondTree, PddlFault>
    requires { at < length forms.now.tokens }
    ensures { Reads (wrong_item Cond (content_at forms.now at)) (cond_tree (content_at forms.now at)) result }
{
    let at = at as usize;
    if let Some(place) = first_wrong_item(forms, at, Line::Cond) {
        return Err(PddlFault::At(Kind::Shape, place));
    }
    Ok(cond_tree(alloc, forms, at)?)
}

/// Reads the formula over facts that stands at a token: the line `tree` of the grammar.
pub fn read_tree(alloc: Global, forms: &Forms, at: u32) -> Result<FactForm, PddlFault>
    requires { at < length forms.now.tokens }
    ensures { Reads (wrong_item Tree (content_at forms.now at)) (fact_tree (content_at forms.now at)) result }
{
    let at = at as usize;
    if let Some(place) = first_wrong_item(forms, at, Line::Tree) {
        return Err(PddlFault::At(Kind::Shape, place));
    }
    Ok(fact_tree(alloc, forms, at)?)
}

/// Reads the expression that stands at a token: the line `expr` of the grammar, `?duration` included.
pub fn read_expression(alloc: Global, forms: &Forms, at: u32) -> Result<ExprTree, PddlFault>
    requires { at < length forms.now.tokens }
    ensures { Reads (wrong_item EffectExpr (content_at forms.now at)) (expr_tree (content_at forms.now at)) result }
{
    let at = at as usize;
    if let Some(place) = first_wrong_item(forms, at, Line::EffectExpr) {
        return Err(PddlFault::At(Kind::Shape, place));
    }
    Ok(expr_tree(alloc, forms, at)?)
}

/// Reads the duration that stands at a token: the line `dur` of the grammar.
pub fn read_duration(alloc: Global, forms: &Forms, at: u32) -> Result<DurTree, PddlFault>
    requires { at < length forms.now.tokens }
    ensures { Reads (wrong_item Dur (content_at forms.now at)) (dur_tree (content_at forms.now at)) result }
{
    let at = at as usize;
    if let Some(place) = first_wrong_item(forms, at, Line::Dur) {
        return Err(PddlFault::At(Kind::Shape, place));
    }
    Ok(dur_tree(alloc, forms, at)?)
}

/// Reads the constraint that stands at a token: the line `con` of the grammar.
pub fn read_constraint(alloc: Global, forms: &Forms, at: u32) -> Result<ConForm, PddlFault>
    requires { at < length forms.now.tokens }
    ensures { Reads (wrong_item Con (content_at forms.now at)) (con_tree (content_at forms.now at)) result }
{
    let at = at as usize;
    if let Some(place) = first_wrong_item(forms, at, Line::Con) {
        return Err(PddlFault::At(Kind::Shape, place));
    }
    Ok(con_tree(alloc, forms, at)?)
}

/// Whether the typed list from a token on is one of names or of variables.
fn listed(forms: &Forms, from: usize) -> Listed
    ensures { result ≡ listed (content_at forms.now from) }
{
    match kind_ahead(forms, from) {
        TokenKind::Variable => Listed::Variables,
        _ => Listed::Names,
    }
}

/// Reads the typed list from a token on, up to the end of the list in which that token stands: the line `typedvars` of
/// the grammar where the token is a variable, and else the line `typed`.
pub fn read_typed(alloc: Global, forms: &Forms, from: u32) -> Result<Items<Group>, PddlFault>
    requires { from < length forms.now.tokens }
    ensures { Reads (wrong_typed (content_at forms.now from)) (groups (listed (content_at forms.now from)) [] (content_at forms.now from)) result }
{
    let from = from as usize;
    let of = listed(forms, from);
    if let Some(place) = first_wrong(forms, from, Rest::Typed(of)) {
        return Err(PddlFault::At(Kind::Shape, place));
    }
    Ok(groups(alloc, forms, of, from)?)
}
