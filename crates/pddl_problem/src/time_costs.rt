//! Time costs of a text.

ghost use Rattle.std.specs.Prelude.{◌≡◌, IfOk};
ghost use lib.Chars.{codes};
ghost use Rattle.pddl_terms.specs.Content.{lexeme, content_at};
ghost use Rattle.pddl_terms.specs.Items.{IsWord};
ghost use Rattle.pddl_terms.specs.Sections.{section};
ghost use Rattle.pddl_problem.specs.TimeCosts.{
  piece_list,
  pieces,
  three,
  cost_curve,
  cost_by,
  cost_list,
  costs,
  costs_of,
};

use exact_lin::NoMemory;
use pddl_terms::formulas::fact_tree;
use pddl_terms::items::{Item, item_at, next, word_ahead, word_bytes};
use pddl_terms::numbers::number_at;
use pddl_terms::sections::section;
use pddl_terms::typed::name_of;
use pddl_terms::words::is_left_out;
use pddl_terms::{CostCurve, PieceDef, TimeCost};
use sexpr_text::{Forms, Token};
use sqlite_items::Items;
use std::alloc::Global;

/// The piece of the list that opens at a place, and holds what stands from a token on.
fn piece_list(forms: &Forms, place: u32, from: usize) -> PieceDef
    ensures { result ≡ piece_list place (content_at forms.now from) }
{
    if is_left_out(word_ahead(forms, from)) {
        return PieceDef::LeftOut(place);
    }
    let second = next(forms, from);
    PieceDef::Piece {
        at: place,
        until: number_at(forms, from),
        from: number_at(forms, second),
        to: number_at(forms, next(forms, second)),
    }
}

/// The pieces that stand from a token on.
fn pieces(alloc: Global, forms: &Forms, from: usize) -> Result<Items<PieceDef>, NoMemory>
    ensures { IfOk result (λ found. found ≡ pieces (content_at forms.now from)) }
{
    let mut out = Items::new(alloc);
    let mut at = from;
    loop {
        match item_at(forms, at) {
            Item::End(_) => return Ok(out),
            Item::Word(_) => at += 1,
            Item::List(token) => {
                out.push(piece_list(forms, token.at, at + 1))?;
                at = token.mate as usize + 1;
            }
        }
    }
}

fn three(forms: &Forms, from: usize) -> CostCurve
    ensures { result ≡ three (content_at forms.now from) }
{
    let second = next(forms, from);
    CostCurve::Three {
        soft: number_at(forms, from),
        hard: number_at(forms, second),
        top: number_at(forms, next(forms, second)),
    }
}

/// How a cost rises, where this stands from a token on.
fn cost_curve(alloc: Global, forms: &Forms, from: usize) -> Result<CostCurve, NoMemory>
    ensures { IfOk result (λ curve. curve ≡ cost_curve (content_at forms.now from)) }
{
    match item_at(forms, from) {
        Item::End(_) => Ok(three(forms, from)),
        Item::Word(_) => Ok(three(forms, from)),
        Item::List(_) => Ok(CostCurve::Pieces(pieces(alloc, forms, from)?)),
    }
}

/// The time cost that opens at a place with a word, behind which its parts stand from a token on.
fn cost_by(
    alloc: Global,
    forms: &Forms,
    left_out: bool,
    place: u32,
    word: Token,
    from: usize,
) -> Result<TimeCost, NoMemory>
    requires { IsWord forms.now.text word }
    ensures { let x = content_at forms.now from in
        IfOk result (λ cost. cost ≡ cost_by left_out place (lexeme forms.now.text word) x) }
{
    if left_out {
        return Ok(TimeCost::LeftOut(place));
    }
    let name = name_of(alloc, forms, word)?;
    let formula = fact_tree(alloc, forms, from)?;
    let curve = cost_curve(alloc, forms, next(forms, from))?;
    Ok(TimeCost::Named(place, name, formula, curve))
}

/// The time cost of the list that opens at a place, and holds what stands from a token on.
fn cost_list(alloc: Global, forms: &Forms, place: u32, from: usize) -> Result<TimeCost, NoMemory>
    ensures { IfOk result (λ cost. cost ≡ cost_list place (content_at forms.now from)) }
{
    match item_at(forms, from) {
        Item::End(_) => Ok(TimeCost::LeftOut(place)),
        Item::List(_) => Ok(TimeCost::LeftOut(place)),
        Item::Word(word) => {
            let left_out = is_left_out(word_bytes(forms, word));
            cost_by(alloc, forms, left_out, place, word, from + 1)
        }
    }
}

/// The time costs that stand from a token on.
fn costs(alloc: Global, forms: &Forms, from: usize) -> Result<Items<TimeCost>, NoMemory>
    ensures { IfOk result (λ found. found ≡ costs (content_at forms.now from)) }
{
    let mut out = Items::new(alloc);
    let mut at = from;
    loop {
        match item_at(forms, at) {
            Item::End(_) => return Ok(out),
            Item::Word(_) => at += 1,
            Item::List(token) => {
                out.push(cost_list(alloc, forms, token.at, at + 1)?)?;
                at = token.mate as usize + 1;
            }
        }
    }
}

/// The time costs of a problem.
pub(crate) fn time_costs(
    alloc: Global,
    forms: &Forms,
    from: usize,
) -> Result<Items<TimeCost>, NoMemory>
    ensures { let x = content_at forms.now from in
        IfOk result (λ found. found ≡ costs_of (section (codes ":time-costs") x)) }
{
    match section(forms, from, b":time-costs") {
        None => Ok(Items::new(alloc)),
        Some(at) => costs(alloc, forms, at),
    }
}
