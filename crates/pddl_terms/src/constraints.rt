//! Constraints of a text.

ghost use Rattle.std.specs.Prelude.{◌≡◌, IfOk};
ghost use Rattle.pddl_terms.specs.Content.{content_at, behind};
ghost use Rattle.pddl_terms.specs.Constraints.{
  trail_by,
  trail_of,
  trail_tree,
  preference,
  con_by,
  cons,
  con_tree,
};

use crate::formulas::fact_tree;
use crate::heads::{ConHead, TrailHead, con_head};
use crate::items::{Beginning, Item, beginning_at, item_at, next, word_bytes};
use crate::numbers::number_at;
use crate::trees::{ConForm, Trajectory};
use crate::typed::{name_of, variables};
use exact_lin::NoMemory;
use sexpr_text::Forms;
use sqlite_items::{Boxed, Items};
use std::alloc::Global;

/// A trajectory constraint that opens at a place, whose parts stand from a token on.
fn trail_by(
    alloc: Global,
    forms: &Forms,
    head: TrailHead,
    place: u32,
    from: usize,
) -> Result<Trajectory, NoMemory>
    ensures { IfOk result (λ trail. trail ≡ trail_by head place (content_at forms.now from)) }
{
    let second = next(forms, from);
    match head {
        TrailHead::Always => Ok(Trajectory::Always(place, fact_tree(alloc, forms, from)?)),
        TrailHead::Sometime => Ok(Trajectory::Sometime(place, fact_tree(alloc, forms, from)?)),
        TrailHead::AtMostOnce => Ok(Trajectory::AtMostOnce(place, fact_tree(alloc, forms, from)?)),
        TrailHead::AtEnd => Ok(Trajectory::AtEnd(place, fact_tree(alloc, forms, second)?)),
        TrailHead::Within => {
            let limit = number_at(forms, from);
            Ok(Trajectory::Within(place, limit, fact_tree(alloc, forms, second)?))
        }
        TrailHead::SometimeAfter => {
            let first = fact_tree(alloc, forms, from)?;
            Ok(Trajectory::SometimeAfter(place, first, fact_tree(alloc, forms, second)?))
        }
        TrailHead::SometimeBefore => {
            let first = fact_tree(alloc, forms, from)?;
            Ok(Trajectory::SometimeBefore(place, first, fact_tree(alloc, forms, second)?))
        }
    }
}

fn trail_of(
    alloc: Global,
    forms: &Forms,
    head: ConHead,
    place: u32,
    from: usize,
) -> Result<Trajectory, NoMemory>
    ensures { IfOk result (λ trail. trail ≡ trail_of head place (content_at forms.now from)) }
{
    match head {
        ConHead::Trail(trail) => trail_by(alloc, forms, trail, place, from),
        ConHead::LeftOut
        | ConHead::And
        | ConHead::Forall
        | ConHead::Preference
        | ConHead::Unknown => Ok(Trajectory::LeftOut(place)),
    }
}

/// The trajectory constraint that stands at a token.
fn trail_tree(alloc: Global, forms: &Forms, at: usize) -> Result<Trajectory, NoMemory>
    ensures { IfOk result (λ trail. trail ≡ trail_tree (content_at forms.now at)) }
{
    match beginning_at(forms, at) {
        Beginning::NoList => Ok(Trajectory::LeftOut(0)),
        Beginning::NoWord(place) => Ok(Trajectory::LeftOut(place)),
        Beginning::Word(place, word, from) => {
            let head = con_head(word_bytes(forms, word));
            trail_of(alloc, forms, head, place, from)
        }
    }
}

/// A preference that opens at a place, behind whose word a name may stand, and then its trajectory constraint.
fn preference(alloc: Global, forms: &Forms, place: u32, at: usize) -> Result<ConForm, NoMemory>
    ensures { IfOk result (λ form. form ≡ preference place (content_at forms.now at)) }
{
    match item_at(forms, at) {
        Item::Word(token) => {
            let name = name_of(alloc, forms, token)?;
            Ok(ConForm::Preference(place, Some(name), trail_tree(alloc, forms, at + 1)?))
        }
        Item::End(_) => Ok(ConForm::Preference(place, None, Trajectory::LeftOut(0))),
        Item::List(_) => Ok(ConForm::Preference(place, None, trail_tree(alloc, forms, at)?)),
    }
}

/// The constraint that stands at a token.
#[cycle(constraints)]
pub fn con_tree(alloc: Global, forms: &Forms, at: usize) -> Result<ConForm, NoMemory>
    ensures { IfOk result (λ form. form ≡ con_tree (content_at forms.now at)) }
{
    match beginning_at(forms, at) {
        Beginning::NoList => Ok(ConForm::Hard(Trajectory::LeftOut(0))),
        Beginning::NoWord(place) => Ok(ConForm::Hard(Trajectory::LeftOut(place))),
        Beginning::Word(place, word, from) => {
            let head = con_head(word_bytes(forms, word));
            con_by(alloc, forms, head, place, from)
        }
    }
}

/// The constraint that opens at a place, behind whose word its parts stand from a token on.
#[cycle(constraints)]
fn con_by(
    alloc: Global,
    forms: &Forms,
    head: ConHead,
    place: u32,
    from: usize,
) -> Result<ConForm, NoMemory>
    ensures { IfOk result (λ form. form ≡ con_by head place (cons (content_at forms.now from)) (con_tree (behind (content_at forms.now from))) (content_at forms.now from)) }
{
    match head {
        ConHead::And => Ok(ConForm::And(place, cons(alloc, forms, from)?)),
        ConHead::Forall => {
            let body = con_tree(alloc, forms, next(forms, from))?;
            let body = Boxed::new(alloc, body)?;
            Ok(ConForm::Forall(place, variables(alloc, forms, from)?, body))
        }
        ConHead::Preference => preference(alloc, forms, place, from),
        ConHead::Trail(trail) => Ok(ConForm::Hard(trail_by(alloc, forms, trail, place, from)?)),
        ConHead::LeftOut | ConHead::Unknown => Ok(ConForm::Hard(Trajectory::LeftOut(place))),
    }
}

/// The constraints that stand from a token on.
#[cycle(constraints)]
fn cons(alloc: Global, forms: &Forms, from: usize) -> Result<Items<ConForm>, NoMemory>
    ensures { IfOk result (λ found. found ≡ cons (content_at forms.now from)) }
{
    let mut out = Items::new(alloc);
    let mut at = from;
    loop {
        match item_at(forms, at) {
            Item::End(_) => return Ok(out),
            Item::Word(_) => at += 1,
            Item::List(token) => {
                out.push(con_tree(alloc, forms, at)?)?;
                at = token.mate as usize + 1;
            }
        }
    }
}
