//! Keys of timed literals: bytes that tell a moment, a fact, and whether it holds.

ghost use Rattle.std.specs.Prelude.{◌≡◌, ◌++◌, ◌∷◌, [], OnOk, IfOk};
ghost use Rattle.std.specs.List.{flat_map};
ghost use Rattle.pddl_forms.specs.TimedLiterals.{term_bytes, fact_words};
ghost use Rattle.pddl_forms.specs.Keys.{encoded, number_key, sign_of, moment_key, truth_key, key};

use exact_lin::{Fraction, NoMemory};
use pddl_terms::{Atom, Term};
use std::alloc::Global;

#[tactic(auto, using(crate::proofs::KeysApart::encodings))]
fn push_word(out: &mut Vec<u8>, word: &[u8]) -> Result<(), NoMemory>
    ensures { OnOk result (out.new.items ≡ out.old.items ++ encoded word.now) }
{
    let mut left = word;
    while let Some((byte, more)) = left.split_first() {
        out.push(1)?;
        out.push(*byte)?;
        left = more;
    }
    out.push(0)?;
    Ok(())
}

fn term_bytes(term: &Term) -> &[u8]
    ensures { result.now ≡ term_bytes term.now }
{
    match term {
        Term::Object(name) => name.bytes.as_slice(),
        Term::Variable(name) => name.bytes.as_slice(),
    }
}

#[tactic(auto, using(crate::proofs::KeysApart::encodings))]
fn push_fact(out: &mut Vec<u8>, fact: &Atom) -> Result<(), NoMemory>
    ensures { OnOk result
        (out.new.items ≡ out.old.items ++ flat_map encoded (fact_words fact.now)) }
{
    push_word(out, fact.name.bytes.as_slice())?;
    for term in fact.terms.as_slice() {
        push_word(out, term_bytes(term))?;
    }
    Ok(())
}

#[tactic(auto, using(crate::proofs::KeysApart::encodings))]
fn push_number(out: &mut Vec<u8>, number: u128) -> Result<(), NoMemory>
    ensures { OnOk result (out.new.items ≡ out.old.items ++ number_key number) }
{
    let mut left = number;
    while left > 0 {
        out.push(1)?;
        out.push((left % 256) as u8)?;
        left /= 256;
    }
    out.push(0)?;
    Ok(())
}

fn sign_of(number: i128) -> u8
    ensures { result ≡ sign_of number }
{
    if number < 0 { 1 } else { 0 }
}

#[tactic(auto, unfolding(crate::specs::Keys::moment_key))]
fn push_moment(out: &mut Vec<u8>, moment: Fraction) -> Result<(), NoMemory>
    ensures { OnOk result (out.new.items ≡ out.old.items ++ moment_key moment) }
{
    out.push(sign_of(moment.num()))?;
    push_number(out, moment.num().unsigned_abs())?;
    push_number(out, moment.den().unsigned_abs())?;
    Ok(())
}

fn truth_key(holds: bool) -> u8
    ensures { result ≡ truth_key holds }
{
    if holds { 1 } else { 0 }
}

/// The key of a timed literal.
#[tactic(auto, unfolding(crate::specs::Keys::key))]
pub(crate) fn key(
    alloc: Global,
    holds: bool,
    moment: Fraction,
    fact: &Atom,
) -> Result<Vec<u8>, NoMemory>
    ensures { IfOk result (λ k. k.items ≡ key holds moment fact.now) }
{
    let mut out = Vec::new(alloc);
    out.push(truth_key(holds))?;
    push_moment(&mut out, moment)?;
    push_fact(&mut out, fact)?;
    Ok(out)
}
