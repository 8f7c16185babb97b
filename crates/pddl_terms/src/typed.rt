//! Names, terms, atoms and typed lists of a text.

ghost use Rattle.std.specs.Prelude.{◌≡◌, ◌++◌, [], IfOk, OnOk};
ghost use Rattle.pddl_terms.specs.Content.{lexeme, content_at, behind};
ghost use Rattle.pddl_terms.specs.Items.{IsWord};
ghost use Rattle.pddl_terms.specs.Typed.{name_of, term_of, terms, atom_of, bare_atom, type_of, group_of, groups, variables};

use crate::grammar::Listed;
use crate::items::{Item, item_at, next, word_bytes};
use crate::shape::is_listed;
use crate::trees::{Atom, Group, Name, Term, TypeName};
use crate::words::is_variable;
use exact_lin::NoMemory;
use sexpr_text::{Forms, Token};
use sqlite_items::Items;
use std::alloc::Global;

/// The name that a word spells.
pub fn name_of(alloc: Global, forms: &Forms, word: Token) -> Result<Name, NoMemory>
    requires { IsWord forms.now.text word }
    ensures { IfOk result (λ name. name ≡ name_of (lexeme forms.now.text word)) }
{
    let bytes = Items::from_vec(word_bytes(forms, word).to_ascii_lowercase(alloc)?);
    Ok(Name { at: word.at, bytes })
}

fn term_of(alloc: Global, forms: &Forms, word: Token) -> Result<Term, NoMemory>
    requires { IsWord forms.now.text word }
    ensures { IfOk result (λ term. term ≡ term_of (lexeme forms.now.text word)) }
{
    let name = name_of(alloc, forms, word)?;
    if is_variable(word.kind) {
        Ok(Term::Variable(name))
    } else {
        Ok(Term::Object(name))
    }
}

/// The terms that stand from a token on.
pub fn terms(alloc: Global, forms: &Forms, from: usize) -> Result<Items<Term>, NoMemory>
    ensures { IfOk result (λ found. found ≡ terms (content_at forms.now from)) }
{
    let mut out = Items::new(alloc);
    let mut at = from;
    loop {
        match item_at(forms, at) {
            Item::End(_) => return Ok(out),
            Item::Word(token) => {
                out.push(term_of(alloc, forms, token)?)?;
                at += 1;
            }
            Item::List(token) => at = token.mate as usize + 1,
        }
    }
}

/// The atom that opens at a place with a name, behind which its terms stand from a token on.
pub fn atom_of(
    alloc: Global,
    forms: &Forms,
    place: u32,
    word: Token,
    from: usize,
) -> Result<Atom, NoMemory>
    requires { IsWord forms.now.text word }
    ensures { IfOk result (λ atom. atom ≡ atom_of place (lexeme forms.now.text word) (content_at forms.now from)) }
{
    let name = name_of(alloc, forms, word)?;
    let terms = terms(alloc, forms, from)?;
    Ok(Atom {
        at: place,
        name,
        terms,
    })
}

/// The fluent without terms that a name alone is.
pub fn bare_atom(alloc: Global, forms: &Forms, word: Token) -> Result<Atom, NoMemory>
    requires { IsWord forms.now.text word }
    ensures { IfOk result (λ atom. atom ≡ bare_atom (lexeme forms.now.text word)) }
{
    let name = name_of(alloc, forms, word)?;
    let terms = Items::new(alloc);
    Ok(Atom {
        at: word.at,
        name,
        terms,
    })
}

/// The type that stands at a token.
fn type_of(alloc: Global, forms: &Forms, at: usize) -> Result<TypeName, NoMemory>
    ensures { IfOk result (λ of. of ≡ type_of (content_at forms.now at)) }
{
    match item_at(forms, at) {
        Item::End(_) => Ok(TypeName::Object),
        Item::List(token) => Ok(TypeName::LeftOut(token.at)),
        Item::Word(token) => Ok(TypeName::Named(name_of(alloc, forms, token)?)),
    }
}

/// Puts out names of one type, if there are any.
fn push_group(out: &mut Items<Group>, names: Items<Name>, of: TypeName) -> Result<(), NoMemory>
    ensures { OnOk result (out.new ≡ out.old ++ group_of names of) }
{
    if !names.is_empty() {
        out.push(Group { names, of })?;
    }
    Ok(())
}

/// The groups of the typed list that stands from a token on.
pub fn groups(
    alloc: Global,
    forms: &Forms,
    of: Listed,
    from: usize,
) -> Result<Items<Group>, NoMemory>
    ensures { IfOk result (λ found. found ≡ groups of [] (content_at forms.now from)) }
{
    let mut out = Items::new(alloc);
    let mut before = Items::new(alloc);
    let mut at = from;
    loop {
        match item_at(forms, at) {
            Item::End(_) => {
                push_group(&mut out, before, TypeName::Object)?;
                return Ok(out);
            }
            Item::List(token) => at = token.mate as usize + 1,
            Item::Word(token) => {
                at += 1;
                if is_listed(of, token.kind) {
                    before.push(name_of(alloc, forms, token)?)?;
                } else {
                    let type_name = type_of(alloc, forms, at)?;
                    push_group(&mut out, before, type_name)?;
                    before = Items::new(alloc);
                    at = next(forms, at);
                }
            }
        }
    }
}

/// The groups of a list of variables that stands at a token.
pub fn variables(alloc: Global, forms: &Forms, at: usize) -> Result<Items<Group>, NoMemory>
    ensures { IfOk result (λ found. found ≡ variables (content_at forms.now at)) }
{
    match item_at(forms, at) {
        Item::End(_) => Ok(Items::new(alloc)),
        Item::Word(_) => Ok(Items::new(alloc)),
        Item::List(_) => groups(alloc, forms, Listed::Variables, at + 1),
    }
}
