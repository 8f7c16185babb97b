//! How each snap action touches some tokens: a row of touches for each, filled token by token.

ghost use Rattle.std.specs.Prelude.{◌≡◌, ◌<◌, ◌^◌, ◌∷◌, [], ◌==◌, ◌&&◌, length, OnOk, IfOk};
ghost use Rattle.std.specs.List.{flat_map};
ghost use Rattle.task_types.specs.Related.{IsIndex, is_last, same_touch, row_of, ArePut, IsPutInAll, HaveTouches};

use crate::parts::TaskParts;
use crate::tokens::{Token, Touch};
use crate::touches::index::Index;
use crate::touches::rows::{empty_rows, put_in_row};
use exact_lin::{ActionId, FactId, FluentId, Id, NoMemory, TokenId};
use sqlite_items::Items;
use std::alloc::Global;

fn is_same(one: Touch, other: Touch) -> bool
    ensures { result ≡ same_touch one other }
{
    match (one, other) {
        (Touch::Look, Touch::Look) | (Touch::Mark, Touch::Mark) | (Touch::Bend, Touch::Bend) =>
            true,
        _ => false,
    }
}

fn is_entry(one: &(TokenId, Touch), entry: &(TokenId, Touch)) -> bool
    ensures { result ≡ ((one.now.0 == entry.now.0) && same_touch one.now.1 entry.now.1) }
{
    one.0 == entry.0 && is_same(one.1, entry.1)
}

// Whether the last entry of a row is this one.
fn ends_with(row: &[(TokenId, Touch)], entry: &(TokenId, Touch)) -> bool
    ensures { result ≡ is_last entry.now.0 entry.now.1 row.now }
{
    match row.last() {
        Some(last) => is_entry(last, entry),
        None => false,
    }
}

// Puts an entry at the end of the row of a snap action, once.
fn put_once(
    rows: &mut Vec<Items<(TokenId, Touch)>>,
    entry: &(TokenId, Touch),
    snap: u32,
) -> Result<(), NoMemory>
    ensures { OnOk result
        (ArePut rows.old.items rows.new.items entry.now.0 entry.now.1 (snap ∷ [])) }
{
    let at = snap as usize;
    if at < rows.len() && !ends_with(rows[at].as_slice(), entry) {
        put_in_row(rows, at, (entry.0, entry.1))?;
    }
    Ok(())
}

// Puts an entry at the end of the rows of some snap actions, once each.
fn put_each(
    rows: &mut Vec<Items<(TokenId, Touch)>>,
    entry: &(TokenId, Touch),
    snaps: &[u32],
) -> Result<(), NoMemory>
    ensures { OnOk result (ArePut rows.old.items rows.new.items entry.now.0 entry.now.1 snaps.now) }
{
    for snap in snaps {
        put_once(rows, entry, *snap)?;
    }
    Ok(())
}

// Puts an entry at the end of the rows of the snap actions to which a table leads back from a number, if it does.
fn put_from(
    rows: &mut Vec<Items<(TokenId, Touch)>>,
    entry: &(TokenId, Touch),
    table: &[Items<u32>],
    number: u32,
) -> Result<(), NoMemory>
    ensures { OnOk result
        (ArePut rows.old.items rows.new.items entry.now.0 entry.now.1 (row_of table.now number)) }
{
    if let Some(snaps) = table.get(number as usize) {
        put_each(rows, entry, snaps.as_slice())?;
    }
    Ok(())
}

fn put_from_each<I: Id>(
    rows: &mut Vec<Items<(TokenId, Touch)>>,
    entry: &(TokenId, Touch),
    table: &[Items<u32>],
    ids: &[I],
) -> Result<(), NoMemory>
    ensures { OnOk result
        (ArePut rows.old.items rows.new.items entry.now.0 entry.now.1
        (flat_map (λ id. row_of table.now (I.number_of id)) ids.now)) }
{
    for id in ids {
        put_from(rows, entry, table, id.number())?;
    }
    Ok(())
}

fn put_fact(
    rows: &mut Vec<Items<(TokenId, Touch)>>,
    index: &Index,
    token: TokenId,
    fact: FactId,
) -> Result<(), NoMemory>
    ensures { OnOk result
        (IsPutInAll rows.old.items rows.new.items index.now token (Token.Fact fact)) }
{
    put_from(
        rows,
        &(token, Touch::Look),
        index.looked_facts.as_slice(),
        fact.number(),
    )?;
    put_from(
        rows,
        &(token, Touch::Mark),
        index.changed_facts.as_slice(),
        fact.number(),
    )?;
    Ok(())
}

fn put_fluent(
    rows: &mut Vec<Items<(TokenId, Touch)>>,
    index: &Index,
    token: TokenId,
    fluent: FluentId,
) -> Result<(), NoMemory>
    ensures { OnOk result
        (IsPutInAll rows.old.items rows.new.items index.now token (Token.Fluent fluent)) }
{
    put_from(
        rows,
        &(token, Touch::Look),
        index.looked_fluents.as_slice(),
        fluent.number(),
    )?;
    put_from(
        rows,
        &(token, Touch::Mark),
        index.written_fluents.as_slice(),
        fluent.number(),
    )?;
    put_from(
        rows,
        &(token, Touch::Bend),
        index.bent_fluents.as_slice(),
        fluent.number(),
    )?;
    Ok(())
}

// The starts and ends of the action look at the group of its comparison.
fn put_comparison(
    rows: &mut Vec<Items<(TokenId, Touch)>>,
    index: &Index,
    token: TokenId,
    action: ActionId,
    fluents: &Items<FluentId>,
) -> Result<(), NoMemory>
    ensures { OnOk result
        (IsPutInAll rows.old.items rows.new.items index.now token (Token.Comparison action fluents.now)) }
{
    let changed = fluents.as_slice();
    put_from(
        rows,
        &(token, Touch::Look),
        index.own_actions.as_slice(),
        action.number(),
    )?;
    put_from_each(
        rows,
        &(token, Touch::Mark),
        index.written_fluents.as_slice(),
        changed,
    )?;
    put_from_each(
        rows,
        &(token, Touch::Bend),
        index.bent_fluents.as_slice(),
        changed,
    )?;
    Ok(())
}

fn put_formulas(
    rows: &mut Vec<Items<(TokenId, Touch)>>,
    index: &Index,
    token: TokenId,
    facts: &Items<FactId>,
) -> Result<(), NoMemory>
    ensures { OnOk result
        (IsPutInAll rows.old.items rows.new.items index.now token (Token.Formulas facts.now)) }
{
    let changed = index.changed_facts.as_slice();
    put_from_each(rows, &(token, Touch::Mark), changed, facts.as_slice())?;
    Ok(())
}

fn put_action(
    rows: &mut Vec<Items<(TokenId, Touch)>>,
    index: &Index,
    token: TokenId,
    action: ActionId,
) -> Result<(), NoMemory>
    ensures { OnOk result
        (IsPutInAll rows.old.items rows.new.items index.now token (Token.Action action)) }
{
    put_from(
        rows,
        &(token, Touch::Mark),
        index.own_actions.as_slice(),
        action.number(),
    )?;
    Ok(())
}

// Puts the touches of one token into all rows.
fn put_token(
    rows: &mut Vec<Items<(TokenId, Touch)>>,
    index: &Index,
    id: TokenId,
    token: &Token,
) -> Result<(), NoMemory>
    ensures { OnOk result (IsPutInAll rows.old.items rows.new.items index.now id token.now) }
{
    match token {
        Token::Fact(fact) => put_fact(rows, index, id, *fact),
        Token::Fluent(fluent) => put_fluent(rows, index, id, *fluent),
        Token::Comparison(action, fluents) => put_comparison(rows, index, id, *action, fluents),
        Token::Formulas(facts) => put_formulas(rows, index, id, facts),
        Token::Action(action) => put_action(rows, index, id, *action),
    }
}

/// The touches of each snap action on some tokens, each row in the order of the tokens.
pub fn filled_rows(
    alloc: Global,
    parts: &TaskParts,
    index: &Index,
    tokens: &[Token],
) -> Result<Vec<Items<(TokenId, Touch)>>, NoMemory>
    requires index { IsIndex parts.now index.now }
    requires few { length tokens.now < 2 ^ 32 }
    ensures { IfOk result (λ rows. HaveTouches parts.now rows.items tokens.now) }
{
    let mut rows = empty_rows(alloc, parts.snaps.len())?;
    for place in 0..tokens.len() {
        put_token(&mut rows, index, TokenId::of(place as u32), &tokens[place])?;
    }
    Ok(rows)
}
