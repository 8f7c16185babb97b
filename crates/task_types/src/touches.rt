//! How each snap action touches the tokens of a task: the tokens in their order, an index that leads back to the snap
//! actions, and a row of touches for each of them.

ghost use Rattle.std.specs.Prelude.{◌≡◌, map, IfOk};
ghost use Rattle.task_types.specs.Touch.{touches_of};
ghost use Rattle.task_types.specs.WellMade.{IsWellMade};

mod expressions;
mod index;
mod relations;
mod rows;
mod tokens;
mod touch_rows;
mod tracked;

use crate::parts::TaskParts;
use crate::tokens::Touch;
use crate::touches::index::index_of;
use crate::touches::tokens::tokens_of;
use crate::touches::touch_rows::filled_rows;
use exact_lin::{NoMemory, TokenId};
use sqlite_items::Items;
use std::alloc::Global;

/// The touches of each snap action of a task, token by token in the order of the tokens.
pub fn touch_table(
    alloc: Global,
    parts: &TaskParts,
) -> Result<Items<Items<(TokenId, Touch)>>, NoMemory>
    requires { IsWellMade parts.now }
    ensures { IfOk result (λ table. table ≡ map (touches_of parts.now) parts.now.snaps) }
{
    let index = index_of(alloc, parts)?;
    let list = tokens_of(alloc, parts)?;
    let rows = filled_rows(alloc, parts, &index, list.as_slice())?;
    Ok(Items::from_vec(rows))
}
