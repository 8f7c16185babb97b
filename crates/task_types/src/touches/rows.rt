//! Rows of items: empty ones, and an item put at the end of a row.

ghost use Rattle.std.specs.Prelude.{◌≡◌, ◌<◌, ◌++◌, [], ◌∷◌, slice_index_or, slice_set, replicate, OnOk, IfOk, vec_len};

use exact_lin::NoMemory;
use sqlite_items::Items;
use std::alloc::Global;

/// Empty rows.
pub fn empty_rows<T: Drop>(alloc: Global, count: usize) -> Result<Vec<Items<T>>, NoMemory>
    ensures { IfOk result (λ rows. rows.items ≡ replicate count []) }
{
    let mut rows = Vec::new(alloc);
    for _ in 0..count {
        rows.push(Items::new(alloc))?;
    }
    Ok(rows)
}

/// Puts an item at the end of a row.
pub fn put_in_row<T: Drop>(rows: &mut Vec<Items<T>>, at: usize, item: T) -> Result<(), NoMemory>
    requires { at < vec_len rows.old }
    ensures { OnOk result
        (rows.new.items ≡ slice_set rows.old.items at (slice_index_or rows.old.items at [] ++ item ∷ [])) }
{
    let row = &mut rows[at];
    row.push(item)?;
    Ok(())
}
