// Lists with no room to spare.
ghost use Rattle.std.specs.Prelude.{◌≡◌, IfOk};

use sqlite_items::Items;
use std::alloc::{AllocError, Global};

/// How long a list may be that moves to a place of its own size.
const LONGEST: usize = 64;

/// The same items in a place of just their size, where there are few of them. A list that grows has room for four items at
/// first, and then for at most twice as many as it holds.
pub fn fitted<T: Drop>(alloc: Global, items: Items<T>) -> Result<Items<T>, AllocError>
    ensures { IfOk result (λ fitted. fitted ≡ items) }
{
    if items.len() > LONGEST {
        return Ok(items);
    }
    let mut fitted = Items::from_vec(Vec::with_capacity(alloc, items.len())?);
    fitted.append(items)?;
    Ok(fitted)
}
