// Memories as one slow list, and back.
ghost use Rattle.std.specs.Prelude.{◌≡◌, ◌≤◌, length, IfOk};
ghost use Rattle.direct_meaning.specs.Memory.{slow_list};
ghost use Rattle.run_laws.specs.StaysFitting.{refilled};

use affine_ast::Cells;
use std::alloc::{AllocError, Global};

/// The cells of all memrefs, a memref behind the other.
pub fn flat(alloc: Global, memrefs: &[Cells]) -> Result<Vec<i64>, AllocError>
    ensures { IfOk result (λ slow. slow.items ≡ slow_list memrefs.now) }
{
    let mut slow = Vec::new(alloc);
    for cells in memrefs {
        slow.extend_from_slice(cells.values.as_slice())?;
    }
    Ok(slow)
}

/// Equal memrefs.
pub fn copies(alloc: Global, memrefs: &[Cells]) -> Result<Vec<Cells>, AllocError>
    ensures { IfOk result (λ copies. copies.items ≡ memrefs.now) }
{
    let mut copies = Vec::new(alloc);
    for cells in memrefs {
        copies.push(cells.copy(alloc)?)?;
    }
    Ok(copies)
}

/// Gives the cells of a memref these numbers.
fn fill(cells: &mut Cells, values: &[i64])
    requires { length cells.old.values ≡ length values.now }
    ensures { cells.new.values ≡ values.now }
{
    for (place, value) in values.iter().enumerate() {
        cells.values.set(place, *value);
    }
}

/// Gives the cells of memrefs the numbers of a slow list, in order.
pub fn refill(memrefs: &mut Vec<Cells>, slow: &[i64])
    requires { length (slow_list memrefs.old.items) ≤ length slow.now }
    ensures { memrefs.new.items ≡ refilled memrefs.old.items slow.now }
{
    let mut rest = slow;
    for place in 0..memrefs.len() {
        let cells = &mut memrefs[place];
        let (values, behind) = rest.split_at(cells.values.len());
        fill(cells, values);
        rest = behind;
    }
}
