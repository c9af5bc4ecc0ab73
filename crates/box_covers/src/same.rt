// When two forms are the same.
ghost use Rattle.std.specs.Prelude.{◌≡◌, Bool};
ghost use Rattle.constraint_set.specs.Tidy.{same_coefs};
ghost use Rattle.box_covers.specs.Covers.{same_form, is_variable};
ghost use Rattle.box_covers.specs.Told.{Tells};

use affine_expr::{Combination, LinearFault};
use std::alloc::Global;

fn same_coefs(left: &[i128], right: &[i128]) -> bool
    ensures { result ≡ same_coefs left.now right.now }
{
    left == right
}

/// Whether two forms are the same, where a missing coefficient counts as 0.
pub(crate) fn same_form(
    alloc: Global,
    left: &Combination,
    right: &Combination,
) -> Result<bool, LinearFault>
    ensures { Tells {A = Bool} (same_form left.now right.now) (λ b. b) result }
{
    let wide = left.padded(alloc, right.coefs.len())?;
    let other = right.padded(alloc, left.coefs.len())?;
    Ok(same_coefs(&wide.coefs, &other.coefs) && left.constant == right.constant)
}

/// Whether a form is this variable alone.
pub(crate) fn is_variable(
    alloc: Global,
    place: u32,
    form: &Combination,
) -> Result<bool, LinearFault>
    ensures { Tells {A = Bool} (is_variable place form.now) (λ b. b) result }
{
    let place = place as usize;
    let variable = Combination::of_variable(alloc, place + 1, place)?;
    same_form(alloc, form, &variable)
}
