// The variables that subscripts are.
ghost use Rattle.std.specs.Prelude.{◌≡◌, ℕ, ◌+◌, ◌<◌, ◌^◌, Option, List};
ghost use Rattle.std.specs.Option.{option_map};
ghost use Rattle.box_covers.specs.Covers.{variable_from, variables_of, has_number, are_distinct};
ghost use Rattle.box_covers.specs.Told.{Tells};

use crate::same::is_variable;
use affine_expr::{Combination, LinearFault};
use std::alloc::Global;

/// The first of so many variables, from one on, that a form is.
#[tactic(auto, using(crate::proofs::Listed::goes_past))]
fn variable_from(
    alloc: Global,
    count: u32,
    first: u32,
    form: &Combination,
) -> Result<Option<u32>, LinearFault>
    requires { first + count < 2 ^ 32 }
    ensures { Tells {A = Option ℕ} (variable_from count first form.now) (λ found. found) result }
{
    for number in 0..count {
        let place = first + number;
        if is_variable(alloc, place, form)? {
            return Ok(Some(place));
        }
    }
    Ok(None)
}

/// The variables that subscripts are, and none where one is no variable.
pub(crate) fn variables_of(
    alloc: Global,
    count: u32,
    first: u32,
    forms: &[Combination],
) -> Result<Option<Vec<u32>>, LinearFault>
    requires { first + count < 2 ^ 32 }
    ensures { Tells {A = Option (List ℕ)} (variables_of count first forms.now) (option_map (λ places. places.items)) result }
{
    let mut places = Vec::new(alloc);
    for form in forms {
        let Some(place) = variable_from(alloc, count, first, form)? else {
            return Ok(None);
        };
        places.push(place)?;
    }
    Ok(Some(places))
}

pub(crate) fn has_number(number: u32, numbers: &[u32]) -> bool
    ensures { result ≡ has_number number numbers.now }
{
    for other in numbers {
        if number == *other {
            return true;
        }
    }
    false
}

/// Whether no number stands twice.
pub(crate) fn are_distinct(numbers: &[u32]) -> bool
    ensures { result ≡ are_distinct numbers.now }
{
    for (place, number) in numbers.iter().enumerate() {
        if has_number(*number, &numbers[place + 1..]) {
            return false;
        }
    }
    true
}
