//! A number and a product, summed exactly: there is none only where the sum itself doesn't fit.
#![tactic(auto)]

ghost use Rattle.std.specs.Prelude.{◌≡◌, ◌*◌, ◌^◌, ◌<◌, pos, ◌+ℤ◌, ◌-ℤ◌, ◌*ℤ◌, int_lt, unsigned_abs, SomeIff};
ghost use Rattle.num_row.specs.Ints.{narrowed};
ghost use Rattle.exact_sums.specs.Signs.{is_negative_product};

/// Whether the factors have different signs, where 0 counts as positive.
fn is_negative_product(left: i128, right: i128) -> bool
    ensures { result ≡ is_negative_product left right }
{
    (left < 0) != (right < 0)
}

fn size_of_product(left: i128, right: i128) -> Option<u128>
    ensures { SomeIff result (unsigned_abs left * unsigned_abs right < 2 ^ 128) (unsigned_abs left * unsigned_abs right) }
{
    left.unsigned_abs().checked_mul(right.unsigned_abs())
}

#[tactic(auto, using(num_row::proofs::Narrow::narrowed_is))]
fn plus(base: i128, size: u128) -> Option<i128>
    ensures { result ≡ narrowed (base +ℤ pos size) }
{
    base.checked_add_unsigned(size)
}

#[tactic(auto, using(num_row::proofs::Narrow::narrowed_is))]
fn minus(base: i128, size: u128) -> Option<i128>
    ensures { result ≡ narrowed (base -ℤ pos size) }
{
    base.checked_sub_unsigned(size)
}

/// A number and a product of two, where the sum fits. The product may be wider than the sum: it is the sum alone that counts.
#[tactic(auto, using(crate::proofs::Products::too_large, crate::proofs::Products::positive, crate::proofs::Products::negative))]
pub fn add_product(base: i128, left: i128, right: i128) -> Option<i128>
    ensures { result ≡ narrowed (base +ℤ left *ℤ right) }
{
    let Some(size) = size_of_product(left, right) else {
        return None;
    };
    if is_negative_product(left, right) {
        minus(base, size)
    } else {
        plus(base, size)
    }
}
