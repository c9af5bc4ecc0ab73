//! Numbers and a multiple of others.

ghost use Rattle.std.specs.Prelude.{◌≡◌, length};
ghost use Rattle.projection.specs.Answers.{Meets};
ghost use Rattle.access_region.specs.Candidates.{plus_multiple};

use exact_sums::add_product;
use projection::ReachFault;
use std::alloc::Global;

/// `base + factor * others`, number by number: `Wide` where a sum isn't in 128 bits.
pub(crate) fn plus_multiple(
    alloc: Global,
    base: &[i128],
    factor: i128,
    others: &[i128],
) -> Result<Vec<i128>, ReachFault>
    requires { length base.now ≡ length others.now }
    ensures { Meets (plus_multiple base.now factor others.now) (λ v. v.items) result }
{
    let mut sums = Vec::with_capacity(alloc, base.len())?;
    for i in 0..base.len() {
        let Some(sum) = add_product(base[i], factor, others[i]) else {
            return Err(ReachFault::Wide);
        };
        sums.push(sum)?;
    }
    Ok(sums)
}
