// Integers of any size.
use big_integer::Integer;
use std::alloc::{AllocError, Global};
use std::test::Fail;

fn are_equal(alloc: Global, left: &Integer, right: &Integer) -> Result<bool, AllocError> {
    let difference = left.difference(alloc, right)?;
    Ok(!difference.is_positive() && !difference.negated(alloc)?.is_positive())
}

#[test]
fn integers_past_128_bits(rt: HostRuntime) -> Result<(), Fail> {
    let alloc = rt.alloc();
    let greatest = Integer::of(170141183460469231731687303715884105727);
    let square = greatest.product(alloc, &greatest)?;
    let opposite = square.negated(alloc)?;
    assert!(rt; square.is_positive() && !opposite.is_positive());
    // greatest is 1 modulo 3, so its square is too
    let three = Integer::of(3);
    let third = square.floor_quotient(alloc, &three)?;
    let rest = square.floor_remainder(alloc, &three)?;
    assert!(rt; are_equal(alloc, &rest, &Integer::of(1))?);
    let product = third.product(alloc, &three)?;
    assert!(rt; are_equal(alloc, &product.sum(alloc, &rest)?, &square)?);
    // down, below 0 too
    assert!(rt;
        are_equal(
            alloc,
            &opposite.floor_remainder(alloc, &three)?,
            &Integer::of(2)
        )?
    );
    assert!(rt; !are_equal(alloc, &square, &greatest)?);
    Ok(())
}
