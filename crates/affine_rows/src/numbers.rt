// Exact arithmetic.
use num_row::{ceil_div, checked_combine, floor_div, gcd, read_decimal, write_decimal};
use std::test::Fail;

#[test]
fn divisors_and_quotients(rt: HostRuntime) {
    assert_eq!(rt; gcd(0, 0), 0);
    assert_eq!(rt; gcd(0, 7), 7);
    assert_eq!(rt; gcd(12, 18), 6);
    assert_eq!(rt; gcd(u128::MAX, u128::MAX - 1), 1);
    assert_eq!(rt; floor_div(-7, 2), -4);
    assert_eq!(rt; ceil_div(-7, 2), -3);
    assert_eq!(rt; ceil_div(7, 2), 4);
    assert_eq!(rt; floor_div(i128::MIN, 1), i128::MIN);
    assert_eq!(rt; ceil_div(i128::MAX, 1), i128::MAX);
    assert_eq!(rt; checked_combine(2, 3, 4, 5), Some(26));
    assert_eq!(rt; checked_combine(i128::MAX, 1, 1, 1), None);
    assert_eq!(rt; checked_combine(i128::MIN, -1, -1, 1), None);
}

#[test]
fn decimal_texts(rt: HostRuntime) -> Result<(), Fail> {
    for refused in [b"".as_slice(), b"-", b"+5", b"--5", b"1 ", b"\xff"] {
        assert_eq!(rt; read_decimal(refused), None);
    }
    assert_eq!(rt; read_decimal(b"-0"), Some(0));
    assert_eq!(rt; read_decimal(b"007"), Some(7));
    let least = b"-170141183460469231731687303715884105728";
    assert_eq!(rt; read_decimal(least), Some(i128::MIN));
    assert_eq!(rt;
        read_decimal(b"170141183460469231731687303715884105728"),
        None
    );
    let mut out = Vec::new(rt.alloc());
    write_decimal(rt.alloc(), i128::MIN, &mut out)?;
    write_decimal(rt.alloc(), 0, &mut out)?;
    assert_eq!(rt;
        out.as_slice(),
        b"-1701411834604692317316873037158841057280".as_slice()
    );
    Ok(())
}
