// Integer operations.
ghost use Rattle.std.specs.Prelude.{◌<◌, pos, negsuc};
ghost use Rattle.int_ops.specs.Wrapped.{IsWidth, InRange};

use int_ops::{CastKind, Op, Width, apply, cast};
use std::process::Abort;

const ALL: [Op; 16] = [
    Op::Add,
    Op::Sub,
    Op::Mul,
    Op::DivS,
    Op::RemS,
    Op::DivU,
    Op::RemU,
    Op::FloorDivS,
    Op::CeilDivS,
    Op::And,
    Op::Or,
    Op::Xor,
    Op::MaxS,
    Op::MinS,
    Op::MaxU,
    Op::MinU,
];

/// A quotient that is rounded down where `down`, else up; none at the divisor 0.
fn rounded(a: i64, b: i64, down: bool) -> Option<i64> {
    let quotient = a.checked_div(b)?;
    let rest = a.wrapping_sub(b.wrapping_mul(quotient));
    let is_below = (rest < 0) != (b < 0);
    Some(if rest == 0 || is_below != down {
        quotient
    } else if down {
        quotient.wrapping_sub(1)
    } else {
        quotient.wrapping_add(1)
    })
}

/// The exact value at 4 bits, before it is reduced; none where it is the fault.
fn exact(op: Op, a: i64, b: i64) -> Option<i64> {
    let left = a.rem_euclid(16);
    let right = b.rem_euclid(16);
    if a == -8 && b == -1 && matches!(op, Op::DivS | Op::FloorDivS | Op::CeilDivS) {
        return None;
    }
    match op {
        Op::Add => Some(a.wrapping_add(b)),
        Op::Sub => Some(a.wrapping_sub(b)),
        Op::Mul => Some(a.wrapping_mul(b)),
        Op::DivS => a.checked_div(b),
        Op::RemS => a.checked_rem(b),
        Op::DivU => left.checked_div(right),
        Op::RemU => left.checked_rem(right),
        Op::FloorDivS => rounded(a, b, true),
        Op::CeilDivS => rounded(a, b, false),
        Op::And => Some(left & right),
        Op::Or => Some(left | right),
        Op::Xor => Some(left ^ right),
        Op::MaxS => Some(a.max(b)),
        Op::MinS => Some(a.min(b)),
        Op::MaxU => Some(left.max(right)),
        Op::MinU => Some(left.min(right)),
    }
}

/// The number of 4 bits that is equal modulo 16.
fn reduced(value: i64) -> i64 {
    let rest = value.rem_euclid(16);
    if rest > 7 {
        rest.wrapping_sub(16)
    } else {
        rest
    }
}

/// One pair under one operation, by both calls; 1 where it is the fault.
fn check_pair(rt: &impl Abort, op: Op, a: i64, b: i64) -> u32
    requires left { InRange 4 a }
    requires right { InRange 4 b }
{
    let wanted = exact(op, a, b).map(reduced);
    assert!(rt; Width::<4>::apply(op, a, b).ok() == wanted);
    assert!(rt; apply(op, 4, a, b).ok() == wanted);
    if wanted.is_none() { 1 } else { 0 }
}

#[test]
fn all_pairs_of_four_bits(rt: HostRuntime) {
    let mut faults = 0u32;
    for op in ALL {
        for left in 0..16u32 {
            for right in 0..16u32 {
                let a = left as i64 - 8;
                let b = right as i64 - 8;
                faults = faults.wrapping_add(check_pair(&rt, op, a, b));
            }
        }
    }
    assert_eq!(rt; faults, 3 * 17 + 3 * 16);
}

/// The operations at the least and the greatest number of a width.
fn check_edges(rt: &impl Abort, bits: u32, least: i64, greatest: i64)
    requires width { IsWidth bits }
    requires least { InRange bits least }
    requires greatest { InRange bits greatest }
    requires one { InRange bits (pos 1) }
    requires minus_one { InRange bits (negsuc 0) }
{
    assert!(rt; apply(Op::Add, bits, greatest, 1).ok() == Some(least));
    assert!(rt; apply(Op::Sub, bits, least, 1).ok() == Some(greatest));
    assert!(rt; apply(Op::Mul, bits, least, -1).ok() == Some(least));
    assert!(rt; apply(Op::DivS, bits, least, -1).is_err());
    assert!(rt; apply(Op::FloorDivS, bits, least, -1).is_err());
    assert!(rt; apply(Op::RemS, bits, least, -1).ok() == Some(0));
    assert!(rt; apply(Op::DivU, bits, -1, 2 - 1).ok() == Some(-1));
    assert!(rt; apply(Op::MaxU, bits, least, greatest).ok() == Some(least));
    assert!(rt; apply(Op::MaxS, bits, least, greatest).ok() == Some(greatest));
}

#[test]
fn edges_of_widths(rt: HostRuntime) {
    check_edges(&rt, 2, -2, 1);
    check_edges(&rt, 8, -128, 127);
    check_edges(&rt, 16, -32_768, 32_767);
    check_edges(&rt, 32, -2_147_483_648, 2_147_483_647);
    check_edges(
        &rt,
        63,
        -4_611_686_018_427_387_904,
        4_611_686_018_427_387_903,
    );
    check_edges(&rt, 64, i64::MIN, i64::MAX);
    assert_eq!(rt; apply(Op::DivU, 8, -1, 2).ok(), Some(127));
}

/// The casts between two widths at the edges of the narrower one: its least number, and the greatest without a sign.
fn check_casts(rt: &impl Abort, narrow: u32, wide: u32, least: i64, unsigned: i64)
    requires narrow { IsWidth narrow }
    requires wide { IsWidth wide }
    requires wider { narrow < wide }
    requires least { InRange narrow least }
    requires minus_one { InRange narrow (negsuc 0) }
    requires unsigned { InRange wide unsigned }
{
    assert!(rt; cast(CastKind::ExtS, narrow, wide, least) == least);
    assert!(rt; cast(CastKind::Index, narrow, wide, least) == least);
    assert!(rt; cast(CastKind::ExtU, narrow, wide, -1) == unsigned);
    assert!(rt; cast(CastKind::Trunc, wide, narrow, unsigned) == -1);
    assert!(rt; cast(CastKind::Index, wide, narrow, unsigned) == -1);
}

#[test]
fn casts_between_widths(rt: HostRuntime) {
    check_casts(&rt, 8, 16, -128, 255);
    check_casts(&rt, 8, 32, -128, 255);
    check_casts(&rt, 8, 64, -128, 255);
    check_casts(&rt, 16, 32, -32_768, 65_535);
    check_casts(&rt, 16, 64, -32_768, 65_535);
    check_casts(&rt, 32, 64, -2_147_483_648, 4_294_967_295);
    check_casts(&rt, 2, 63, -2, 3);
    assert_eq!(rt; cast(CastKind::Index, 64, 64, i64::MIN), i64::MIN);
}
