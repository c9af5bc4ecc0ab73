//! The interval of a place, and whether the expressions over it keep to the rule on intervals.

ghost use Rattle.std.specs.Prelude.{◌≡◌, pos, neg_ℤ, ◌+ℤ◌, ◌-ℤ◌, ◌*ℤ◌, drop, IfOk, option_map, true, false, ◌&&◌};
ghost use Rattle.std.specs.Int.{int_min, int_max};
ghost use Rattle.std.specs.Ordering.{int_eq};
ghost use Rattle.constraint_set.specs.Tidy.{all_zero};
ghost use Rattle.affine_expr.specs.Spread.{scaled};
ghost use Rattle.affine_expr.specs.Bounded.{range_at, ranges};
ghost use Rattle.affine_expr.specs.Guarded.{small};
ghost use Rattle.affine_expr.specs.Pure.{is_outside};
ghost use Rattle.place_intervals.specs.TermRanges.{kept, plus, less, opposite, times, first_range, size_range, added_range, numbered_range, head, next_range, step_range, form_range};
ghost use Rattle.place_intervals.specs.Places.{number_range, place_range, place_ranges, fits, copies_fit, subscripts_fit};

use affine_expr::Interval;
use nest_domain::RegionDim;
use std::alloc::{AllocError, Global};

fn is_outside(value: i128) -> bool
    ensures { result ≡ is_outside value }
{
    value < -4611686018427387904 || 4611686018427387904 < value
}

/// The number, where it is within the limits.
#[tactic(auto, unfolding(affine_expr::specs::Guarded::small), using(affine_expr::proofs::Spanned::kept))]
fn small(value: i128) -> Option<i64>
    ensures { result ≡ small value }
{
    if is_outside(value) {
        None
    } else {
        Some(value as i64)
    }
}

fn sum(left: i64, right: i64) -> i128
    ensures { result ≡ left +ℤ right }
{
    left as i128 + right as i128
}

fn difference(left: i64, right: i64) -> i128
    ensures { result ≡ left -ℤ right }
{
    left as i128 - right as i128
}

fn product(left: i64, right: i64) -> i128
    ensures { result ≡ left *ℤ right }
{
    left as i128 * right as i128
}

fn minus(value: i64) -> i128
    ensures { result ≡ neg_ℤ value }
{
    -(value as i128)
}

fn wide(value: i64) -> i128
    ensures { result ≡ value }
{
    value as i128
}

/// The negated number.
fn negative(value: i128) -> i128
    requires { is_outside value ≡ false }
    ensures { result ≡ neg_ℤ value }
{
    -value
}

/// An interval within the limits.
#[tactic(auto, unfolding(affine_expr::specs::Guarded::small))]
fn kept(least: i128, greatest: i128) -> Option<Interval>
    ensures { option_map range_at result ≡ kept (record { least = least; greatest = greatest }) }
{
    let least = small(least)?;
    let greatest = small(greatest)?;
    Some(Interval { least, greatest })
}

fn kept_again(range: Interval) -> Option<Interval>
    ensures { option_map range_at result ≡ kept (range_at range) }
{
    kept(wide(range.least), wide(range.greatest))
}

/// An interval times a number, within the limits.
fn scaled(range: Interval, factor: i64) -> Option<Interval>
    ensures { option_map range_at result ≡ kept (scaled (range_at range) factor) }
{
    let low = product(range.least, factor);
    let high = product(range.greatest, factor);
    kept(low.min(high), low.max(high))
}

/// The same where interval and number are within the limits.
fn times(range: Interval, factor: i128) -> Option<Interval>
    ensures { option_map range_at result ≡ times (range_at range) factor }
{
    let range = kept_again(range)?;
    let factor = small(factor)?;
    scaled(range, factor)
}

/// The negated interval, within the limits.
fn turned(range: Interval) -> Option<Interval>
    ensures { option_map range_at result ≡ kept (opposite (range_at range)) }
{
    kept(minus(range.greatest), minus(range.least))
}

/// The interval of a first term.
fn first_range(range: Interval, coef: i128) -> Option<Interval>
    ensures { option_map range_at result ≡ first_range (range_at range) coef }
{
    if coef == 1 {
        return kept_again(range);
    }
    if coef == -1 {
        let range = kept_again(range)?;
        return turned(range);
    }
    times(range, coef)
}

/// The interval of a further term, by the size of its coefficient.
fn size_range(range: Interval, size: i128) -> Option<Interval>
    ensures { option_map range_at result ≡ size_range (range_at range) size }
{
    if size == 1 {
        return kept_again(range);
    }
    times(range, size)
}

fn plus(left: Interval, right: Interval) -> Option<Interval>
    ensures { option_map range_at result ≡ kept (plus (range_at left) (range_at right)) }
{
    kept(
        sum(left.least, right.least),
        sum(left.greatest, right.greatest),
    )
}

fn less(left: Interval, right: Interval) -> Option<Interval>
    ensures { option_map range_at result ≡ kept (less (range_at left) (range_at right)) }
{
    kept(
        difference(left.least, right.greatest),
        difference(left.greatest, right.least),
    )
}

/// The interval with one more term.
#[tactic(auto, using(crate::proofs::Outsides::no_term))]
fn added_range(total: Interval, range: Interval, coef: i128) -> Option<Interval>
    ensures { option_map range_at result ≡ added_range (range_at total) (range_at range) coef }
{
    if is_outside(coef) {
        return None;
    }
    if coef < 0 {
        let size = size_range(range, negative(coef))?;
        return less(total, size);
    }
    let size = size_range(range, coef)?;
    plus(total, size)
}

/// The interval with the constant.
#[tactic(auto, using(crate::proofs::Outsides::no_number))]
fn numbered_range(total: Interval, number: i128) -> Option<Interval>
    ensures { option_map range_at result ≡ numbered_range (range_at total) number }
{
    if number == 0 {
        return Some(total);
    }
    if is_outside(number) {
        return None;
    }
    if number < 0 {
        let size = negative(number);
        let size = kept(size, size)?;
        return less(total, size);
    }
    let size = kept(number, number)?;
    plus(total, size)
}

/// The interval of a variable; 0 alone where there is none.
fn interval_at(intervals: &[Interval], place: usize) -> Interval
    ensures { range_at result ≡ head (drop place (ranges intervals.now)) }
{
    if place < intervals.len() {
        intervals[place]
    } else {
        Interval {
            least: 0,
            greatest: 0,
        }
    }
}

/// The interval with the term of a variable, behind those before it.
fn with_term(total: Option<Interval>, range: Interval, coef: i128) -> Option<Interval>
    ensures { option_map range_at result ≡ next_range (option_map range_at total) (range_at range) coef }
{
    match total {
        None => first_range(range, coef),
        Some(total) => added_range(total, range, coef),
    }
}

/// The same where the coefficient may be 0; none where a part leaves the limits.
#[tactic(auto, using(crate::proofs::FormRanges::step_zero, crate::proofs::FormRanges::step_none, crate::proofs::FormRanges::step_some))]
fn with_any_term(total: Option<Interval>, range: Interval, coef: i128) -> Option<Option<Interval>>
    ensures { option_map (option_map range_at) result ≡ step_range (option_map range_at total) (range_at range) coef }
{
    if coef == 0 {
        return Some(total);
    }
    let more = with_term(total, range, coef)?;
    Some(Some(more))
}

/// The interval of a form over variables in these intervals.
#[tactic(auto, using(crate::proofs::FormRanges::turn, crate::proofs::FormRanges::stop))]
fn form_range(coefs: &[i128], constant: i128, intervals: &[Interval]) -> Option<Interval>
    ensures { option_map range_at result ≡ form_range coefs.now constant (ranges intervals.now) }
{
    let mut total = None;
    for (place, coef) in coefs.iter().enumerate() {
        total = with_any_term(total, interval_at(intervals, place), *coef)?;
    }
    match total {
        None => kept(constant, constant),
        Some(total) => numbered_range(total, constant),
    }
}

fn room(size: u32, extent: u32) -> i64
    ensures { result ≡ pos size -ℤ pos extent }
{
    size as i64 - extent as i64
}

/// An end of an interval that is moved between 0 and another number.
fn clamp(end: i64, most: i64) -> i64
    ensures { result ≡ int_max (pos 0) (int_min end most) }
{
    let least: i64 = 0;
    least.max(end.min(most))
}

/// An interval that is moved between 0 and a number.
fn clamped(range: Interval, most: i64) -> Interval
    ensures { range_at result ≡ record { least = int_max (pos 0) (int_min range.least most); greatest = int_max (pos 0) (int_min range.greatest most) } }
{
    Interval {
        least: clamp(range.least, most),
        greatest: clamp(range.greatest, most),
    }
}

/// A number that is moved between 0 and another number.
fn clamped_number(number: i128, most: i64) -> i64
    ensures { result ≡ int_max (pos 0) (int_min number most) }
{
    if number >= most as i128 {
        return most.max(0);
    }
    if number < 0 { 0 } else { number as i64 }
}

/// The interval of a constant place that is clamped.
fn number_range(number: i128, most: i64) -> Interval
    ensures { range_at result ≡ number_range most number }
{
    let place = clamped_number(number, most);
    Interval {
        least: place,
        greatest: place,
    }
}

fn is_zero(number: i128) -> bool
    ensures { result ≡ int_eq number (pos 0) }
{
    number == 0
}

/// Whether a combination names no variable.
fn all_zero(coefs: &[i128]) -> bool
    ensures { result ≡ all_zero coefs.now }
{
    for coef in coefs {
        if !is_zero(*coef) {
            return false;
        }
    }
    true
}

/// The interval of a place that names a variable, or isn't clamped.
#[tactic(auto, using(crate::proofs::PlaceRanged::place_none, crate::proofs::PlaceRanged::place_plain, crate::proofs::PlaceRanged::place_clamped))]
fn varying_range(intervals: &[Interval], size: u32, dim: &RegionDim) -> Option<Interval>
    requires { (dim.now.clamped && all_zero dim.now.coefs) ≡ false }
    ensures { option_map range_at result ≡ place_range (ranges intervals.now) size dim.now }
{
    let range = form_range(&dim.coefs, dim.offset, intervals)?;
    if !dim.clamped {
        return Some(range);
    }
    let most = room(size, dim.extent);
    let moved = clamped(range, most);
    Some(moved)
}

/// Whether a place is a number that is moved into the memref.
fn is_clamped_number(dim: &RegionDim) -> bool
    ensures { result ≡ (dim.now.clamped && all_zero dim.now.coefs) }
{
    dim.clamped && all_zero(&dim.coefs)
}

/// The interval of the place of a dimension, over the intervals of the outer variables.
#[tactic(auto, using(crate::proofs::PlaceRanged::place_number))]
fn place_range(intervals: &[Interval], size: u32, dim: &RegionDim) -> Option<Interval>
    ensures { option_map range_at result ≡ place_range (ranges intervals.now) size dim.now }
{
    if is_clamped_number(dim) {
        let most = room(size, dim.extent);
        return Some(number_range(dim.offset, most));
    }
    varying_range(intervals, size, dim)
}

/// The intervals of the places of all dimensions, over those of the outer variables; none where a part of one leaves the limits.
#[tactic(auto, using(crate::proofs::FormRanges::places_stop, crate::proofs::FormRanges::places_over, crate::proofs::FormRanges::places_ended))]
pub fn place_ranges(
    alloc: Global,
    intervals: &[Interval],
    sizes: &[u32],
    dims: &[RegionDim],
) -> Result<Option<Vec<Interval>>, AllocError>
    ensures { IfOk result (λ places. option_map (λ v. ranges v.items) places ≡ place_ranges (ranges intervals.now) sizes.now dims.now) }
{
    let mut places = Vec::new(alloc);
    for (number, dim) in dims.iter().enumerate() {
        if number >= sizes.len() {
            return Ok(Some(places));
        }
        let Some(place) = place_range(intervals, sizes[number], dim) else {
            return Ok(None);
        };
        places.push(place)?;
    }
    Ok(Some(places))
}

/// Whether both ends keep to the limits.
fn fits(least: i128, greatest: i128) -> bool
    ensures { result ≡ fits least greatest }
{
    if is_outside(least) {
        return false;
    }
    !is_outside(greatest)
}

fn last_of(place: i64, extent: u32) -> i128
    ensures { result ≡ place +ℤ (pos extent -ℤ pos 1) }
{
    place as i128 + (extent as i128 - 1)
}

/// Whether `iv + place` of a copy loop keeps to the limits.
fn copy_fits(dim: &RegionDim, place: Interval) -> bool
    ensures { result ≡ fits place.least (place.greatest +ℤ (dim.now.extent -ℤ pos 1)) }
{
    fits(wide(place.least), last_of(place.greatest, dim.extent))
}

/// Whether `iv + place` of the copy loops keeps to the limits in all dimensions.
#[tactic(auto, using(crate::proofs::FitLoops::copies_over, crate::proofs::FitLoops::copies_ended))]
pub fn copies_fit(dims: &[RegionDim], places: &[Interval]) -> bool
    ensures { result ≡ copies_fit dims.now (ranges places.now) }
{
    for (number, place) in places.iter().enumerate() {
        if number >= dims.len() {
            return true;
        }
        if !copy_fits(&dims[number], *place) {
            return false;
        }
    }
    true
}

/// Whether a redirected subscript `e - place` keeps to the limits.
fn subscript_fits(subscript: Interval, place: Interval) -> bool
    ensures { result ≡ fits (subscript.least -ℤ place.greatest) (subscript.greatest -ℤ place.least) }
{
    fits(
        difference(subscript.least, place.greatest),
        difference(subscript.greatest, place.least),
    )
}

/// Whether the redirected subscripts `e - place` of an access keep to the limits.
#[tactic(auto, using(crate::proofs::FitLoops::subscripts_over, crate::proofs::FitLoops::subscripts_ended))]
pub fn subscripts_fit(subscripts: &[Interval], places: &[Interval]) -> bool
    ensures { result ≡ subscripts_fit (ranges subscripts.now) (ranges places.now) }
{
    for (number, subscript) in subscripts.iter().enumerate() {
        if number >= places.len() {
            return true;
        }
        if !subscript_fits(*subscript, places[number]) {
            return false;
        }
    }
    true
}
