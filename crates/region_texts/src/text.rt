// The spelling of a box, or of the cause for which there is none.
ghost use Rattle.std.specs.Prelude.{◌≡◌, ◌++◌, OnOk, IfOk, unsigned_abs};
ghost use Rattle.std.specs.Ordering.{int_eq};
ghost use Rattle.region_texts.specs.Text.{sized_text, first_text, sign_text, further_text, constant_text, term_text, stands_behind, end_text, place_text, clamped_text, dimension_text, further_dimensions, box_text};

use crate::piece::{put, put_name, put_signed, put_size, put_unsigned};
use affine_ast::Name;
use nest_domain::{Region, RegionDim};
use std::alloc::{AllocError, Global};

fn is_number(number: i128, other: i64) -> bool
    ensures { result ≡ int_eq number other }
{
    number == other as i128
}

/// A variable times the size of a number.
#[tactic(auto, unfolding(crate::specs::Text::sized_text))]
fn put_sized(alloc: Global, out: &mut Vec<u8>, name: &Name, number: i128) -> Result<(), AllocError>
    ensures { OnOk result (out.new.items ≡ out.old.items ++ sized_text name.now (unsigned_abs number)) }
{
    put_name(out, name)?;
    if number.unsigned_abs() == 1 {
        return Ok(());
    }
    put(out, b" * ")?;
    put_size(alloc, out, number)
}

/// The first term of a place.
#[tactic(auto, unfolding(crate::specs::Text::first_text))]
fn put_first(alloc: Global, out: &mut Vec<u8>, name: &Name, number: i128) -> Result<(), AllocError>
    ensures { OnOk result (out.new.items ≡ out.old.items ++ first_text name.now number) }
{
    if is_number(number, 1) {
        return put_name(out, name);
    }
    if is_number(number, -1) {
        put(out, b"-")?;
        return put_name(out, name);
    }
    put_name(out, name)?;
    put(out, b" * ")?;
    put_signed(alloc, out, number)
}

fn put_sign(out: &mut Vec<u8>, number: i128) -> Result<(), AllocError>
    ensures { OnOk result (out.new.items ≡ out.old.items ++ sign_text number) }
{
    if number < 0 {
        put(out, b" - ")
    } else {
        put(out, b" + ")
    }
}

/// A further term.
#[tactic(auto, unfolding(crate::specs::Text::further_text))]
fn put_further(
    alloc: Global,
    out: &mut Vec<u8>,
    name: &Name,
    number: i128,
) -> Result<(), AllocError>
    ensures { OnOk result (out.new.items ≡ out.old.items ++ further_text name.now number) }
{
    put_sign(out, number)?;
    put_sized(alloc, out, name, number)
}

/// The constant behind terms.
#[tactic(auto, unfolding(crate::specs::Text::constant_text))]
fn put_constant(alloc: Global, out: &mut Vec<u8>, number: i128) -> Result<(), AllocError>
    ensures { OnOk result (out.new.items ≡ out.old.items ++ constant_text number) }
{
    if is_number(number, 0) {
        return Ok(());
    }
    put_sign(out, number)?;
    put_size(alloc, out, number)
}

/// A term that may be left out: the first one, where none stands yet. Tells whether one stands then.
#[tactic(auto, unfolding(crate::specs::Text::term_text))]
fn put_term(
    alloc: Global,
    out: &mut Vec<u8>,
    name: &Name,
    number: i128,
    begun: bool,
) -> Result<bool, AllocError>
    ensures text { OnOk result (out.new.items ≡ out.old.items ++ term_text begun name.now number) }
    ensures begun { IfOk result (λ now. now ≡ stands_behind begun number) }
{
    if is_number(number, 0) {
        return Ok(begun);
    }
    if begun {
        put_further(alloc, out, name, number)?;
    } else {
        put_first(alloc, out, name, number)?;
    }
    Ok(true)
}

/// The constant: by itself where no term stands.
fn put_end(alloc: Global, out: &mut Vec<u8>, number: i128, begun: bool) -> Result<(), AllocError>
    ensures { OnOk result (out.new.items ≡ out.old.items ++ end_text begun number) }
{
    if begun {
        put_constant(alloc, out, number)
    } else {
        put_signed(alloc, out, number)
    }
}

/// Where a box begins in a dimension: a combination of variables and a constant.
#[tactic(auto, using(crate::proofs::Places::place_goes_on, crate::proofs::Places::place_stops, crate::proofs::Places::place_ends))]
fn put_place(
    alloc: Global,
    out: &mut Vec<u8>,
    names: &[Name],
    coefs: &[i128],
    constant: i128,
) -> Result<(), AllocError>
    ensures { OnOk result (out.new.items ≡ out.old.items ++ place_text names.now coefs.now constant) }
{
    let mut begun = false;
    for (place, coef) in coefs.iter().enumerate() {
        if place >= names.len() {
            return put_end(alloc, out, constant, begun);
        }
        begun = put_term(alloc, out, &names[place], *coef, begun)?;
    }
    put_end(alloc, out, constant, begun)
}

fn put_clamped(out: &mut Vec<u8>, clamped: bool) -> Result<(), AllocError>
    ensures { OnOk result (out.new.items ≡ out.old.items ++ clamped_text clamped) }
{
    if clamped {
        put(out, b" clamped")
    } else {
        Ok(())
    }
}

/// What a box has of a dimension: where it begins, and how many numbers.
#[tactic(auto, unfolding(crate::specs::Text::dimension_text))]
fn put_dimension(
    alloc: Global,
    out: &mut Vec<u8>,
    names: &[Name],
    dim: &RegionDim,
) -> Result<(), AllocError>
    ensures { OnOk result (out.new.items ≡ out.old.items ++ dimension_text names.now dim.now) }
{
    put(out, b"(")?;
    put_place(alloc, out, names, &dim.coefs, dim.offset)?;
    put(out, b")+")?;
    put_unsigned(alloc, out, dim.extent)?;
    put_clamped(out, dim.clamped)
}

/// The dimensions behind a first one.
fn put_further_dimensions(
    alloc: Global,
    out: &mut Vec<u8>,
    names: &[Name],
    dims: &[RegionDim],
) -> Result<(), AllocError>
    ensures { OnOk result (out.new.items ≡ out.old.items ++ further_dimensions names.now dims.now) }
{
    for dim in dims {
        put(out, b" x ")?;
        put_dimension(alloc, out, names, dim)?;
    }
    Ok(())
}

/// A box.
#[tactic(auto, unfolding(crate::specs::Text::box_text))]
pub fn put_box(
    alloc: Global,
    out: &mut Vec<u8>,
    names: &[Name],
    region: &Region,
) -> Result<(), AllocError>
    ensures { OnOk result (out.new.items ≡ out.old.items ++ box_text names.now region.now) }
{
    match region.dims.as_slice() {
        [] => put(out, b"()"),
        [first, others @ ..] => {
            put_dimension(alloc, out, names, first)?;
            put_further_dimensions(alloc, out, names, others)
        }
    }
}
