// Printing.
ghost use Rattle.std.specs.Prelude.{◌≡◌, ◌++◌, flat_map, IfOk, OnOk};
ghost use Rattle.direct_meaning.specs.Memory.{Fits};
ghost use Rattle.mem_image.specs.Images as spec;

use affine_ast::{ArgKind, Cells, Image, Verified};
use num_row::write_decimal;
use std::alloc::{AllocError, Global};

/// The numbers of the first memref, none where there is no memref.
fn first_cells(memrefs: &[Cells]) -> &[i64]
    ensures { result.now ≡ spec.first_cells memrefs.now }
{
    match memrefs {
        [cells, ..] => cells.values.as_slice(),
        [] => &[],
    }
}

/// The numbers of an argument, at the front of what is left of an image.
fn own_numbers<'a>(kind: &ArgKind, memrefs: &'a [Cells], symbols: &'a [i64]) -> &'a [i64]
    ensures { result.now ≡ spec.own_numbers kind.now memrefs.now symbols.now }
{
    match kind {
        ArgKind::Memref(_) => first_cells(memrefs),
        ArgKind::Index(_) => &symbols[..symbols.len().min(1)],
    }
}

/// The memrefs that are left behind an argument.
fn memrefs_behind<'a>(kind: &ArgKind, memrefs: &'a [Cells]) -> &'a [Cells]
    ensures { result.now ≡ spec.memrefs_behind kind.now memrefs.now }
{
    match kind {
        ArgKind::Memref(_) => &memrefs[memrefs.len().min(1)..],
        ArgKind::Index(_) => memrefs,
    }
}

/// The index arguments that are left behind an argument.
fn symbols_behind<'a>(kind: &ArgKind, symbols: &'a [i64]) -> &'a [i64]
    ensures { result.now ≡ spec.symbols_behind kind.now symbols.now }
{
    match kind {
        ArgKind::Memref(_) => symbols,
        ArgKind::Index(_) => &symbols[symbols.len().min(1)..],
    }
}

/// Appends numbers, each behind a space.
fn print_numbers(alloc: Global, numbers: &[i64], out: &mut Vec<u8>) -> Result<(), AllocError>
    ensures { OnOk result (out.new.items ≡ out.old.items ++ flat_map spec.printed_number numbers.now) }
{
    for number in numbers {
        out.push(b' ')?;
        write_decimal(alloc, *number as i128, out)?;
    }
    Ok(())
}

/// Appends the line of an argument.
fn print_row(
    alloc: Global,
    name: &[u8],
    numbers: &[i64],
    out: &mut Vec<u8>,
) -> Result<(), AllocError>
    ensures { OnOk result (out.new.items ≡ out.old.items ++ spec.printed_row (spec.row name.now numbers.now)) }
{
    out.extend_from_slice(name)?;
    out.extend_from_slice(b" =")?;
    print_numbers(alloc, numbers, out)?;
    out.push(b'\n')?;
    Ok(())
}

/// The printed text of an image: for each argument in order a line of its name without `%`, `=` and its numbers, with one space
/// each.
///
/// `parse_image` reads it as the same image, where the arguments have names that a text can have. The only error is that memory ran out.
pub fn print_image(alloc: Global, image: &Image, module: &Verified) -> Result<Vec<u8>, AllocError>
    requires { Fits «module».now.inner image.now }
    ensures text { IfOk result (λ v. v.items ≡ spec.printed «module».now.inner image.now) }
    // what is printed is read back as this image
    ensures read_back { IfOk result (λ v. spec.HasNames «module».now.inner → spec.Spells v.items «module».now.inner image.now) }
{
    let mut out = Vec::new(alloc);
    let mut memrefs = image.memrefs.as_slice();
    let mut symbols = image.symbols.as_slice();
    for arg in module.module().args.as_slice() {
        let name = arg.name.text.as_str().as_bytes();
        let numbers = own_numbers(&arg.kind, memrefs, symbols);
        print_row(alloc, name, numbers, &mut out)?;
        memrefs = memrefs_behind(&arg.kind, memrefs);
        symbols = symbols_behind(&arg.kind, symbols);
    }
    Ok(out)
}
