// One line.
ghost use Rattle.std.specs.Prelude.{◌≡◌, ◌++◌, OnOk, Result, List};
ghost use Rattle.std.specs.Fmt.{decimal};
ghost use Rattle.nest_domain.specs.Boxes.{Dimension};
ghost use Rattle.access_region.specs.Faults.{NoRegion, Meets};
ghost use Rattle.module_regions.specs.Lines.{found_text, head_text, line_text};

use access_region::RegionFault;
use affine_ast::Name;
use nest_domain::Region;
use region_texts::{put, put_box, put_name, put_unsigned};
use std::alloc::{AllocError, Global};

fn put_number(alloc: Global, out: &mut Vec<u8>, number: usize) -> Result<(), AllocError>
    ensures { OnOk result (out.new.items ≡ out.old.items ++ decimal number) }
{
    let text = number.to_string(alloc)?;
    put(out, text.as_bytes())
}

/// The number and the line of a block, and the memref.
#[tactic(auto, unfolding(crate::specs::Lines::head_text))]
fn put_head(
    alloc: Global,
    out: &mut Vec<u8>,
    number: usize,
    line: u32,
    memref: &Name,
) -> Result<(), AllocError>
    ensures { OnOk result (out.new.items ≡ out.old.items ++ head_text number line memref.now) }
{
    put(out, b"block ")?;
    put_number(alloc, out, number)?;
    put(out, b" line ")?;
    put_unsigned(alloc, out, line)?;
    put(out, b" ")?;
    put_name(out, memref)?;
    put(out, b": ")
}

/// The box, or the cause for which there is none.
fn put_found(
    alloc: Global,
    out: &mut Vec<u8>,
    names: &[Name],
    found: Result<Region, RegionFault>,
) -> Result<(), AllocError>
    ensures { (wanted : Result (List Dimension) NoRegion) → Meets wanted (λ region. region) found → OnOk result (out.new.items ≡ out.old.items ++ found_text names.now wanted) }
{
    match found {
        Ok(region) => put_box(alloc, out, names, &region),
        Err(RegionFault::Region) => put(out, b"region"),
        Err(RegionFault::Coefficient) => put(out, b"coefficient"),
        Err(RegionFault::Rows) => put(out, b"rows"),
        Err(RegionFault::Memory) => Err(AllocError),
    }
}

/// The line of a memref in a block, whose region or whose cause is given.
#[tactic(auto, using(crate::proofs::Pieces::line_made))]
pub(crate) fn put_line(
    alloc: Global,
    out: &mut Vec<u8>,
    number: usize,
    line: u32,
    memref: &Name,
    names: &[Name],
    found: Result<Region, RegionFault>,
) -> Result<(), AllocError>
    ensures { (wanted : Result (List Dimension) NoRegion) → Meets wanted (λ region. region) found → OnOk result (out.new.items ≡ out.old.items ++ line_text (record { block = number; line = line; memref = memref.now; outer = names.now; found = wanted })) }
{
    put_head(alloc, out, number, line, memref)?;
    put_found(alloc, out, names, found)?;
    put(out, b"\n")
}
