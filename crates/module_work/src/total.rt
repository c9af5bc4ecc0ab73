// The work of a module.
ghost use Rattle.std.specs.Prelude.{◌≡◌, OnOk, IfOk, fold};
ghost use Rattle.affine_ast.specs.Intervals.{range_or};
ghost use Rattle.direct_meaning.specs.Work.{work, arg_ranges};
ghost use Rattle.module_work.specs.Table.{ranges_of};

use crate::ranges::{Ranges, set};
use crate::statements::list;
use affine_ast::{Arg, ArgKind, Verified};
use affine_expr::Interval;
use indexmap::IndexMap;
use name_hash::NameHashing;
use std::alloc::{AllocError, Global};

/// The range of an index argument.
pub fn range_or(range: Option<Interval>) -> Interval
    ensures { result ≡ range_or range }
{
    match range {
        Some(range) => range,
        None => Interval {
            least: 0,
            greatest: 1_048_576,
        },
    }
}

/// Gives an index argument its range.
fn argument<'a>(arg: &'a Arg, ranges: &mut Ranges<'a>) -> Result<(), AllocError>
    ensures { OnOk result (ranges_of ranges.new.entries ≡ arg_ranges (ranges_of ranges.old.entries) arg.now) }
{
    match &arg.kind {
        ArgKind::Memref(_) => Ok(()),
        ArgKind::Index(range) => set(ranges, &arg.name, range_or(*range)),
    }
}

fn arguments<'a>(args: &'a [Arg], ranges: &mut Ranges<'a>) -> Result<(), AllocError>
    ensures { OnOk result (ranges_of ranges.new.entries ≡ fold arg_ranges (ranges_of ranges.old.entries) args.now) }
{
    for arg in args {
        argument(arg, ranges)?;
    }
    Ok(())
}

/// The work of a module: no run of it has more actions. It stays at 2^127 once it reaches that.
///
/// # Errors
///
/// `AllocError`, for want of memory alone.
pub fn work(alloc: Global, module: &Verified) -> Result<u128, AllocError>
    ensures { IfOk result (λ total. total ≡ work «module».now.inner) }
{
    let module = module.module();
    let mut ranges = IndexMap::with_hasher(alloc, NameHashing::of_module(module));
    arguments(module.args.as_slice(), &mut ranges)?;
    list(alloc, module.body.as_slice(), 0, &mut ranges)
}
