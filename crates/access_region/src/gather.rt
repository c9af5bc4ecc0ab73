//! What a region asks of the accesses of a memref, and of the outside of their loop, gathered from a text.
ghost use Rattle.std.specs.Prelude.{◌≡◌, [], ◌∷◌, ◌++◌, map, IfOk, OnOk, Ok};
ghost use Rattle.constraint_set.specs.Lists.{Each};
ghost use Rattle.affine_expr.specs.Bounded.{ranges};
ghost use Rattle.affine_ast.specs.Intervals.{ranges_at};
ghost use Rattle.direct_meaning.specs.Work.{start_ranges};
ghost use Rattle.module_work.specs.Table.{ranges_of};
ghost use Rattle.module_work.specs.Workable.{WorkableAccess};
ghost use Rattle.nest_domain.specs.Ready.{Ready, ranges_at_end};
ghost use Rattle.nest_domain.specs.Ways.{loop_names};
ghost use Rattle.nest_domain.specs.Steps.{header_of};
ghost use Rattle.nest_domain.specs.Domains.{symbol_names, names_of};
ghost use Rattle.nest_domain.specs.Gathered.{known_of};
ghost use Rattle.nest_domain.specs.Accessing.{accessed_of};
ghost use Rattle.text_places.specs.Finding.{seen};
ghost use Rattle.access_region.specs.Faults.{Meets};
ghost use Rattle.access_region.specs.Candidates as candidates;
ghost use Rattle.access_region.specs.Finding.{ReadyUse, reached_at, reaching_use};
ghost use Rattle.access_region.specs.Regions as regions;
ghost use Rattle.access_region.specs.Regions.{has_other, reaching_of, all_reaching, reaching, outside_of, outside_at};

use crate::fault::RegionFault;
use crate::reaching::{Outside, Reaching};
use affine_ast::{Access, Arg, ArgKind, Name};
use affine_expr::Interval;
use affine_rules::parted_intervals;
use affine_verify::intervals_at;
use module_work::ranges::{Ranges, range_of, ranges_of_all};
use name_hash::NameHashing;
use nest_domain::{AccessForms, KnownForms, Step, access_at, known_at, system_at};
use std::alloc::{AllocError, Global};
use text_places::{FoundUse, copied_way};

fn is_other(found: &FoundUse<'_>) -> bool
    ensures { result ≡ has_other (seen found.now ∷ []) }
{
    matches!(found, FoundUse::Other)
}

/// Whether an access isn't affine.
#[tactic(auto, using(crate::proofs::Gathering::other_found, crate::proofs::Gathering::other_later, crate::proofs::Gathering::no_other))]
fn has_other(uses: &[FoundUse<'_>]) -> bool
    ensures { result ≡ has_other (map seen uses.now) }
{
    for found in uses {
        if is_other(found) {
            return true;
        }
    }
    false
}

/// The intervals of the results of a map.
fn intervals_of<'a>(
    alloc: Global,
    table: &Ranges<'a>,
    at: &'a Access,
) -> Result<Vec<Interval>, AllocError>
    requires { WorkableAccess (ranges_of table.now.entries) at.now }
    ensures { IfOk result (λ found. ranges found.items ≡ ranges_at (ranges_of table.now.entries) at.now) }
{
    let operands = ranges_of_all(alloc, table, at.operands.as_slice())?;
    let (dims, syms) = parted_intervals(at.map.dims, operands.as_slice());
    let found = intervals_at(alloc, at.map.results.as_slice(), dims, syms)?;
    Ok(found)
}

/// What a region asks of an access, from what is known there.
fn reaching_of<'a>(
    alloc: Global,
    found: AccessForms<'a>,
    at: &'a Access,
) -> Result<Reaching, RegionFault>
    requires { WorkableAccess (accessed_of found).known.ranges at.now }
    ensures { Meets {A = candidates.Reaching} (Ok (reaching_of at.now (accessed_of found.entry))) (λ r. r) result }
{
    let AccessForms { known, forms } = found;
    let ranges = intervals_of(alloc, &known.ranges, at)?;
    let system = system_at(alloc, &known)?;
    Ok(Reaching {
        goings: known.goings,
        system,
        forms,
        ranges,
    })
}

/// What a region asks of an access at the end of a way.
#[tactic(auto, using(crate::proofs::Ranged::workable_there))]
fn reached_at<'a>(
    alloc: Global,
    hashing: NameHashing,
    args: &'a [Arg],
    way: &[Step<'a>],
    at: &'a Access,
) -> Result<Reaching, RegionFault>
    requires way { Ready (map header_of way.now) (start_ranges args.now) }
    requires subscripts { WorkableAccess (ranges_at_end (map header_of way.now) (start_ranges args.now)) at.now }
    ensures { Meets (reached_at args.now (map header_of way.now) at.now) (λ r. r) result }
{
    let way = copied_way(alloc, way)?;
    let found = access_at(alloc, hashing, args, way, at)?;
    reaching_of(alloc, found, at)
}

fn reaching_use<'a>(
    alloc: Global,
    hashing: NameHashing,
    args: &'a [Arg],
    found: &FoundUse<'a>,
) -> Result<Reaching, RegionFault>
    requires { ReadyUse (start_ranges args.now) (seen found.now) }
    ensures { Meets (reaching_use args.now (seen found.now)) (λ r. r) result }
{
    match found {
        FoundUse::Affine { way, at, .. } => reached_at(alloc, hashing, args, way.as_slice(), at),
        FoundUse::Other => Err(RegionFault::Region),
    }
}

#[tactic(auto, using(crate::proofs::Gathering::ready_at, crate::proofs::Gathering::reaching_goes_on, crate::proofs::Gathering::reaching_stops, crate::proofs::Gathering::reaching_ends))]
fn all_reaching<'a>(
    alloc: Global,
    hashing: NameHashing,
    args: &'a [Arg],
    uses: &[FoundUse<'a>],
) -> Result<Vec<Reaching>, RegionFault>
    requires { Each (ReadyUse (start_ranges args.now)) (map seen uses.now) }
    ensures { Meets (all_reaching args.now (map seen uses.now)) (λ xs. xs.items) result }
{
    let mut all = Vec::new(alloc);
    for found in uses {
        let one = reaching_use(alloc, hashing, args, found)?;
        all.push(one)?;
    }
    Ok(all)
}

/// What a region asks of the accesses of a memref: the cause comes first that one isn't affine.
pub(crate) fn reaching<'a>(
    alloc: Global,
    hashing: NameHashing,
    args: &'a [Arg],
    uses: &[FoundUse<'a>],
) -> Result<Vec<Reaching>, RegionFault>
    requires { Each (ReadyUse (start_ranges args.now)) (map seen uses.now) }
    ensures { Meets (reaching args.now (map seen uses.now)) (λ xs. xs.items) result }
{
    if has_other(uses) {
        return Err(RegionFault::Region);
    }
    all_reaching(alloc, hashing, args, uses)
}

#[tactic(auto, using(crate::proofs::Gathering::range_added))]
fn add_range<'a>(
    table: &Ranges<'a>,
    name: &'a Name,
    out: &mut Vec<Interval>,
) -> Result<(), AllocError>
    ensures { OnOk result (ranges out.new.items ≡ ranges out.old.items ++ ranges_of table.now.entries name.now ∷ []) }
{
    out.push(range_of(table, name))?;
    Ok(())
}

fn add_argument_range<'a>(
    table: &Ranges<'a>,
    arg: &'a Arg,
    out: &mut Vec<Interval>,
) -> Result<(), AllocError>
    ensures { OnOk result (ranges out.new.items ≡ ranges out.old.items ++ map (ranges_of table.now.entries) (names_of arg.now.kind arg.now.name)) }
{
    match &arg.kind {
        ArgKind::Memref(_) => Ok(()),
        ArgKind::Index(_) => add_range(table, &arg.name, out),
    }
}

/// Adds the intervals of the index arguments.
#[tactic(auto, using(crate::proofs::Gathering::arguments_go_on, crate::proofs::Gathering::arguments_end))]
fn add_argument_ranges<'a>(
    table: &Ranges<'a>,
    args: &'a [Arg],
    out: &mut Vec<Interval>,
) -> Result<(), AllocError>
    ensures { OnOk result (ranges out.new.items ≡ ranges out.old.items ++ map (ranges_of table.now.entries) (symbol_names args.now)) }
{
    for arg in args {
        add_argument_range(table, arg, out)?;
    }
    Ok(())
}

fn add_step_range<'a>(
    table: &Ranges<'a>,
    step: &Step<'a>,
    out: &mut Vec<Interval>,
) -> Result<(), AllocError>
    ensures { OnOk result (ranges out.new.items ≡ ranges out.old.items ++ map (ranges_of table.now.entries) (loop_names (header_of step.now ∷ []))) }
{
    match step {
        Step::Round { var, .. } => add_range(table, *var, out),
        Step::Given { .. } => Ok(()),
        Step::Except { .. } => Ok(()),
        Step::Behind { .. } => Ok(()),
        Step::Past { .. } => Ok(()),
    }
}

/// Adds the intervals of the loops on a way.
#[tactic(auto, using(crate::proofs::Gathering::loops_go_on, crate::proofs::Gathering::loops_end))]
fn add_loop_ranges<'a>(
    table: &Ranges<'a>,
    way: &[Step<'a>],
    out: &mut Vec<Interval>,
) -> Result<(), AllocError>
    ensures { OnOk result (ranges out.new.items ≡ ranges out.old.items ++ map (ranges_of table.now.entries) (loop_names (map header_of way.now))) }
{
    for step in way {
        add_step_range(table, step, out)?;
    }
    Ok(())
}

/// The intervals of the index arguments, and then of the loops on a way.
#[tactic(auto, using(crate::proofs::Gathering::both_ranges))]
fn outer_ranges<'a>(
    alloc: Global,
    table: &Ranges<'a>,
    args: &'a [Arg],
    way: &[Step<'a>],
) -> Result<Vec<Interval>, AllocError>
    ensures { IfOk result (λ out. ranges out.items ≡ map (ranges_of table.now.entries) (symbol_names args.now ++ loop_names (map header_of way.now))) }
{
    let mut out = Vec::new(alloc);
    add_argument_ranges(table, args, &mut out)?;
    add_loop_ranges(table, way, &mut out)?;
    Ok(out)
}

/// The outside of a loop, from what is known there.
fn outside_from<'a>(
    alloc: Global,
    args: &'a [Arg],
    way: &[Step<'a>],
    known: &KnownForms<'a>,
) -> Result<Outside, RegionFault>
    ensures { Meets {A = regions.Outside} (Ok (outside_of (symbol_names args.now ++ loop_names (map header_of way.now)) (known_of known.now))) (λ o. o) result }
{
    let ranges = outer_ranges(alloc, &known.ranges, args, way)?;
    let system = system_at(alloc, known)?;
    Ok(Outside {
        outer: known.outer,
        system,
        ranges,
    })
}

/// The outside of a loop at the end of a way.
pub fn outside_of<'a>(
    alloc: Global,
    hashing: NameHashing,
    args: &'a [Arg],
    way: &[Step<'a>],
) -> Result<Outside, RegionFault>
    requires { Ready (map header_of way.now) (start_ranges args.now) }
    ensures { Meets (outside_at args.now (map header_of way.now)) (λ o. o) result }
{
    let again = copied_way(alloc, way)?;
    let known = known_at(alloc, hashing, args, again, &[])?;
    outside_from(alloc, args, way, &known)
}
