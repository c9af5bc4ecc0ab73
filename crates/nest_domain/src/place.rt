// What is known at a place, and at an access.
ghost use Rattle.std.specs.Prelude.{◌≡◌, map, Ok};
ghost use Rattle.affine_expr.specs.Linear.{Meets};
ghost use Rattle.affine_ast.specs.Intervals.{Ranges};
ghost use Rattle.direct_meaning.specs.Work.{start_ranges};
ghost use Rattle.module_work.specs.Workable.{WorkableAccess};
ghost use Rattle.nest_domain.specs.Steps.{header_of};
ghost use Rattle.nest_domain.specs.Ready.{Ready};
ghost use Rattle.nest_domain.specs.Domains.{place, access};
ghost use Rattle.nest_domain.specs.Gathered.{known_of};
ghost use Rattle.nest_domain.specs.Accessing.{accessed_of};

use crate::forms::map_forms;
use crate::known::{KnownForms, add_divisions};
use crate::marks::{along, marks};
use crate::start::start;
use crate::step::Step;
use affine_ast::{Access, Arg, Name};
use affine_expr::{Combination, LinearFault};
use name_hash::NameHashing;
use std::alloc::Global;

/// What is known at an access, and the forms of its subscripts.
#[derive(Drop)]
pub struct AccessForms<'a> {
    pub known: KnownForms<'a>,
    pub forms: Vec<Combination>,
}

/// What is known at the end of a way, where names are used.
///
/// # Errors
///
/// `Wide` where a form leaves 128 bits; `Memory` for want of memory.
#[tactic(auto, using(crate::proofs::Starting::ready_marked, crate::proofs::Starting::place_along, crate::proofs::Starting::place_wide))]
pub fn known_at<'a>(
    alloc: Global,
    hashing: NameHashing,
    args: &'a [Arg],
    way: Vec<Step<'a>>,
    own: &'a [Name],
) -> Result<KnownForms<'a>, LinearFault>
    requires { Ready (map header_of way.items) (start_ranges args.now) }
    ensures { Meets (place args.now (map header_of way.entry.items) own.now) known_of result }
{
    let mut known = start(alloc, hashing, args, way.as_slice())?;
    let found = marks(alloc, hashing, way, own)?;
    along(alloc, found, &mut known)?;
    Ok(known)
}

/// What is known at an access at the end of a way, and the forms of its subscripts.
///
/// # Errors
///
/// `Wide` where a form leaves 128 bits; `Memory` for want of memory.
#[tactic(auto, unfolding(crate::specs::Domains::access))]
pub fn access_at<'a>(
    alloc: Global,
    hashing: NameHashing,
    args: &'a [Arg],
    way: Vec<Step<'a>>,
    at: &'a Access,
) -> Result<AccessForms<'a>, LinearFault>
    requires way { Ready (map header_of way.items) (start_ranges args.now) }
    requires subscripts { (rho : Ranges) × WorkableAccess rho at.now }
    ensures { Meets (access args.now (map header_of way.entry.items) at.now) accessed_of result }
{
    let mut known = known_at(alloc, hashing, args, way, at.operands.as_slice())?;
    let mut locals = Vec::new(alloc);
    let forms = map_forms(alloc, &known.forms, known.next, at, &mut locals)?;
    add_divisions(alloc, locals.as_slice(), &mut known)?;
    Ok(AccessForms { known, forms })
}
