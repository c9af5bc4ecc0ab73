// The way to a place, with which of its values are needed.
ghost use Rattle.std.specs.Prelude.{◌≡◌, map, reverse, IfOk};
ghost use Rattle.nest_domain.specs.Steps.{header_of, mark_of};
ghost use Rattle.nest_domain.specs.Used.{marked, along_marked};
ghost use Rattle.nest_domain.specs.Gathered.{known_of, Becomes};
ghost use Rattle.nest_domain.specs.Ready.{Ready};

use crate::entering::along_step;
use crate::known::KnownForms;
use crate::step::{Mark, Step};
use crate::used::{UsedNames, add_names, take_step};
use affine_ast::Name;
use affine_expr::LinearFault;
use indexmap::IndexSet;
use name_hash::NameHashing;
use std::alloc::{AllocError, Global};

/// The steps of a way from the last to the first, each with whether its value is needed where the place behind the way uses names
/// of its own.
#[tactic(auto, using(crate::proofs::Marking::gathers_none, crate::proofs::Marking::gathers_more, crate::proofs::Marking::gathers_all))]
pub fn marks<'a>(
    alloc: Global,
    hashing: NameHashing,
    mut way: Vec<Step<'a>>,
    own: &'a [Name],
) -> Result<Vec<Mark<'a>>, AllocError>
    ensures { IfOk result (λ found. reverse (map mark_of found.items) ≡ marked (map header_of way.entry.items) own.now) }
{
    let mut used: UsedNames<'a> = IndexSet::with_hasher(alloc, hashing);
    add_names(&mut used, own)?;
    let mut found = Vec::new(alloc);
    while let Some(step) = way.pop() {
        let needed = take_step(&mut used, &step)?;
        found.push(Mark { step, needed })?;
    }
    Ok(found)
}

/// Goes along a way whose steps stand from the last to the first.
#[tactic(auto, using(crate::proofs::Marking::ready_first, crate::proofs::Marking::goes_on, crate::proofs::Marking::goes_wide, crate::proofs::Marking::went))]
pub fn along<'a>(
    alloc: Global,
    mut marks: Vec<Mark<'a>>,
    known: &mut KnownForms<'a>,
) -> Result<(), LinearFault>
    requires { Ready (map (λ m. m.0) (reverse (map mark_of marks.items))) (known_of known.old).ranges }
    ensures { Becomes (along_marked (reverse (map mark_of marks.entry.items)) (known_of known.old)) known.new result }
{
    while let Some(mark) = marks.pop() {
        along_step(alloc, &mark.step, mark.needed, known)?;
    }
    Ok(())
}
