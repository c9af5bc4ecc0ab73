//! The rows of a loop's outside and of an access as they are handed out.

ghost use Rattle.std.specs.Prelude.{◌≡◌, List, [], ◌∷◌, ◌++◌, map, take, Some, OnOk, IfOk, Ok};
ghost use Rattle.std.specs.Option.{option_copied};
ghost use Rattle.constraint_set.specs.Points.{LinearRow, LinearSystem};
ghost use Rattle.affine_expr.specs.Linear.{Meets};
ghost use Rattle.affine_ast.specs.declared.types.Access.{Access};
ghost use Rattle.affine_ast.specs.Intervals.{Ranges};
ghost use Rattle.affine_ast.specs.Nest.{nest};
ghost use Rattle.direct_meaning.specs.Work.{start_ranges};
ghost use Rattle.module_work.specs.Workable.{WorkableAccess};
ghost use Rattle.nest_domain.specs.Ways.{Spot, at_path, loop_names};
ghost use Rattle.nest_domain.specs.Steps.{header_of};
ghost use Rattle.nest_domain.specs.Domains.{symbol_names, names_of, row_at, system_of};
ghost use Rattle.nest_domain.specs.Ready.{Ready};
ghost use Rattle.nest_domain.specs.Gathered.{known_of};
ghost use Rattle.nest_domain.specs.Answers.{limited, domain_of, access_of};
ghost use Rattle.nest_domain.specs.Accessing.{Grows, NamesLoop, NamesAccess, Tells, subscripts};

use crate::fault::DomainFault;
use crate::known::KnownForms;
use crate::place::{access_at, known_at};
use crate::step::Step;
use crate::way::way_to;
use affine_ast::{Access, Arg, ArgKind, Name, Path, Stmt, Verified, What};
use affine_expr::{Combination, LinearFault};
use constraint_set::{Row, System};
use name_hash::NameHashing;
use std::alloc::{AllocError, Global};
use std::marker::Model;

/// The rows of a loop's outside, over the index arguments of the module in their order, then the loops round it from the outside
/// in, and then the locals. `names` are those of the index arguments and the loops; a local has none.
#[derive(Drop)]
pub struct Domain {
    pub system: System,
    pub names: Vec<Name>,
}

impl Model for Domain {
    ghost use Rattle.nest_domain.specs.Answers as answers;

    ghost Value = { answers.Domain };

    ghost view = { λ d. record { system = d.system; names = d.names.items } };
}

/// The rows of an access, and its subscripts as rows of coefficients over the same variables.
#[derive(Drop)]
pub struct AccessRows {
    pub domain: Domain,
    pub forms: Vec<Row>,
}

impl Model for AccessRows {
    ghost use Rattle.nest_domain.specs.Answers as answers;

    ghost Value = { answers.AccessRows };

    ghost view = { λ a. record { domain = a.domain; forms = a.forms.items } };
}

/// The most variables of a system that is handed out.
const MOST_VARIABLES: u32 = 64;

/// The row of a form's first coefficients.
fn cut(form: Combination, width: usize) -> Row
    ensures { result ≡ record { coefs = take width form.coefs; constant = form.constant } }
{
    let Combination {
        mut coefs,
        constant,
    } = form;
    coefs.truncate(width);
    Row { coefs, constant }
}

/// A form as a row with so many coefficients.
#[tactic(auto, using(crate::proofs::Answering::cut_row))]
fn row_at(alloc: Global, width: u32, form: &Combination) -> Result<Row, LinearFault>
    ensures { Meets {A = LinearRow} (Ok (row_at width form.now)) (λ r. r) result }
{
    let padded = form.padded(alloc, width as usize)?;
    Ok(cut(padded, width as usize))
}

/// Forms as rows with so many coefficients.
pub fn rows_at(alloc: Global, width: u32, forms: &[Combination]) -> Result<Vec<Row>, LinearFault>
    ensures { Meets {A = List LinearRow} (Ok (map (row_at width) forms.now)) (λ rows. rows.items) result }
{
    let mut rows = Vec::new(alloc);
    for form in forms {
        let row = row_at(alloc, width, form)?;
        rows.push(row)?;
    }
    Ok(rows)
}

fn add_rows(alloc: Global, forms: &[Combination], system: &mut System) -> Result<(), LinearFault>
    ensures { Grows (record system.old { rows = system.old.rows ++ map (row_at system.old.vars) forms.now }) system.new result }
{
    for form in forms {
        let row = row_at(alloc, system.vars(), form)?;
        system.push(row)?;
    }
    Ok(())
}

/// The rows of what is known, each with a coefficient for each variable.
pub fn system_at(alloc: Global, known: &KnownForms<'_>) -> Result<System, LinearFault>
    ensures { Meets {A = LinearSystem} (Ok (system_of (known_of known.now))) (λ s. s) result }
{
    let mut system = System::new(alloc, known.next);
    add_rows(alloc, known.symbols.as_slice(), &mut system)?;
    add_rows(alloc, known.loops.as_slice(), &mut system)?;
    add_rows(alloc, known.conditions.as_slice(), &mut system)?;
    add_rows(alloc, known.locals.as_slice(), &mut system)?;
    Ok(system)
}

fn add_argument_name(alloc: Global, arg: &Arg, names: &mut Vec<Name>) -> Result<(), AllocError>
    ensures { OnOk result (names.new.items ≡ names.old.items ++ names_of arg.now.kind arg.now.name) }
{
    match &arg.kind {
        ArgKind::Memref(_) => {}
        ArgKind::Index(_) => names.push(arg.name.copy(alloc)?)?,
    }
    Ok(())
}

fn add_symbol_names(alloc: Global, args: &[Arg], names: &mut Vec<Name>) -> Result<(), AllocError>
    ensures { OnOk result (names.new.items ≡ names.old.items ++ symbol_names args.now) }
{
    for arg in args {
        add_argument_name(alloc, arg, names)?;
    }
    Ok(())
}

fn add_loop_name(alloc: Global, step: &Step<'_>, names: &mut Vec<Name>) -> Result<(), AllocError>
    ensures { OnOk result (names.new.items ≡ names.old.items ++ loop_names (header_of step.now ∷ [])) }
{
    match step {
        Step::Round { var, .. } => names.push(var.copy(alloc)?)?,
        Step::Given { .. } => {}
        Step::Except { .. } => {}
        Step::Behind { .. } => {}
        Step::Past { .. } => {}
    }
    Ok(())
}

fn add_loop_names(alloc: Global, way: &[Step<'_>], names: &mut Vec<Name>) -> Result<(), AllocError>
    ensures { OnOk result (names.new.items ≡ names.old.items ++ loop_names (map header_of way.now)) }
{
    for step in way {
        add_loop_name(alloc, step, names)?;
    }
    Ok(())
}

/// The names of the index arguments, and then of the loops on a way.
pub fn outer_names(alloc: Global, args: &[Arg], way: &[Step<'_>]) -> Result<Vec<Name>, AllocError>
    ensures { IfOk result (λ names. names.items ≡ symbol_names args.now ++ loop_names (map header_of way.now)) }
{
    let mut names = Vec::new(alloc);
    add_symbol_names(alloc, args, &mut names)?;
    add_loop_names(alloc, way, &mut names)?;
    Ok(names)
}

/// The rows of what is known, unless there are too many variables.
fn limited(alloc: Global, known: &KnownForms<'_>, names: Vec<Name>) -> Result<Domain, DomainFault>
    ensures { Tells (limited (known_of known.now) (record { system = system_of (known_of known.now); names = names.items })) result }
{
    if MOST_VARIABLES < known.next {
        return Err(DomainFault::Rows);
    }
    let system = system_at(alloc, known)?;
    Ok(Domain { system, names })
}

/// The rows of the outside of a loop at the end of a way.
///
/// # Errors
///
/// `Wide` where a form leaves 128 bits, and else `Rows` where there are more than 64 variables; `Memory` for want of memory.
pub fn domain_at<'a>(
    alloc: Global,
    hashing: NameHashing,
    args: &'a [Arg],
    way: Vec<Step<'a>>,
) -> Result<Domain, DomainFault>
    requires { Ready (map header_of way.items) (start_ranges args.now) }
    ensures { Tells (domain_of args.now (map header_of way.entry.items)) result }
{
    let names = outer_names(alloc, args, way.as_slice())?;
    let known = known_at(alloc, hashing, args, way, &[])?;
    limited(alloc, &known, names)
}

/// The rows of an access at the end of a way, with its subscripts.
///
/// # Errors
///
/// `Wide` where a form leaves 128 bits, and else `Rows` where there are more than 64 variables; `Memory` for want of memory.
pub fn access_rows_at<'a>(
    alloc: Global,
    hashing: NameHashing,
    args: &'a [Arg],
    way: Vec<Step<'a>>,
    at: &'a Access,
) -> Result<AccessRows, DomainFault>
    requires way { Ready (map header_of way.items) (start_ranges args.now) }
    requires subscripts { (rho : Ranges) × WorkableAccess rho at.now }
    ensures { Tells (access_of args.now (map header_of way.entry.items) at.now) result }
{
    let names = outer_names(alloc, args, way.as_slice())?;
    let found = access_at(alloc, hashing, args, way, at)?;
    let domain = limited(alloc, &found.known, names)?;
    let forms = rows_at(alloc, found.known.next, found.forms.as_slice())?;
    Ok(AccessRows { domain, forms })
}

/// The rows of the outside of the loop that a path names.
///
/// # Errors
///
/// `Wide` where a form leaves 128 bits, and else `Rows` where there are more than 64 variables; `Memory` for want of memory.
pub fn domain_of(alloc: Global, module: &Verified, at: &Path) -> Result<Domain, DomainFault>
    requires { NamesLoop (at_path (nest «module».now.inner.body) at.now.steps) }
    ensures { (s : Spot) → at_path (nest «module».now.inner.body) at.now.steps ≡ Some s → Tells (domain_of «module».now.inner.args s.way) result }
{
    let module = module.module();
    let Some(found) = way_to(alloc, module.body.as_slice(), at)? else {
        return Err(DomainFault::Memory);
    };
    domain_at(
        alloc,
        NameHashing::of_module(module),
        module.args.as_slice(),
        found.way,
    )
}

/// The subscripts of the affine access that begins a list of statements.
fn subscripts_of(here: &[Stmt]) -> Option<&Access>
    ensures { option_copied result ≡ subscripts (nest here.now) }
{
    let Some(first) = here.first() else {
        return None;
    };
    match &first.what {
        What::Load { at, .. } => Some(at),
        What::Store { at, .. } => Some(at),
        _ => None,
    }
}

/// The rows of the `affine.load` or `affine.store` that a path names, with its subscripts.
///
/// # Errors
///
/// `Wide` where a form leaves 128 bits, and else `Rows` where there are more than 64 variables; `Memory` for want of memory.
pub fn access_of(alloc: Global, module: &Verified, at: &Path) -> Result<AccessRows, DomainFault>
    requires { NamesAccess (at_path (nest «module».now.inner.body) at.now.steps) }
    ensures { (s : Spot) (access : Access) → at_path (nest «module».now.inner.body) at.now.steps ≡ Some s → subscripts s.here ≡ Some access → Tells (access_of «module».now.inner.args s.way access) result }
{
    let module = module.module();
    let Some(found) = way_to(alloc, module.body.as_slice(), at)? else {
        return Err(DomainFault::Memory);
    };
    let Some(access) = subscripts_of(found.here) else {
        return Err(DomainFault::Memory);
    };
    access_rows_at(
        alloc,
        NameHashing::of_module(module),
        module.args.as_slice(),
        found.way,
        access,
    )
}
