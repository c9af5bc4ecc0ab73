// The names of a module's values, in text order.
ghost use Rattle.std.specs.Prelude.{◌≡◌, ◌++◌, ◌∷◌, [], map, IfOk, OnOk};
ghost use Rattle.affine_ast.specs.declared.module.Arg.{Arg};
ghost use Rattle.affine_ast.specs.Nest.{Nothing, nest, put_what};
ghost use Rattle.numbered_names.specs.Numbers.{defined, value_names};

use affine_ast::{Arg, Module, Name, Stmt, What};
use sqlite_items::Items;
use std::alloc::{AllocError, Global};

fn add(alloc: Global, name: &Name, names: &mut Items<Name>) -> Result<(), AllocError>
    ensures { OnOk result (names.new ≡ names.old ++ name.now ∷ []) }
{
    names.push(name.copy(alloc)?)
}

/// Adds the names that a statement and those in it define.
#[cycle(listing)]
fn add_defined(alloc: Global, what: &What, names: &mut Items<Name>) -> Result<(), AllocError>
    ensures { OnOk result (names.new ≡ names.old ++ defined (put_what what.now 0 Nothing)) }
{
    match what {
        What::For { var, body, .. } => {
            add(alloc, var, names)?;
            add_all(alloc, body.as_slice(), names)
        }
        What::If { first, other, .. } => {
            add_all(alloc, first.as_slice(), names)?;
            match other {
                None => Ok(()),
                Some(other) => add_all(alloc, other.as_slice(), names),
            }
        }
        What::Value { result, .. } => add(alloc, result, names),
        What::Load { result, .. } => add(alloc, result, names),
        What::RawLoad { result, .. } => add(alloc, result, names),
        What::Constant { result, .. } => add(alloc, result, names),
        What::Binary { result, .. } => add(alloc, result, names),
        What::Cast { result, .. } => add(alloc, result, names),
        What::Alloc { result, .. } => add(alloc, result, names),
        What::Store { .. } => Ok(()),
        What::RawStore { .. } => Ok(()),
        What::Dealloc { .. } => Ok(()),
        What::Start { .. } => Ok(()),
        What::Wait { .. } => Ok(()),
        What::Return => Ok(()),
    }
}

/// Adds the names that statements define.
#[cycle(listing)]
fn add_all(alloc: Global, stmts: &[Stmt], names: &mut Items<Name>) -> Result<(), AllocError>
    ensures { OnOk result (names.new ≡ names.old ++ defined (nest stmts.now)) }
{
    for stmt in stmts {
        add_defined(alloc, &stmt.what, names)?;
    }
    Ok(())
}

fn argument_names(alloc: Global, args: &[Arg]) -> Result<Items<Name>, AllocError>
    ensures { IfOk result (λ names. names ≡ map (λ (arg : Arg). arg.name) args.now) }
{
    let mut names = Items::new(alloc);
    for arg in args {
        names.push(arg.name.copy(alloc)?)?;
    }
    Ok(names)
}

/// The names of a module's values.
pub(crate) fn value_names(alloc: Global, module: &Module) -> Result<Items<Name>, AllocError>
    ensures { IfOk result (λ names. names ≡ value_names «module».now) }
{
    let mut names = argument_names(alloc, module.args.as_slice())?;
    add_all(alloc, module.body.as_slice(), &mut names)?;
    Ok(names)
}
