// Programs are made.
ghost use Rattle.std.specs.Prelude.{◌≡◌, IfOk};
ghost use Rattle.affine_ast.specs.Nest.{nest};
ghost use Rattle.walk_program.specs.Names.{names_of, uses_of_arguments};
ghost use Rattle.walk_program.specs.Numbering.{Numbers, AreArguments};
ghost use Rattle.walk_program.specs.Reading.{nest_of, arguments_of};
ghost use Rattle.walk_program.specs.Tree.{tree};
ghost use Rattle.walk_program.specs.WellMade.{WellMade};
ghost use Rattle.walk_program.specs.Widths.{width_in};

use crate::numbering::Numbering;
use crate::program::{Argument, Program};
use crate::regions::number_region;
use affine_ast::{Arg, Module};
use name_hash::NameHashing;
use sqlite_items::Items;
use std::alloc::{AllocError, Global};

fn number_arguments<'a>(
    numbering: &mut Numbering<'a>,
    alloc: Global,
    args: &'a [Arg],
) -> Result<Items<Argument>, AllocError>
    ensures { IfOk result (λ arguments. Numbers (AreArguments arguments args.now)
        (uses_of_arguments args.now) 0 numbering.old numbering.new) }
{
    let mut arguments = Items::new(alloc);
    for arg in args {
        arguments.push(Argument {
            name: numbering.number(&arg.name)?,
            kind: arg.kind.copy(alloc)?,
            line: arg.line,
        })?;
    }
    Ok(arguments)
}

/// The program of a module: the module with a number in place of each name, in the order of first use, the arguments
/// first. It can be made of every module. Where names, or what is allocated in a region, need a number of more than 32
/// bits, which they do in no valid module, the answer is want of memory.
pub fn make(alloc: Global, module: &Module) -> Result<Program, AllocError>
    ensures made { IfOk result (λ p. WellMade p) }
    ensures names { IfOk result (λ p. p.names ≡ names_of «module».now) }
    ensures arguments { IfOk result (λ p. arguments_of p.names p.arguments ≡ «module».now.args) }
    ensures body { IfOk result (λ p. nest_of p.names (tree p.body) ≡ nest «module».now.body) }
    ensures width { IfOk result (λ p. p.width ≡ width_in (nest «module».now.body)) }
{
    let mut numbering = Numbering::new(alloc, NameHashing::of_module(module));
    let arguments = number_arguments(&mut numbering, alloc, module.args.as_slice())?;
    let body = number_region(&mut numbering, alloc, module.body.as_slice())?;
    Ok(Program {
        names: numbering.names(alloc)?,
        arguments,
        body: body.statements,
        inside: body.inside,
        width: numbering.width(),
    })
}
