// What the names of arguments stand for.

ghost use Rattle.std.specs.Prelude.{◌≡◌, ◌<◌, ◌+◌, suc, ℕ, ℤ, pos, List, length, drop, slice_index_or, Option, All};
ghost use Rattle.std.specs.Prelude.{OnOk, IfOk, IfSome};
ghost use Rattle.affine_expr.specs.declared.map.Interval.{Interval};
ghost use Rattle.affine_ast.specs.Sizes.{product};
ghost use Rattle.affine_ast.specs.declared.module.ArgKind.TheVariants.{Memref, Index};
ghost use Rattle.direct_meaning.specs.Memory.{place_kind, place_arg, empty_env, start_env};
ghost use Rattle.walk_program.specs.Names.{name_at, AreDistinct};
ghost use Rattle.walk_program.specs.declared.program.Argument.{Argument as TheArgument};
ghost use Rattle.walk_program.specs.Reading.{argument_of, arguments_of};
ghost use Rattle.walk_actions.specs.Looked.{env_of};
ghost use Rattle.nest_walk.specs.Arguments.{placed_of, Places};

use affine_ast::{ArgKind, MemrefType, Name};
use std::alloc::{AllocError, Global};
use walk_actions::{Environment, Home};
use walk_program::Argument;

/// What the arguments so far stand for, how many memrefs and how many elements they have, and the index arguments that
/// are left.
#[derive(Drop)]
pub struct Placing<'p, 's> {
    pub environment: Environment<'p>,
    pub memrefs: u32,
    pub elements: u32,
    pub symbols: &'s [i64],
}

/// The elements of a memref of these sizes. Nothing where they leave 32 bits.
fn elements(sizes: &[u32]) -> Option<u32>
    ensures { IfSome result (λ n. n ≡ product sizes.now) }
{
    let mut count = 1u32;
    for size in sizes {
        count = count.checked_mul(*size)?;
    }
    Some(count)
}

impl<'p, 's> Placing<'p, 's> {
    /// A memref argument: its elements stand behind those of the memrefs before.
    fn place_memref(&mut self, name: u32, ty: &MemrefType) -> Result<(), AllocError>
        requires name { name < length self.old.environment.names }
        ensures placed { OnOk result (Places self.new self.old
            (place_kind (Memref ty.now) (name_at self.old.environment.names name) (placed_of self.old))) }
    {
        let count = elements(ty.sizes.as_slice()).ok_or(AllocError)?;
        let memrefs = self.memrefs.checked_add(1).ok_or(AllocError)?;
        let elements = self.elements.checked_add(count).ok_or(AllocError)?;
        self.environment.stand(
            name,
            Some(Home::Slow {
                number: self.memrefs,
                first: self.elements,
            }),
        );
        self.memrefs = memrefs;
        self.elements = elements;
        Ok(())
    }

    /// An index argument: the next number, or 0 where there is none.
    fn place_index(&mut self, name: u32)
        requires name { name < length self.old.environment.names }
        ensures { (range : Option Interval) → Places self.new self.old
            (place_kind (Index range) (name_at self.old.environment.names name) (placed_of self.old)) }
    {
        let symbols = self.symbols;
        if symbols.is_empty() {
            self.environment.know(name, Some(0));
        } else {
            self.environment.know(name, Some(symbols[0]));
            self.symbols = &symbols[1..];
        }
    }

    /// The next argument.
    fn place(&mut self, argument: &Argument) -> Result<(), AllocError>
        requires name { argument.now.name < length self.old.environment.names }
        ensures { OnOk result (Places self.new self.old
            (place_arg (placed_of self.old) (argument_of self.old.environment.names argument.now))) }
    {
        match &argument.kind {
            ArgKind::Memref(ty) => self.place_memref(argument.name, ty),
            ArgKind::Index(_) => {
                self.place_index(argument.name);
                Ok(())
            }
        }
    }
}

/// What stands round the body of a program, for these index arguments.
pub fn placed<'p>(
    alloc: Global,
    names: &'p [Name],
    arguments: &[Argument],
    symbols: &[i64],
) -> Result<Environment<'p>, AllocError>
    requires distinct { AreDistinct names.now }
    requires inside { All (λ (a : TheArgument). a.name < length names.now) arguments.now }
    ensures names { IfOk result (λ environment. environment.names ≡ names.entry.now) }
    ensures env { IfOk result (λ environment. env_of environment ≡ start_env
        (arguments_of names.entry.now arguments.now) symbols.now) }
{
    let mut placing = Placing {
        environment: Environment::new(alloc, names)?,
        memrefs: 0,
        elements: 0,
        symbols,
    };
    for argument in arguments {
        placing.place(argument)?;
    }
    Ok(placing.environment)
}
