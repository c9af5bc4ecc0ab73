// Halves for the fast memrefs of a text.
ghost use Rattle.std.specs.Prelude.{◌≡◌, ◌++◌, ℕ, List, IfOk, IfSome};
ghost use Rattle.affine_ast.specs.declared.name.Name.{Name};
ghost use Rattle.affine_ast.specs.Sizes.{product};
ghost use Rattle.prompt_laws.specs.Rooms.{Room, rooms_in, room_of};
ghost use Rattle.walk_program.specs.Reading.{nest_of};
ghost use Rattle.walk_program.specs.Tree.{Tree, tree, put_form};
ghost use Rattle.fast_rooms.specs.Rooms.{HasRoom, HaveRooms, Adds, AddsPlain};

use affine_ast::MemrefType;
use fast_halves::Halves;
use std::alloc::{AllocError, Global};
use walk_program::{Form, Plain, Statement};

/// The product of sizes; none where it leaves 32 bits.
fn elements(sizes: &[u32]) -> Option<u32>
    ensures { IfSome result (λ n. n ≡ product sizes.now) }
{
    let mut count = 1u32;
    for size in sizes {
        count = count.checked_mul(*size)?;
    }
    Some(count)
}

/// Halves for a memref of this type.
fn halves_for(alloc: Global, ty: &MemrefType) -> Result<Halves, AllocError>
    ensures { IfOk result (HasRoom (room_of ty.now.element ty.now.sizes)) }
{
    let sizes = ty.sizes.as_slice();
    let [halves, rest @ ..] = sizes else {
        return Halves::new(alloc, 0, 0, 0);
    };
    let Some(cells) = elements(rest) else {
        return Err(AllocError);
    };
    Halves::new(alloc, *halves, cells, 0)
}

/// Makes halves for what a plain statement allocates in space 1.
fn add_plain(alloc: Global, plain: &Plain, memrefs: &mut Vec<Halves>) -> Result<(), AllocError>
    ensures { IfOk result (λ done. AddsPlain plain.now memrefs.old.items memrefs.new.items) }
{
    match plain {
        Plain::Alloc { ty, .. } => {
            if ty.space == 1 {
                memrefs.push(halves_for(alloc, ty)?)?;
            }
            Ok(())
        }
        _ => Ok(()),
    }
}

/// Makes halves for the allocations in space 1 of a statement, in text order.
#[cycle(memrefs)]
fn add_form(alloc: Global, form: &Form, memrefs: &mut Vec<Halves>) -> Result<(), AllocError>
    ensures { IfOk result (λ done. (line : ℕ) (t : Tree) → Adds (put_form form.now line t) t memrefs.old.items memrefs.new.items) }
{
    match form {
        Form::For { body, .. } => add_memrefs(alloc, body.as_slice(), memrefs),
        Form::If { first, other, .. } => {
            add_memrefs(alloc, first.as_slice(), memrefs)?;
            match other {
                None => Ok(()),
                Some(other) => add_memrefs(alloc, other.as_slice(), memrefs),
            }
        }
        Form::Plain(plain) => add_plain(alloc, plain, memrefs),
    }
}

/// Makes halves for the allocations in space 1 of statements, in text order, behind those that are there. Each cell is 0.
///
/// # Errors
///
/// `AllocError`, for want of memory, and where a memref's cells leave 32 bits.
#[cycle(memrefs)]
pub fn add_memrefs(
    alloc: Global,
    statements: &[Statement],
    memrefs: &mut Vec<Halves>,
) -> Result<(), AllocError>
    ensures { IfOk result (λ done. (names : List Name) (rooms : List Room) → HaveRooms rooms memrefs.old.items → HaveRooms (rooms ++ rooms_in (nest_of names (tree statements.now))) memrefs.new.items) }
{
    for statement in statements {
        add_form(alloc, &statement.form, memrefs)?;
    }
    Ok(())
}
