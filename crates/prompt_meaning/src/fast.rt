// The cells of fast memrefs.
ghost use Rattle.std.specs.Prelude.{◌≡◌, ℕ, ◌+◌, ◌*◌, ◌<◌, ◌++◌, pos, List, length, replicate, IfOk, IfSome, slice_index_or, slice_set};
ghost use Rattle.affine_ast.specs.declared.name.Name.{Name};
ghost use Rattle.affine_ast.specs.Sizes.{product};
ghost use Rattle.prompt_semantics.specs.Device.{put_half};
ghost use Rattle.prompt_laws.specs.Rooms.{Room, rooms_in, room_of};
ghost use Rattle.walk_program.specs.Reading.{nest_of};
ghost use Rattle.walk_program.specs.Tree.{Tree, tree, put_form};
ghost use Rattle.prompt_meaning.specs.Memrefs.{halves_at, CellIn, FillsHalves, HasRoom, AreRooms, Adds, AddsPlain};

use affine_ast::MemrefType;
use std::alloc::{AllocError, Global};
use walk_program::{Form, Plain, Statement};

/// A fast memref: how many cells each half has, and the cells, a half behind the other.
#[derive(Drop)]
pub(crate) struct FastMemref {
    pub(crate) half: usize,
    pub(crate) cells: Vec<i64>,
}

/// The product of sizes; none where it leaves the machine's numbers.
fn elements(sizes: &[u32]) -> Option<usize>
    ensures { IfSome result (λ n. n ≡ product sizes.now) }
{
    let mut count = 1usize;
    for size in sizes {
        count = count.checked_mul(*size as usize)?;
    }
    Some(count)
}

impl FastMemref {
    /// Room for the halves of a memref of this type.
    fn new(alloc: Global, ty: &MemrefType) -> Result<FastMemref, AllocError>
        ensures { IfOk result (HasRoom (room_of ty.now.element ty.now.sizes)) }
    {
        let sizes = ty.sizes.as_slice();
        let [halves, rest @ ..] = sizes else {
            return Ok(FastMemref {
                half: 0,
                cells: Vec::new(alloc),
            });
        };
        let Some(half) = elements(rest) else {
            return Err(AllocError);
        };
        let Some(count) = half.checked_mul(*halves as usize) else {
            return Err(AllocError);
        };
        Ok(FastMemref {
            half,
            cells: Vec::from_elem(alloc, 0, count)?,
        })
    }

    /// The number in a cell of a half.
    pub(crate) fn load(&self, half: u32, cell: usize) -> i64
        requires { half * self.now.half + cell < length self.now.cells.items }
        ensures { result ≡ slice_index_or self.now.cells.items (half * self.now.half + cell) (pos 0) }
    {
        self.cells[half as usize * self.half + cell]
    }

    /// Puts a number into a cell of a half.
    fn store(&mut self, half: u32, cell: usize, value: i64)
        requires { half * self.old.half + cell < length self.old.cells.items }
        ensures same { self.new.half ≡ self.old.half }
        ensures cells { self.new.cells.items ≡ slice_set self.old.cells.items (half * self.old.half + cell) value }
    {
        self.cells[half as usize * self.half + cell] = value;
    }

    /// Puts a number into all cells.
    pub(crate) fn fill(&mut self, value: i64)
        ensures same { self.new.half ≡ self.old.half }
        ensures cells { self.new.cells.items ≡ replicate (length self.old.cells.items) value }
    {
        self.cells.fill(value);
    }
}

/// Puts a number into a cell of a half of a fast memref.
pub(crate) fn put_cell(fasts: &mut [FastMemref], number: u32, half: u32, cell: usize, value: i64)
    requires { CellIn fasts.old number half cell }
    ensures halves { halves_at fasts.new ≡ put_half (halves_at fasts.old) number half (slice_set (halves_at fasts.old number half) cell value) }
    ensures rooms { (rooms : List Room) → AreRooms rooms fasts.old → AreRooms rooms fasts.new }
    ensures cells { (n h c : ℕ) → CellIn fasts.old n h c → CellIn fasts.new n h c }
{
    fasts[number as usize].store(half, cell, value);
}

/// The number in a cell of a half of a fast memref.
pub(crate) fn cell_of(fasts: &[FastMemref], number: u32, half: u32, cell: usize) -> i64
    requires { CellIn fasts.now number half cell }
    ensures { result ≡ slice_index_or (halves_at fasts.now number half) cell (pos 0) }
{
    fasts[number as usize].load(half, cell)
}

/// Puts a number into all cells of a fast memref.
pub(crate) fn fill_all(fasts: &mut [FastMemref], number: u32, value: i64)
    requires { number < length fasts.old }
    ensures filled { FillsHalves number value fasts.old fasts.new }
    ensures rooms { (rooms : List Room) → AreRooms rooms fasts.old → AreRooms rooms fasts.new }
{
    fasts[number as usize].fill(value);
}

/// Makes room for what a plain statement allocates in space 1.
fn add_plain(alloc: Global, plain: &Plain, fasts: &mut Vec<FastMemref>) -> Result<(), AllocError>
    ensures { IfOk result (λ done. AddsPlain plain.now fasts.old.items fasts.new.items) }
{
    match plain {
        Plain::Alloc { ty, .. } => {
            if ty.space == 1 {
                fasts.push(FastMemref::new(alloc, ty)?)?;
            }
            Ok(())
        }
        _ => Ok(()),
    }
}

/// Makes room for the allocations in space 1 of a statement, in text order.
#[cycle(fasts)]
fn add_form(alloc: Global, form: &Form, fasts: &mut Vec<FastMemref>) -> Result<(), AllocError>
    ensures { IfOk result (λ done. (line : ℕ) (t : Tree) → Adds (put_form form.now line t) t fasts.old.items fasts.new.items) }
{
    match form {
        Form::For { body, .. } => add_fasts(alloc, body.as_slice(), fasts),
        Form::If { first, other, .. } => {
            add_fasts(alloc, first.as_slice(), fasts)?;
            match other {
                None => Ok(()),
                Some(other) => add_fasts(alloc, other.as_slice(), fasts),
            }
        }
        Form::Plain(plain) => add_plain(alloc, plain, fasts),
    }
}

/// Makes room for the allocations in space 1 of statements, in text order.
#[cycle(fasts)]
pub(crate) fn add_fasts(
    alloc: Global,
    statements: &[Statement],
    fasts: &mut Vec<FastMemref>,
) -> Result<(), AllocError>
    ensures { IfOk result (λ done. (names : List Name) (rooms : List Room) → AreRooms rooms fasts.old.items → AreRooms (rooms ++ rooms_in (nest_of names (tree statements.now))) fasts.new.items) }
{
    for statement in statements {
        add_form(alloc, &statement.form, fasts)?;
    }
    Ok(())
}
