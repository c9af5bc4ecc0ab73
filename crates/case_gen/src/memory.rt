// The memory.
ghost use Rattle.std.specs.Prelude.{◌≡◌, ◌++◌, ◌≤◌, ◌<◌, IfOk, OnOk, map, pos};
ghost use Rattle.std.specs.List.{range_with_len};
ghost use Rattle.case_gen.specs.Sample as spec;
ghost use Rattle.case_gen.specs.Parts.{element_of};

use affine_ast::{Cells, Image};
use sqlite_items::Items;
use std::alloc::{AllocError, Global};

/// Which matrix, with what its elements are made from.
#[derive(Clone, Copy)]
enum Matrix {
    A { number: u64, size: u32 },
    B,
    C,
}

impl Matrix {
    /// The element at a row and a column.
    fn element(self, row: u32, column: u32) -> i64
        requires row { row < 64 }
        requires column { column < 64 }
        ensures { result ≡ pos (element_of self row column) }
    {
        let (row, column) = (row as u64, column as u64);
        let element = match self {
            Matrix::A { number, size } => (row * size as u64 + column + number % 7) % 7,
            Matrix::B => (row + 2 * column) % 3,
            Matrix::C => 0,
        };
        element as i64
    }

    fn push_row(self, row: u32, size: u32, values: &mut Items<i64>) -> Result<(), AllocError>
        requires row { row < 64 }
        requires size { size ≤ 64 }
        ensures { OnOk result (values.new ≡ values.old ++ map (λ j. pos (element_of self row j)) (range_with_len 0 size)) }
    {
        for column in 0..size {
            let element = self.element(row, column);
            values.push(element)?;
        }
        Ok(())
    }

    fn cells(self, alloc: Global, size: u32) -> Result<Cells, AllocError>
        requires size { size ≤ 64 }
        ensures { IfOk result (λ cells. cells ≡ spec.cells size (element_of self)) }
    {
        let mut values = Items::new(alloc);
        for row in 0..size {
            self.push_row(row, size, &mut values)?;
        }
        Ok(Cells { values })
    }
}

/// The memory of a number: two factors and zeros.
pub(crate) fn image_of(alloc: Global, number: u64, size: u32) -> Result<Image, AllocError>
    requires size { size ≤ 64 }
    ensures { IfOk result (λ image. image ≡ spec.memory number size) }
{
    let mut memrefs = Items::new(alloc);
    memrefs.push(Matrix::A { number, size }.cells(alloc, size)?)?;
    memrefs.push(Matrix::B.cells(alloc, size)?)?;
    memrefs.push(Matrix::C.cells(alloc, size)?)?;
    Ok(Image {
        memrefs,
        symbols: Items::new(alloc),
    })
}
