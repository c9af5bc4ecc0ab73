// Memory images, and paths to statements.
ghost use Rattle.std.specs.Prelude.{◌≡◌, IfOk};

use sqlite_items::Items;
use std::alloc::{AllocError, Global};

/// The name of a statement: its position in each region from the outermost in, with true where the region is an `else`.
#[derive(Drop)]
pub struct Path {
    pub steps: Items<(u32, bool)>,
}

/// The cells of a memref, row-major.
#[derive(Drop)]
pub struct Cells {
    pub values: Items<i64>,
}

/// The slow memory and the index arguments, each in argument order.
#[derive(Drop)]
pub struct Image {
    pub memrefs: Items<Cells>,
    pub symbols: Items<i64>,
}

impl Path {
    /// An equal path.
    pub fn copy(&self, alloc: Global) -> Result<Path, AllocError>
        ensures { IfOk result (λ path. path ≡ self.now) }
    {
        Ok(Path {
            steps: Items::from_slice(alloc, self.steps.as_slice())?,
        })
    }
}

impl Cells {
    /// Equal cells.
    pub fn copy(&self, alloc: Global) -> Result<Cells, AllocError>
        ensures { IfOk result (λ cells. cells ≡ self.now) }
    {
        Ok(Cells {
            values: Items::from_slice(alloc, self.values.as_slice())?,
        })
    }
}

fn copy_memrefs(alloc: Global, memrefs: &[Cells]) -> Result<Items<Cells>, AllocError>
    ensures { IfOk result (λ copies. copies ≡ memrefs.now) }
{
    let mut copies = Items::new(alloc);
    for cells in memrefs {
        copies.push(cells.copy(alloc)?)?;
    }
    Ok(copies)
}

impl Image {
    /// An equal image.
    pub fn copy(&self, alloc: Global) -> Result<Image, AllocError>
        ensures { IfOk result (λ image. image ≡ self.now) }
    {
        Ok(Image {
            memrefs: copy_memrefs(alloc, self.memrefs.as_slice())?,
            symbols: Items::from_slice(alloc, self.symbols.as_slice())?,
        })
    }
}
