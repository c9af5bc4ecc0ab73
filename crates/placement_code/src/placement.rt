// A placement, as its statements are made.
use affine_ast::{Element, Name};
use sqlite_items::Items;
use std::marker::Model;

/// One dimension of the memref: its size, and where the box begins, which is the sum of the values with their coefficients and the
/// offset, for so many elements. Where it is clamped, it lies as near to that as it lies in the memref.
#[derive(Drop)]
pub struct Dimension {
    pub size: u32,
    pub terms: Items<(Name, i64)>,
    pub offset: i64,
    pub extent: u32,
    pub clamped: bool,
}

impl Model for Dimension {
    ghost use Rattle.placement_texts.specs.Template as template;

    ghost Value = { template.Dimension };

    ghost view = { λ d. record { size = d.size; terms = d.terms; offset = d.offset; extent = d.extent; clamped = d.clamped } };
}

/// How a box is copied: by loops, or by transfers, with a stride and a chunk where there are several chunks.
#[derive(Clone, Copy)]
pub enum How {
    Copies,
    Transfers(Option<(u32, u32)>),
}

/// A memref, its box, whether it is read in before the loop and written out behind it, and how; and the number of the placement, by
/// which its names are made.
#[derive(Drop)]
pub struct Placement {
    pub memref: Name,
    pub element: Element,
    pub dims: Items<Dimension>,
    pub reads: bool,
    pub writes: bool,
    pub how: How,
    pub number: u32,
}
