//! Boxes of a memref's elements, at each turn of the loops round a place.

use std::marker::Model;

/// One dimension of a box: it begins at `coefs . outer + offset`, where the outer variables are the index arguments and then
/// the loops round the place, and has `extent` numbers. Where it is clamped it is moved into the memref.
#[derive(Drop)]
pub struct RegionDim {
    pub coefs: Vec<i128>,
    pub offset: i128,
    pub extent: u32,
    pub clamped: bool,
}

impl Model for RegionDim {
    ghost use Rattle.std.specs.Prelude.{pos};
    ghost use Rattle.nest_domain.specs.Boxes.{Dimension};

    ghost Value = { Dimension };

    ghost view = { λ d. record { coefs = d.coefs.items; offset = d.offset; extent = pos d.extent; clamped = d.clamped } };
}

/// A box: for each dimension of a memref the part that it has of it.
#[derive(Drop)]
pub struct Region {
    pub dims: Vec<RegionDim>,
}

impl Model for Region {
    ghost use Rattle.std.specs.Prelude.{List};
    ghost use Rattle.nest_domain.specs.Boxes.{Dimension};

    ghost Value = { List Dimension };

    ghost view = { λ r. r.dims.items };
}
