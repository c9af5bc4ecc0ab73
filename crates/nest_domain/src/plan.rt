// What a plan decides.
use crate::region::Region;
use affine_ast::Path;

/// What a user asks of a plan: how deep the copies stand, whether transfers do them, whether they are doubled and in how many
/// buffers, and how many bytes of fast memory there are.
#[derive(Clone, Copy)]
pub struct Options {
    pub depth: u8,
    pub dma: bool,
    pub double: bool,
    pub capacity: u64,
    pub buffers: u8,
}

/// Why a memref isn't staged, or isn't doubled.
#[derive(Clone, Copy)]
pub enum Cause {
    /// There is no box: an access that isn't affine, or none that is reached.
    Region,
    /// A number of a form, an elimination or a template leaves its range.
    Coefficient,
    /// An elimination has too many variables or rows.
    Rows,
    /// The boxes that are live together don't fit.
    Capacity,
    /// A limit of the texts would be passed.
    Size,
    /// The loop isn't of the form that can be doubled.
    Shape,
    /// A later turn would need what an earlier one hasn't stored yet.
    Dependence,
}

/// Whether a placement is doubled.
#[derive(Clone, Copy)]
pub enum Doubling {
    NotAsked,
    Doubled,
    /// Not doubled, for this cause.
    Single(Cause),
}

/// What becomes of a memref in a block.
#[derive(Drop)]
pub enum Outcome {
    /// It stays in slow memory.
    Left(Cause),
    /// It has a box at a loop, which is copied in where it reads, and out where it writes.
    Staged {
        at: Path,
        region: Region,
        reads: bool,
        writes: bool,
        doubling: Doubling,
    },
}

/// A decision on a memref, which its argument's number names, in a block that begins at a line.
#[derive(Drop)]
pub struct Decision {
    pub block: u32,
    pub line: u32,
    pub memref: u32,
    pub outcome: Outcome,
}

/// The decisions in their order.
#[derive(Drop)]
pub struct Plan {
    pub decisions: Vec<Decision>,
}
