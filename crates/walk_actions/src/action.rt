// Actions by number.

use affine_ast::{Element, Scalar};
use bus_model::{FaultKind, Transfer};
use int_ops::{CastKind, Op};

/// What the name of a memref stands for.
#[derive(Clone, Copy)]
pub enum Home {
    /// A memref argument: its number among these, and the slow place of its first element.
    Slow { number: u32, first: u32 },
    /// An allocation in space 1: its number among these in the text.
    Fast(u32),
    /// An allocation in space 2: the number of its first element among the tags.
    Tags(u32),
}

/// Where an access goes.
#[derive(Clone, Copy)]
pub enum Place {
    /// A slow place, counted through the memref arguments in order.
    Slow(u32),
    /// The number of a fast memref, a half of it, a cell of the half.
    Fast { number: u32, half: u32, cell: u32 },
    /// A subscript is outside its size.
    Outside,
}

/// A value that is used: a number that was known before the run, or what the name of this number holds.
#[derive(Clone, Copy)]
pub enum Operand {
    Number(i64),
    Register(u32),
}

/// One execution of a statement other than a loop or a condition, with all that is known before the run put in. Results
/// and registers are numbers of names.
#[derive(Clone, Copy)]
pub enum Action<'p> {
    /// A constant of type index, or a result of `affine.apply`, `min` or `max`: where it is used its value stands
    /// already.
    Known,
    /// A constant of an integer type.
    Sets {
        into: u32,
        value: i64,
    },
    Loads {
        into: u32,
        place: Place,
    },
    Stores {
        value: Operand,
        place: Place,
    },
    /// A load whose subscripts are values. They stand in the list of subscripts that the walk has beside it.
    RawLoads {
        into: u32,
        home: Option<Home>,
        sizes: &'p [u32],
    },
    /// A store whose subscripts are values. They stand in the list of subscripts that the walk has beside it.
    RawStores {
        value: Operand,
        home: Option<Home>,
        sizes: &'p [u32],
    },
    Operates {
        into: u32,
        op: Op,
        ty: Scalar,
        left: Operand,
        right: Operand,
    },
    Converts {
        into: u32,
        kind: CastKind,
        from: Scalar,
        to: Scalar,
        value: Operand,
    },
    /// A fast memref: its number, its element and its sizes, of which the first counts its halves.
    Allocates {
        number: u32,
        element: Element,
        sizes: &'p [u32],
    },
    Releases {
        number: u32,
        element: Element,
        sizes: &'p [u32],
    },
    /// Tags: the number of the first one, and how many.
    AllocatesTags {
        first: u32,
        count: u32,
    },
    ReleasesTags {
        first: u32,
        count: u32,
    },
    Starts(Transfer),
    /// The number of the tag, and the count of elements.
    Waits {
        tag: u32,
        count: u64,
    },
    /// A start or a wait that its static part makes a fault.
    Faults(FaultKind),
    Returns,
}
