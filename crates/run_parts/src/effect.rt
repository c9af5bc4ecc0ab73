// What is left of actions.

use affine_ast::Element;
use bus_model::{FaultKind, Transfer};
use walk_actions::Place;

/// What an action asks of names and memories, once its operands are read.
#[derive(Clone, Copy)]
pub enum Effect<'p> {
    Nothing,
    /// A name's new value.
    Sets {
        into: u32,
        value: i64,
    },
    Loads {
        into: u32,
        place: Place,
    },
    Stores {
        value: i64,
        place: Place,
    },
    /// A fast memref: its number, its element and its sizes, of which the first counts its halves.
    Allocates {
        number: u32,
        element: Element,
        sizes: &'p [u32],
    },
    Releases {
        number: u32,
        element: Element,
        sizes: &'p [u32],
    },
    /// Tags: the number of the first one, and how many.
    ReleasesTags {
        first: u32,
        count: u32,
    },
    Starts(Transfer),
    /// The number of the tag, and the count of elements.
    Waits {
        tag: u32,
        count: u64,
    },
    /// A division without a result, or a start or a wait that its static part makes a fault.
    Faults(FaultKind),
}
