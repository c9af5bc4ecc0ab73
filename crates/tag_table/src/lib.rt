//! Words and tags that one compute thread and any number of engine threads share.
//!
//! The slow memory is a row of words. Each tag has a word, 0 for free, 1 for ready, 2 for taken, 3 for done and 4 for held,
//! and a slot, through which a transfer's parcel goes from the compute thread to an engine and back. Contracts speak of the
//! prompt memory, in which each transfer was copied at its start. The rule of the bus (`specs/Rule`) says how words, slots
//! and what each thread knows belong together. It holds between any two atomic steps of any threads, and each step does
//! what its entry in `specs/Steps` says. So a loaded word is the prompt one, and a collected parcel has the prompt cells.
//!
//! Nothing here waits, and only `Bus::new` takes memory. The crate stands on `atomic_table`, for the atomic steps, and on
//! the transfers and the ledger of `bus_model`.
#![tactic(auto)]

mod bus;
mod seats;
mod steps;
mod view;

pub use bus::{Bus, NotReady, NotYet};
pub use seats::{ComputeSeat, EngineSeat};
pub use view::{ComputeView, EngineView, Layout, Parcel, View, Work};

fn shares<T: Sync>(_: &T) {}

fn moves<T: Send>(_: &T) {}

/// A bus may be shared by threads, and seats and parcels may be moved between them.
pub fn may_cross_threads(bus: &Bus, compute: &ComputeSeat, engine: &EngineSeat, parcel: &Parcel) {
    shares(bus);
    moves(compute);
    moves(engine);
    moves(parcel);
}
