// The seats, as callers see them.
use crate::view::{Parcel, RawSeat};
use std::marker::Model;

/// The compute thread's seat. A contract sees its bus, the prompt memory, each tag's started transfer with the list of its
/// half, and the tags and words that its exchanges met. Between two calls it holds no slot.
#[derive(Drop)]
pub struct ComputeSeat {
    pub(crate) seat: RawSeat,
}

impl Model for ComputeSeat {
    ghost use Rattle.tag_table.specs.Shapes.{ComputeShape, seen_compute, compute_of, IsComputeMe};

    ghost Value = { ComputeShape };

    ghost view = { λ s. seen_compute s.seat.table_id (compute_of s.seat.me.0) };

    ghost invariant = { λ s. IsComputeMe s.seat.me };
}

/// An engine's seat, and the parcel that it has taken. A contract sees its bus, its number, the transfer that it holds, as
/// it stands, and the tags and words that its exchanges met.
#[derive(Drop)]
pub struct EngineSeat {
    pub(crate) seat: RawSeat,
    pub(crate) held: Option<(u32, Parcel)>,
}

impl Model for EngineSeat {
    ghost use Rattle.tag_table.specs.Shapes.{EngineShape, seen_engine, engine_of, IsEngineMe, IsFitting};

    ghost Value = { EngineShape };

    ghost view = { λ s. seen_engine s.seat.table_id (engine_of s.seat.me.0) };

    ghost invariant = { λ s. IsEngineMe s.seat.me s.held × IsFitting s.seat.table_id (engine_of s.seat.me.0) };
}
