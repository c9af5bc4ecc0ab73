// The wait for a transfer.
ghost use Rattle.std.specs.Prelude.{◌≡◌, ◌<◌, Some, None, slice_set};
ghost use Rattle.bus_model.specs.declared.transfer.Started.{Started};
ghost use Rattle.tag_table.specs.Rule.{started_at};
ghost use Rattle.tag_table.specs.Shapes.{IsIdle};

use dma_engine::{Gate, serve_gated};
use std::sync::Wait;
use std::thread;
use tag_table::{Bus, ComputeSeat, EngineSeat, Parcel};

/// Serves as engine 0 where the gate lets it. False where no transfer was served.
fn help<G: Gate>(bus: &Bus, helper: &mut EngineSeat, gate: &G) -> bool
    requires { IsIdle bus.now.id helper.old }
    ensures { IsIdle bus.now.id helper.new }
{
    if !gate.may_help() {
        return false;
    }
    serve_gated(bus, helper, 0, gate)
}

/// Takes a started transfer back, and serves as an engine until one is done with it.
pub fn wait_for<R: Wait, G: Gate>(
    rt: &R,
    bus: &Bus,
    gate: &G,
    seat: &mut ComputeSeat,
    helper: &mut EngineSeat,
    tag: u32,
) -> Parcel
    requires seat { seat.old.id ≡ bus.now.id }
    requires helper { IsIdle bus.now.id helper.old }
    requires tag { tag < bus.now.tags }
    requires started { (st : Started) × (started_at seat.old.tags tag ≡ Some st) }
    ensures seat { (seat.new.id ≡ seat.old.id) × (seat.new.prompt ≡ seat.old.prompt)
        × (seat.new.tags ≡ slice_set seat.old.tags tag None) }
    ensures helper { IsIdle bus.now.id helper.new }
    ensures parcel { (st : Started) → started_at seat.old.tags tag ≡ Some st
        → (result.transfer ≡ st.transfer) × (result.cells.items ≡ st.list) × (result.moved ≡ st.transfer.count) }
{
    for _ in rt.forever() {
        match bus.try_collect(seat, tag) {
            Ok(parcel) => return parcel,
            Err(_) => {}
        }
        if !help(bus, helper, gate) {
            thread::yield_now();
        }
    }
    unreachable!()
}
