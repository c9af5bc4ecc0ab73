//! Transfer engines: what a thread does that serves the tags of a bus.
//!
//! `serve_one` tries the tags in ascending order, and serves the first ready transfer whole. It waits for nothing and takes
//! no memory. `serve_until` does so until a flag is set, and may wait. A `Gate` is called round an engine's steps, so that a
//! test can hold them up; it answers nothing that changes a result. `serve_gated` is `serve_one` with a gate. The crate
//! stands on `tag_table`.
#![tactic(auto)]

ghost use Rattle.std.specs.Prelude.{◌≡◌, ℕ, ◌<◌, ◌≤◌, List, [], ◌∷◌, ◌++◌, Some, MatchOption, true};
ghost use Rattle.std.specs.Bool.{MatchBool};
ghost use Rattle.tag_table.specs.declared.view.Work.{Work};
ghost use Rattle.tag_table.specs.Shapes.{IsIdle, with_work};
ghost use Rattle.dma_engine.specs.Met.{Missed, with_met};

use std::sync::Wait;
use std::sync::atomic::{AtomicBool, Ordering};
use std::thread;
use tag_table::{Bus, EngineSeat};

/// What is called round the steps of a run. No call waits for anybody or changes a result.
pub trait Gate {
    /// An engine is about to try a tag.
    fn before_take(&self, engine: u32, tag: u32);

    /// An engine has taken the transfer of a tag.
    fn after_take(&self, engine: u32, tag: u32);

    /// An engine has moved all elements of a tag's transfer, and is about to give it back.
    fn before_finish(&self, engine: u32, tag: u32);

    /// The compute thread is about to store a number, in slow memory or in a half.
    fn before_store(&self);

    /// The compute thread has stored it, or a fault kept it from that.
    fn after_store(&self);

    /// The compute thread is about to collect the transfer of a tag.
    fn before_collect(&self, tag: u32);

    /// Whether the compute thread may serve as an engine while it waits.
    fn may_help(&self) -> bool;
}

/// The gate that holds nothing up.
#[derive(Clone, Copy)]
pub struct OpenGate;

impl Gate for OpenGate {
    fn before_take(&self, _engine: u32, _tag: u32) {}

    fn after_take(&self, _engine: u32, _tag: u32) {}

    fn before_finish(&self, _engine: u32, _tag: u32) {}

    fn before_store(&self) {}

    fn after_store(&self) {}

    fn before_collect(&self, _tag: u32) {}

    fn may_help(&self) -> bool
        ensures { result ≡ true }
    {
        true
    }
}

/// Tries the tags in ascending order, and serves the first ready transfer whole. False where no tag was ready when it was
/// tried.
pub fn serve_one(bus: &Bus, seat: &mut EngineSeat) -> bool
    requires { IsIdle bus.now.id seat.old }
    ensures { MatchBool result
        ((ms : List (ℕ × ℕ)) × (t : ℕ) × (t < bus.now.tags) × Missed t ms × (seat.new ≡ with_met seat.old (ms ++ (t, 1) ∷ [])))
        ((ms : List (ℕ × ℕ)) × Missed bus.now.tags ms × (seat.new ≡ with_met seat.old ms)) }
{
    serve_gated(bus, seat, 0, &OpenGate)
}

/// Serves until the flag is set. The engine is then idle. The flag alone ends it, so it may wait for ever.
pub fn serve_until<R: Wait, G: Gate>(
    rt: &R,
    bus: &Bus,
    seat: &mut EngineSeat,
    engine: u32,
    gate: &G,
    closing: &AtomicBool,
)
    requires { IsIdle bus.now.id seat.old }
    ensures { IsIdle bus.now.id seat.new }
{
    for _ in rt.forever() {
        if closing.load(Ordering::SeqCst) {
            break;
        }
        if !serve_gated(bus, seat, engine, gate) {
            thread::yield_now();
        }
    }
}

/// `serve_one` as an engine of this number, with a gate round its steps.
pub fn serve_gated<G: Gate>(bus: &Bus, seat: &mut EngineSeat, engine: u32, gate: &G) -> bool
    requires { IsIdle bus.now.id seat.old }
    ensures { MatchBool result
        ((ms : List (ℕ × ℕ)) × (t : ℕ) × (t < bus.now.tags) × Missed t ms × (seat.new ≡ with_met seat.old (ms ++ (t, 1) ∷ [])))
        ((ms : List (ℕ × ℕ)) × Missed bus.now.tags ms × (seat.new ≡ with_met seat.old ms)) }
{
    let Some(tag) = take_first(bus, seat, engine, gate) else {
        return false;
    };
    move_all(bus, seat);
    gate.before_finish(engine, tag);
    bus.finish(seat);
    true
}

// Tries the tags in ascending order, and takes the first ready transfer.
fn take_first<G: Gate>(bus: &Bus, seat: &mut EngineSeat, engine: u32, gate: &G) -> Option<u32>
    requires { IsIdle bus.now.id seat.old }
    ensures { MatchOption result
        ((ms : List (ℕ × ℕ)) × Missed bus.now.tags ms × (seat.new ≡ with_met seat.old ms))
        (λ t. (ms : List (ℕ × ℕ)) × (w : Work) × (t < bus.now.tags) × Missed t ms × (w.moved ≡ 0) × (seat.new ≡ with_work (with_met seat.old (ms ++ (t, 1) ∷ [])) (Some w))) }
{
    for tag in 0..bus.tags() {
        gate.before_take(engine, tag);
        match bus.try_take(seat, tag) {
            Ok(()) => {
                gate.after_take(engine, tag);
                return Some(tag);
            }
            Err(_) => {}
        }
    }
    None
}

// Moves what is left of the transfer that the engine holds.
fn move_all(bus: &Bus, seat: &mut EngineSeat)
    requires { (seat.old.id ≡ bus.now.id) × ((w : Work) × (seat.old.work ≡ Some w) × (w.moved ≤ w.transfer.count)) }
    ensures { (w : Work) × (seat.new ≡ with_work seat.old (Some w)) × (w.moved ≡ w.transfer.count) }
{
    while bus.move_one(seat) {}
}
