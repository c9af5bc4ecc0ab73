// The steps of engines, over the outstanding transfers in the order of their starts.
ghost use Rattle.std.specs.Prelude.{◌≡◌, ℕ, ◌<◌, length, slice_get, MatchOption, Some, None};
ghost use Rattle.std.specs.Bool.{MatchBool};
ghost use Rattle.bus_model.specs.Engines.{flight_of, with_flight, with_engine};
ghost use Rattle.order_meaning.specs.Machine.{held_by};
ghost use Rattle.order_engines.specs.Flying.{flight, flights_of, IsPlaceOf, MayTake, MayFinish, MayMove, AreApart, AllFlyWithin, Changed, IsMoved};

use crate::flying::Flying;

/// The place of an engine's transfer among the outstanding ones.
pub fn held_by(flights: &[Flying], engine: u32) -> Option<usize>
    ensures { MatchOption result
        (held_by (flights_of flights.now) engine ≡ None)
        (λ k. (f : Flying) × (slice_get flights.now k ≡ Some f) × (held_by (flights_of flights.now) engine ≡ Some (flight f))) }
{
    for k in 0..flights.len() {
        if flights[k].engine == Some(engine) {
            return Some(k);
        }
    }
    None
}

/// The place of a tag's transfer among the outstanding ones.
pub fn place_of(flights: &[Flying], tag: u32) -> Option<usize>
    ensures { MatchOption result
        (flight_of (flights_of flights.now) tag ≡ None)
        (λ k. (f : Flying) × IsPlaceOf flights.now tag k f) }
{
    for k in 0..flights.len() {
        if flights[k].transfer.tag == tag {
            return Some(k);
        }
    }
    None
}

/// An idle engine takes a tag's transfer, of which nothing is moved and that no engine holds. False, with nothing
/// changed, where it may not.
pub fn take(flights: &mut [Flying], engines: u32, engine: u32, tag: u32) -> bool
    ensures { MatchBool result
        (MayTake engines engine tag (flights_of flights.old) × (flights_of flights.new ≡ with_flight (flights_of flights.old) tag (with_engine (Some engine))))
        ((MayTake engines engine tag (flights_of flights.old) → ⊥) × (flights.new ≡ flights.old)) }
{
    if engine >= engines {
        return false;
    }
    if held_by(flights, engine).is_some() {
        return false;
    }
    let Some(k) = place_of(flights, tag) else {
        return false;
    };
    if flights[k].engine.is_some() {
        return false;
    }
    if flights[k].moved != 0 {
        return false;
    }
    flights[k].engine = Some(engine);
    true
}

/// An engine lets go of its transfer, of which all is moved. False, with nothing changed, where it may not.
pub fn finish(flights: &mut [Flying], engines: u32, engine: u32) -> bool
    requires { AreApart flights.old }
    ensures { MatchBool result
        (MayFinish engines engine (flights_of flights.old) × Changed flights.old (flights_of flights.new) engine (with_engine None))
        ((MayFinish engines engine (flights_of flights.old) → ⊥) × (flights.new ≡ flights.old)) }
{
    if engine >= engines {
        return false;
    }
    let Some(k) = held_by(flights, engine) else {
        return false;
    };
    if flights[k].moved != flights[k].transfer.count {
        return false;
    }
    flights[k].engine = None;
    true
}

/// The engine of a transfer moves its next element. False, with nothing changed, where none is left or it holds no
/// transfer.
pub fn move_next(slow: &mut [i64], flights: &mut [Flying], engines: u32, engine: u32) -> bool
    requires apart { AreApart flights.old }
    requires within { AllFlyWithin (length slow.old) (flights_of flights.old) }
    ensures { MatchBool result
        (MayMove engines engine (flights_of flights.old) × IsMoved slow.old flights.old engine slow.new (flights_of flights.new))
        ((MayMove engines engine (flights_of flights.old) → ⊥) × (flights.new ≡ flights.old) × (slow.new ≡ slow.old)) }
{
    if engine >= engines {
        return false;
    }
    let Some(k) = held_by(flights, engine) else {
        return false;
    };
    if flights[k].moved >= flights[k].transfer.count {
        return false;
    }
    flights[k].move_next(slow);
    true
}
