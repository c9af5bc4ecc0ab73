// The outstanding transfers, and which of them wait for an engine.
ghost use Rattle.std.specs.Prelude.{◌≡◌, ℕ, ◌<◌, ◌≤◌, ◌^◌, ◌∷◌, [], ◌++◌, length, vec_capacity, slice_get, MatchOption, Some, None, true, nat_eq, nat_lt, not};
ghost use Rattle.std.specs.List.{filter};
ghost use Rattle.std.specs.Bool.{MatchBool};
ghost use Rattle.bus_model.specs.Engines.{Flight, flight_of, with_flight, with_engine};
ghost use Rattle.order_meaning.specs.Machine.{held_by, sent, is_finished, without_flight};
ghost use Rattle.order_meaning.specs.Listed.{Has, IsAscending, engine_steps, steps_from};
ghost use Rattle.order_engines.specs.Flying.{flight, flights_of, FliesWithin, MayTake, MayFinish, MayMove, Changed, IsMoved};
ghost use Rattle.order_engines.specs.Waiting.{IsFlights, IsPut, IsSame};

use crate::engines::{finish, held_by, move_next, place_of, take};
use crate::flying::Flying;
use bus_model::{Step, Transfer};

/// The outstanding transfers in the order of their starts, and the tags of those that an engine can take, ascending.
#[derive(Drop)]
pub struct Flights {
    pub flying: Vec<Flying>,
    pub waiting: Vec<u32>,
}

/// Takes a tag out of a list.
fn leave_out(tags: &mut Vec<u32>, tag: u32)
    ensures items { tags.new.items ≡ filter (λ t. not (nat_eq t tag)) tags.old.items }
    ensures room { vec_capacity tags.new ≡ vec_capacity tags.old }
{
    tags.retain(|other| *other != tag);
}

/// How many tags of a list are smaller.
fn smaller(tags: &[u32], tag: u32) -> usize
    ensures value { result ≡ length (filter (λ t. nat_lt t tag) tags.now) }
    ensures bound { result ≤ length tags.now }
{
    tags.iter().filter(|other| **other < tag).count()
}

/// Puts a tag into an ascending list without it.
fn put_in(tags: &mut Vec<u32>, tag: u32)
    requires ascending { IsAscending tags.old.items }
    requires others { Has tags.old.items tag → ⊥ }
    requires room { length tags.old.items < vec_capacity tags.old }
    ensures items { IsPut tag tags.old.items tags.new.items }
    ensures room { vec_capacity tags.new ≡ vec_capacity tags.old }
{
    let place = smaller(tags.as_slice(), tag);
    let _ = tags.insert(place, tag);
}

impl Flights {
    /// How many steps an engine can make.
    fn steps_of(&self, engine: u32) -> u64
        ensures { result ≡ length (engine_steps self.now.waiting.items engine (held_by (flights_of self.now.flying.items) engine)) }
    {
        match held_by(self.flying.as_slice(), engine) {
            Some(_) => 1,
            None => self.waiting.len() as u64,
        }
    }

    /// A step of an engine by its number; none past the last.
    fn step_of(&self, engine: u32, n: u64) -> Option<Step>
        ensures { result ≡ slice_get (engine_steps self.now.waiting.items engine (held_by (flights_of self.now.flying.items) engine)) n }
    {
        match held_by(self.flying.as_slice(), engine) {
            Some(place) => {
                if n != 0 {
                    return None;
                }
                if self.flying[place].moved < self.flying[place].transfer.count {
                    Some(Step::Move { engine })
                } else {
                    Some(Step::Finish { engine })
                }
            }
            None => {
                let tag = *self.waiting.get(n as usize)?;
                Some(Step::Take { engine, tag })
            }
        }
    }

    /// How many steps so many engines can make.
    pub fn enabled(&self, engines: u32) -> u64
        requires { length self.now.waiting.items < 2 ^ 31 }
        ensures { result ≡ length (steps_from (flights_of self.now.flying.items) self.now.waiting.items 0 engines) }
    {
        let mut count = 0u64;
        for engine in 0..engines {
            count += self.steps_of(engine);
        }
        count
    }

    /// A step of so many engines by its number; none past the last.
    pub fn nth(&self, engines: u32, n: u64) -> Option<Step>
        ensures { result ≡ slice_get (steps_from (flights_of self.now.flying.items) self.now.waiting.items 0 engines) n }
    {
        let mut left = n;
        for engine in 0..engines {
            let own = self.steps_of(engine);
            if left < own {
                return self.step_of(engine, left);
            }
            left -= own;
        }
        None
    }

    /// An idle engine takes a tag's transfer, of which nothing is moved and that no engine holds. False, with nothing
    /// changed, where it may not.
    pub fn take(&mut self, engines: u32, engine: u32, tag: u32) -> bool
        requires { (slow : ℕ) × IsFlights slow self.old }
        ensures takes { MatchBool result
            (MayTake engines engine tag (flights_of self.old.flying.items) × (flights_of self.new.flying.items ≡ with_flight (flights_of self.old.flying.items) tag (with_engine (Some engine))))
            ((MayTake engines engine tag (flights_of self.old.flying.items) → ⊥) × IsSame self.old self.new) }
        ensures kept { (slow : ℕ) → IsFlights slow self.old → IsFlights slow self.new }
        ensures room { vec_capacity self.new.flying ≡ vec_capacity self.old.flying }
        ensures waiting_room { vec_capacity self.new.waiting ≡ vec_capacity self.old.waiting }
    {
        if !take(self.flying.as_mut_slice(), engines, engine, tag) {
            return false;
        }
        leave_out(&mut self.waiting, tag);
        true
    }

    /// An engine lets go of its transfer, of which all is moved. False, with nothing changed, where it may not.
    pub fn finish(&mut self, engines: u32, engine: u32) -> bool
        requires { (slow : ℕ) × IsFlights slow self.old }
        ensures finishes { MatchBool result
            (MayFinish engines engine (flights_of self.old.flying.items) × Changed self.old.flying.items (flights_of self.new.flying.items) engine (with_engine None))
            ((MayFinish engines engine (flights_of self.old.flying.items) → ⊥) × IsSame self.old self.new) }
        ensures kept { (slow : ℕ) → IsFlights slow self.old → IsFlights slow self.new }
        ensures room { vec_capacity self.new.flying ≡ vec_capacity self.old.flying }
        ensures waiting_room { vec_capacity self.new.waiting ≡ vec_capacity self.old.waiting }
    {
        finish(self.flying.as_mut_slice(), engines, engine)
    }

    /// The engine of a transfer moves its next element. False, with nothing changed, where none is left or it holds no
    /// transfer.
    pub fn move_next(&mut self, slow: &mut [i64], engines: u32, engine: u32) -> bool
        requires { IsFlights (length slow.old) self.old }
        ensures moves { MatchBool result
            (MayMove engines engine (flights_of self.old.flying.items) × IsMoved slow.old self.old.flying.items engine slow.new (flights_of self.new.flying.items))
            ((MayMove engines engine (flights_of self.old.flying.items) → ⊥) × IsSame self.old self.new × (slow.new ≡ slow.old)) }
        ensures kept { IsFlights (length slow.new) self.new }
        ensures room { vec_capacity self.new.flying ≡ vec_capacity self.old.flying }
        ensures waiting_room { vec_capacity self.new.waiting ≡ vec_capacity self.old.waiting }
    {
        move_next(slow, self.flying.as_mut_slice(), engines, engine)
    }

    /// A transfer is outstanding from here on, behind the others, with its half's cells. Nothing of it is moved, and no
    /// engine holds it.
    pub fn start(&mut self, transfer: Transfer, cells: Vec<i64>)
        requires kept { (slow : ℕ) × IsFlights slow self.old }
        requires idle { flight_of (flights_of self.old.flying.items) transfer.tag ≡ None }
        requires room { length self.old.flying.items < vec_capacity self.old.flying }
        requires waiting_room { length self.old.waiting.items < vec_capacity self.old.waiting }
        ensures flights { flights_of self.new.flying.items ≡ flights_of self.old.flying.items ++ sent transfer cells.items ∷ [] }
        ensures kept { (slow : ℕ) → FliesWithin slow (sent transfer cells.items) → IsFlights slow self.old → IsFlights slow self.new }
        ensures room { vec_capacity self.new.flying ≡ vec_capacity self.old.flying }
        ensures waiting_room { vec_capacity self.new.waiting ≡ vec_capacity self.old.waiting }
    {
        put_in(&mut self.waiting, transfer.tag);
        self.flying.push_reserved(Flying {
            transfer,
            cells,
            moved: 0,
            engine: None,
        });
    }

    /// Takes the transfer of a tag off, finished, with its half's cells. None, with nothing changed, where the tag
    /// isn't started.
    pub fn collect(&mut self, tag: u32) -> Option<Flying>
        requires kept { (slow : ℕ) × IsFlights slow self.old }
        requires finished { (f : Flight) → flight_of (flights_of self.old.flying.items) tag ≡ Some f → is_finished f ≡ true }
        ensures collected { MatchOption result
            ((flight_of (flights_of self.old.flying.items) tag ≡ None) × IsSame self.old self.new)
            (λ f. (flight_of (flights_of self.old.flying.items) tag ≡ Some (flight f)) × (flights_of self.new.flying.items ≡ without_flight tag (flights_of self.old.flying.items))) }
        ensures kept { (slow : ℕ) → IsFlights slow self.old → IsFlights slow self.new }
        ensures room { vec_capacity self.new.flying ≡ vec_capacity self.old.flying }
        ensures waiting { self.new.waiting ≡ self.old.waiting }
    {
        let Some(place) = place_of(self.flying.as_slice(), tag) else {
            return None;
        };
        Some(self.flying.remove(place))
    }
}
