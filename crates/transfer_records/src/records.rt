// What is asked of the outstanding transfers.
ghost use Rattle.std.specs.Prelude.{◌≡◌};
ghost use Rattle.std.specs.List.{All};
ghost use Rattle.prompt_semantics.specs.Device.{is_away, has_away, is_started, has_started, load_races, store_races, start_races};
ghost use Rattle.transfer_records.specs.Found.{Finds, HasPlaces};

use crate::meeting::{has_place, overlap};
use bus_model::Transfer;

/// Whether a half is away.
pub fn is_away(outstanding: &[Transfer], number: u32, half: u32) -> bool
    ensures { result ≡ is_away outstanding.now number half }
{
    outstanding
        .iter()
        .any(|t| t.fast == number && t.half == half)
}

/// Whether some half of a fast memref is away.
pub fn has_away(outstanding: &[Transfer], number: u32) -> bool
    ensures { result ≡ has_away outstanding.now number }
{
    outstanding.iter().any(|t| t.fast == number)
}

/// Whether a tag is started.
pub fn is_started(outstanding: &[Transfer], tag: u32) -> bool
    ensures { result ≡ is_started outstanding.now tag }
{
    outstanding.iter().any(|t| t.tag == tag)
}

/// Where the transfer of a tag stands among these, if the tag is started.
pub fn find(outstanding: &[Transfer], tag: u32) -> Option<usize>
    ensures { Finds outstanding.now tag result }
{
    for (place, transfer) in outstanding.iter().enumerate() {
        if transfer.tag == tag {
            return Some(place);
        }
    }
    None
}

/// Whether one of so many tags from the first on is started.
pub fn has_started(outstanding: &[Transfer], first: u32, count: u32) -> bool
    ensures { result ≡ has_started outstanding.now first count }
{
    let end = first as u64 + count as u64;
    outstanding
        .iter()
        .any(|t| first <= t.tag && (t.tag as u64) < end)
}

/// Whether a load from a slow place races with one of these.
pub fn load_races(outstanding: &[Transfer], place: u32) -> bool
    requires { All HasPlaces outstanding.now }
    ensures { result ≡ load_races outstanding.now place }
{
    for transfer in outstanding {
        if !transfer.incoming && has_place(transfer, place) {
            return true;
        }
    }
    false
}

/// Whether a store to a slow place races with one of these.
pub fn store_races(outstanding: &[Transfer], place: u32) -> bool
    requires { All HasPlaces outstanding.now }
    ensures { result ≡ store_races outstanding.now place }
{
    for transfer in outstanding {
        if has_place(transfer, place) {
            return true;
        }
    }
    false
}

/// Whether a start races with one of these.
pub fn start_races(outstanding: &[Transfer], start: &Transfer) -> bool
    requires outstanding { All HasPlaces outstanding.now }
    requires start { HasPlaces start.now }
    ensures { result ≡ start_races outstanding.now start.now }
{
    for transfer in outstanding {
        let may_race = !start.incoming || !transfer.incoming;
        if may_race && overlap(transfer, start) {
            return true;
        }
    }
    false
}
