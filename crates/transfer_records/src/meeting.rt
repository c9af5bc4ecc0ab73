// Which places transfers have, and share.
ghost use Rattle.std.specs.Prelude.{◌≡◌, ◌≤◌, true};
ghost use Rattle.bus_model.specs.Places.{meets};
ghost use Rattle.direct_meaning.specs.Transfers.{overlap};
ghost use Rattle.transfer_records.specs.Found.{HasPlaces, EndsBefore};

use bus_model::{Transfer, meets};

/// Whether an element of a transfer with chunks that lie apart is at a slow place: the only one that may be is computed.
fn lies_at(transfer: &Transfer, place: u32) -> bool
    requires chunk { 1 ≤ transfer.now.chunk }
    requires apart { transfer.now.chunk ≤ transfer.now.stride }
    ensures { result ≡ meets transfer.now place }
{
    if place < transfer.base {
        return false;
    }
    let behind = place - transfer.base;
    let chunk = behind / transfer.stride;
    let inside = behind % transfer.stride;
    if inside >= transfer.chunk {
        return false;
    }
    chunk * transfer.chunk + inside < transfer.count
}

/// Whether an element of a transfer is at a slow place.
pub(crate) fn has_place(transfer: &Transfer, place: u32) -> bool
    requires { HasPlaces transfer.now }
    ensures { result ≡ meets transfer.now place }
{
    if transfer.chunk <= transfer.stride {
        lies_at(transfer, place)
    } else {
        meets(transfer, place)
    }
}

/// Whether the last place of a transfer with chunks that lie apart is before the first of another.
fn ends_before(one: &Transfer, other: &Transfer) -> bool
    requires { HasPlaces one.now }
    ensures { result ≡ true → EndsBefore one.now other.now }
{
    if one.stride < one.chunk || one.count == 0 {
        return false;
    }
    one.slow(one.count - 1) < other.base
}

/// The same as `overlap`, by going over the elements of the first.
fn shares(one: &Transfer, other: &Transfer) -> bool
    requires one { HasPlaces one.now }
    requires other { HasPlaces other.now }
    ensures { result ≡ overlap one.now other.now }
{
    for element in 0..one.count {
        if has_place(other, one.slow(element)) {
            return true;
        }
    }
    false
}

/// Whether two transfers share a slow place. No more elements are gone over than the shorter one has.
pub(crate) fn overlap(one: &Transfer, other: &Transfer) -> bool
    requires one { HasPlaces one.now }
    requires other { HasPlaces other.now }
    ensures { result ≡ overlap one.now other.now }
{
    if ends_before(one, other) {
        return false;
    }
    if ends_before(other, one) {
        return false;
    }
    if one.count <= other.count {
        shares(one, other)
    } else {
        shares(other, one)
    }
}
