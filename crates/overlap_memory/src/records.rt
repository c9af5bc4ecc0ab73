// The outstanding transfers, in the order of their starts.
ghost use Rattle.std.specs.Prelude.{◌≡◌, [], ◌∷◌, ◌++◌, ◌<◌, length, Some, None, MatchOption, vec_capacity};
ghost use Rattle.std.specs.List.{remove};
ghost use Rattle.bus_model.specs.declared.transfer.Transfer.{Transfer};
ghost use Rattle.prompt_semantics.specs.Device.{record_of, without};

use bus_model::Transfer;
use transfer_records::find;

/// Where the record of a tag stands, and the record.
pub fn position(records: &[Transfer], tag: u32) -> Option<(usize, Transfer)>
    ensures { MatchOption result (record_of tag records.now ≡ None)
        (λ r. (r.0 < length records.now) × (record_of tag records.now ≡ Some r.1)
        × (without tag records.now ≡ remove records.now r.0)) }
{
    match find(records, tag) {
        Some(place) => Some((place, records[place])),
        None => None,
    }
}

/// The first record.
pub fn first(records: &[Transfer]) -> Option<Transfer>
    ensures { MatchOption result (records.now ≡ []) (λ t. (0 < length records.now)
        × (record_of t.tag records.now ≡ Some t) × (without t.tag records.now ≡ remove records.now 0)) }
{
    if records.is_empty() {
        return None;
    }
    Some(records[0])
}

/// Puts a record behind all others. The others keep their order.
pub fn move_to_the_end(records: &mut [Transfer], place: usize)
    requires { place < length records.old }
    ensures { (last : Transfer) × (records.new ≡ remove records.old place ++ last ∷ []) }
{
    records[place..].rotate_left(1);
}

/// Takes a record off the list.
pub fn forget(records: &mut Vec<Transfer>, place: usize)
    requires { place < length records.old.items }
    ensures items { records.new.items ≡ remove records.old.items place }
    ensures capacity { vec_capacity records.new ≡ vec_capacity records.old }
{
    move_to_the_end(records.as_mut_slice(), place);
    records.pop();
}
