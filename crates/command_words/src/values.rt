// The values at the places of a list.
ghost use Rattle.std.specs.Prelude.{◌≡◌};
ghost use Rattle.command_words.specs.Values as spec;

use crate::options::Value;

/// Whether the flag at a place is given.
pub fn flag_at(values: &[Value], place: usize) -> bool
    ensures { result ≡ spec.flag_at values.now place }
{
    match values.get(place) {
        Some(Value::Flag(given)) => *given,
        _ => false,
    }
}

/// The number at a place, and 0 where none stands there.
pub fn integer_at(values: &[Value], place: usize) -> i64
    ensures { result ≡ spec.integer_at values.now place }
{
    match values.get(place) {
        Some(Value::Number(number)) => *number,
        _ => 0,
    }
}

/// The number at a place, and 0 where none from 0 on stands there.
pub fn natural_at(values: &[Value], place: usize) -> u64
    ensures { result ≡ spec.natural_at values.now place }
{
    let number = integer_at(values, place);
    if number >= 0 { number as u64 } else { 0 }
}

/// The number at a place, and 0 where none from 0 to 255 stands there.
pub fn byte_at(values: &[Value], place: usize) -> u8
    ensures { result ≡ spec.byte_at values.now place }
{
    let number = natural_at(values, place);
    if number < 256 { number as u8 } else { 0 }
}
