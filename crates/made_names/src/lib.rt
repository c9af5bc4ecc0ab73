//! The names that templates make.
//!
//! A made name is none of a text: `made` is a part of a name. `specs/Made` says what the names of a placement are. They get the
//! numbers of a printed text once all templates have run.
#![tactic(auto)]

ghost use Rattle.std.specs.Prelude.{◌≡◌, ◌<◌, IfOk, ◌∷◌, []};
ghost use Rattle.std.specs.Char.{encode_utf8};
ghost use Rattle.made_names.specs.Law.{NamesAreTold};
ghost use Rattle.made_names.specs.Made.{made_name};

use affine_ast::{Name, Text};
use std::alloc::{AllocError, Global};

/// A character of ASCII.
fn letter(code: u32) -> char
    requires { code < 128 }
    ensures { encode_utf8 result ≡ code ∷ [] }
{
    code as u8 as char
}

/// The name in a slot of the placement of a number.
///
/// # Errors
///
/// `AllocError`, for want of memory alone.
pub fn made_name(alloc: Global, number: u32, slot: u32) -> Result<Name, AllocError>
    requires number { number < 262144 }
    requires slot { slot < 63 }
    ensures { IfOk result (λ name. name ≡ made_name number slot) }
{
    let mut text = String::new(alloc);
    text.push(letter(65 + slot))?;
    text.push(letter(48 + number % 64))?;
    text.push(letter(48 + number / 64 % 64))?;
    text.push(letter(48 + number / 64 / 64))?;
    Ok(Name {
        text: Text::from_string(text),
        made: true,
    })
}

/// A made name tells the placement that it is of, and its slot there; a name of a text is of none.
pub fn names_are_told()
    ensures { NamesAreTold }
{}
