// Names of a text.
ghost use Rattle.std.specs.Prelude.{◌≡◌, ◌&&◌, ◌++◌, true, IfOk, IfSome, option_copied};
ghost use Rattle.affine_grammar.specs.Token as tok;

use affine_ast::{Name, Text};
use affine_grammar::{Alias, Aliases};
use name_table::Names;
use std::alloc::{AllocError, Global};

/// Whether all bytes are ASCII.
fn is_ascii(bytes: &[u8]) -> bool
    ensures { result ≡ tok.all_ascii bytes.now }
{
    'bytes: for byte in bytes {
        if *byte >= 128 {
            return false;
        }
    }
    true
}

/// The bytes of a name as a text. Those of the names of a text are ASCII.
pub(crate) fn text_of(alloc: Global, bytes: &[u8]) -> Result<Text, AllocError>
    ensures { IfOk result (λ text. text ≡ tok.string_of bytes.now) }
{
    if !is_ascii(bytes) {
        return Ok(Text::from_string(String::new(alloc)));
    }
    match std::str::from_utf8(bytes) {
        Ok(name) => Ok(Text::from_string(String::from_str(alloc, name)?)),
        Err(_) => Ok(Text::from_string(String::new(alloc))),
    }
}

/// A name as a text has it.
pub(crate) fn named(alloc: Global, bytes: &[u8]) -> Result<Name, AllocError>
    ensures { IfOk result (λ name. name ≡ tok.named bytes.now) }
{
    Ok(Name {
        text: text_of(alloc, bytes)?,
        made: false,
    })
}

/// The number of a name in a list, counted from 0.
#[tactic(auto, using(crate::proofs::Lookup::number_by_place))]
pub(crate) fn number_of(text: &[u8], names: &Names) -> Option<usize>
    ensures { result ≡ tok.number_of text.now names.now }
{
    names.place_of(text)
}

/// The alias with a name.
#[tactic(auto, using(crate::proofs::Lookup::alias_by_name))]
pub(crate) fn alias_in<'a>(text: &[u8], aliases: &'a Aliases) -> Option<&'a Alias>
    ensures { option_copied result ≡ tok.alias_in text.now aliases.now }
{
    aliases.find(text)
}
