//! What lies between two tokens, and what a token leaves behind for the next one.

ghost use Rattle.std.specs.Prelude.{◌≡◌, ◌<◌, ◌≤◌, ◌+◌, ◌^◌, length};
ghost use Rattle.affine_lex.specs.Scan as spec;

use crate::class::{Class, is_in};
use crate::lexeme::byte_at;
use crate::token::Kind;

/// What the tokens so far end with, as far as it tells whether sizes may stand next.
#[derive(Clone, Copy)]
pub(crate) enum Context {
    /// With neither of the two below.
    Plain,
    /// With the word `memref`.
    Memref,
    /// With `memref` and `<`, or with sizes: further sizes may stand next.
    Sizes,
}

/// A line and a column, both counted from 1.
#[derive(Clone, Copy)]
pub(crate) struct Place {
    pub(crate) line: u32,
    pub(crate) column: u32,
}

/// How many bytes of white space and comments come first.
#[tactic(auto, unfolding(crate::specs::Scan::gap))]
pub(crate) fn gap(bytes: &[u8]) -> usize
    ensures value { result ≡ spec.gap bytes.now }
    ensures within { result ≤ length bytes.now }
{
    let mut at = 0;
    let mut comment = false;
    while at < bytes.len() {
        if comment {
            comment = bytes[at] != b'\n';
        } else if bytes[at] == b'/' && byte_at(bytes, at + 1) == b'/' {
            comment = true;
        } else if !is_in(Class::White, bytes[at]) {
            return at;
        }
        at += 1;
    }
    at
}

/// The place behind one byte more.
fn step(place: Place, byte: u8) -> Place
    requires line { place.line + 1 < 2 ^ 32 }
    requires column { place.column + 1 < 2 ^ 32 }
    ensures { result ≡ spec.stepped place byte }
{
    if byte == b'\n' {
        Place {
            line: place.line + 1,
            column: 1,
        }
    } else {
        Place {
            line: place.line,
            column: place.column + 1,
        }
    }
}

/// The place behind these bytes more.
#[tactic(auto, unfolding(crate::specs::Scan::place_from))]
pub(crate) fn walk(place: Place, bytes: &[u8]) -> Place
    requires line { place.line + length bytes.now < 2 ^ 32 }
    requires column { place.column + length bytes.now < 2 ^ 32 }
    requires some { 0 < place.column }
    ensures value { result ≡ spec.place_from place bytes.now }
    ensures line { result.line ≤ place.line + length bytes.now }
    ensures column { result.column ≤ place.column + length bytes.now }
    ensures some { 0 < result.column }
{
    let mut here = place;
    for byte in bytes {
        here = step(here, *byte);
    }
    here
}

pub(crate) fn in_sizes(context: Context) -> bool
    ensures { result ≡ spec.in_sizes context }
{
    match context {
        Context::Sizes => true,
        Context::Plain | Context::Memref => false,
    }
}

/// What the tokens end with, once a token of this kind and text has come behind the others.
pub(crate) fn after(context: Context, kind: Kind, text: &[u8]) -> Context
    ensures { result ≡ spec.after context kind text.now }
{
    match kind {
        Kind::Word => {
            if text == b"memref".as_slice() {
                Context::Memref
            } else {
                Context::Plain
            }
        }
        Kind::Punct(sign) => match context {
            Context::Memref => {
                if sign == b'<' {
                    Context::Sizes
                } else {
                    Context::Plain
                }
            }
            Context::Plain | Context::Sizes => Context::Plain,
        },
        Kind::Sizes => Context::Sizes,
        Kind::Value
        | Kind::Alias
        | Kind::Symbol
        | Kind::Int(_)
        | Kind::Arrow
        | Kind::GreaterEqual
        | Kind::LessEqual
        | Kind::Equal
        | Kind::Bad
        | Kind::End => Context::Plain,
    }
}
