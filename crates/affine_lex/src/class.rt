//! The sets of bytes that the forms of tokens, white space and comments are made of.

ghost use Rattle.std.specs.Prelude.{◌≡◌};
ghost use Rattle.affine_lex.specs.Classes as spec;

/// A set of bytes.
#[derive(Clone, Copy)]
pub(crate) enum Class {
    /// Space, tab, carriage return and line feed.
    White,
    /// A decimal digit.
    Digit,
    /// What begins a word.
    WordFirst,
    /// What goes on with a word.
    Word,
    /// What begins an id.
    IdFirst,
    /// What goes on with an id.
    Id,
    /// What stands in a line: all but the line feed.
    InLine,
}

pub(crate) fn is_in(class: Class, byte: u8) -> bool
    ensures { result ≡ spec.is_in class byte }
{
    match class {
        Class::White => byte == b' ' || byte == b'\t' || byte == b'\r' || byte == b'\n',
        Class::Digit => byte.is_ascii_digit(),
        Class::WordFirst => byte.is_ascii_alphabetic() || byte == b'_',
        Class::Word => byte.is_ascii_alphanumeric() || byte == b'_' || byte == b'$' || byte == b'.',
        Class::IdFirst => byte.is_ascii_alphabetic()
            || byte == b'_'
            || byte == b'$'
            || byte == b'.',
        Class::Id => {
            byte.is_ascii_alphanumeric()
                || byte == b'_'
                || byte == b'$'
                || byte == b'.'
                || byte == b'-'
        }
        Class::InLine => byte != b'\n',
    }
}

/// Whether the byte alone is a token.
pub(crate) fn is_sign(byte: u8) -> bool
    ensures { result ≡ spec.is_sign byte }
{
    byte == b'='
        || byte == b'{'
        || byte == b'}'
        || byte == b'('
        || byte == b')'
        || byte == b','
        || byte == b':'
        || byte == b'['
        || byte == b']'
        || byte == b'<'
        || byte == b'>'
        || byte == b'+'
        || byte == b'-'
        || byte == b'*'
}
