//! What a text is cut into.

/// The form of a token. Keywords and parameters are words; what a word, a name or a sign means is
/// the grammar's matter.
#[derive(Clone, Copy)]
pub enum Kind {
    /// A letter or `_`, and then letters, digits, `_`, `$` and `.`: a keyword or a parameter.
    Word,
    /// `%` with its digits or its id: the name of a value.
    Value,
    /// `#` with its id: the name of an alias.
    Alias,
    /// `@` with its id: the name of a function.
    Symbol,
    /// Decimal digits, whose value is at most 2^63. A `-` before them is a token of its own, and
    /// 2^63 is for the number that such a `-` turns into the least one of 64 bits.
    Int(u64),
    /// One of the signs of a single byte, which is held: `=` `{` `}` `(` `)` `,` `:` `[` `]` `<`
    /// `>` `+` `-` `*`.
    Punct(u8),
    /// `->`
    Arrow,
    /// `>=`
    GreaterEqual,
    /// `<=`
    LessEqual,
    /// `==`
    Equal,
    /// Decimal digits with an `x` right behind them, where the sizes of a memref type stand.
    Sizes,
    /// Digits of a value above 2^63, or a single byte that begins no token: a token that stands
    /// nowhere in the grammar.
    Bad,
    /// The end of the text, at the place after its last byte.
    End,
}

/// A token of a text: its form, its bytes and its place.
#[derive(Clone, Copy)]
pub struct Token {
    pub kind: Kind,
    /// The place of its first byte, counted in bytes from 0.
    pub from: usize,
    /// The place behind its last byte.
    pub to: usize,
    /// The line of its first byte, counted from 1.
    pub line: u32,
    /// The column of its first byte in that line, counted in bytes from 1.
    pub column: u32,
}
