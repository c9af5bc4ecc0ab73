//! The tokens of a text, one by one.

ghost use Rattle.std.specs.Prelude.{◌≡◌, ◌<◌, ◌++◌, ◌∷◌, [], List, length, None, IfOk};
ghost use Rattle.affine_lex.specs.Scan.{with_next};
ghost use Rattle.affine_lex.specs.Tokens.{AreTokens, text_end as end_token};
ghost use Rattle.affine_lex.specs.declared.token.Token.{Token};

use crate::lexeme::token;
use crate::lexer::{Context, Place, after, gap, in_sizes, walk};
use crate::token::{Kind, Token};
use std::alloc::{AllocError, Global};
use std::marker::Model;

/// What is left of a text, to be cut into tokens one by one. Contracts see it as the list of the
/// tokens that are left, without the end of the text. It takes no memory of its own.
#[derive(Drop)]
pub struct Scanner<'a> {
    source: &'a [u8],
    /// Where the next token begins, or the length of the text.
    from: usize,
    context: Context,
    place: Place,
}

impl<'a> Model for Scanner<'a> {
    ghost use Rattle.std.specs.Prelude.{List};
    ghost use Rattle.affine_lex.specs.declared.token.Token.{Token};
    ghost use Rattle.affine_lex.specs.Scan.{tokens_from, IsCutAt};

    ghost Value = { List Token };

    ghost view = { λ s. tokens_from s.source.now s.from s.context };

    ghost invariant = { λ s. IsCutAt s.source.now s.from s.place };
}

impl<'a> Scanner<'a> {
    /// The tokens of a text, from its first byte on.
    #[tactic(auto, unfolding(crate::specs::Scan::place))]
    pub fn new(source: &'a [u8]) -> Scanner<'a>
        requires { length source.now < 4294967295 }
        ensures { AreTokens source.now (result ++ end_token source.now ∷ []) }
    {
        let from = gap(source);
        Scanner {
            source,
            from,
            context: Context::Plain,
            place: walk(Place { line: 1, column: 1 }, &source[..from]),
        }
    }

    /// Takes the next token, where one is left.
    pub fn next_token(&mut self) -> Option<Token>
        ensures next { self.old ≡ with_next result self.new }
        ensures end { result ≡ None → self.new ≡ [] }
    {
        if self.from >= self.source.len() {
            return None;
        }
        let (kind, count) = token(in_sizes(self.context), &self.source[self.from..]);
        let to = self.from + count;
        let found = Token {
            kind,
            from: self.from,
            to,
            line: self.place.line,
            column: self.place.column,
        };
        let next = to + gap(&self.source[to..]);
        self.context = after(self.context, kind, &self.source[self.from..to]);
        self.place = walk(self.place, &self.source[self.from..next]);
        self.from = next;
        Some(found)
    }
}

/// The end of a text, as a token: the place behind its last byte, with its line and column.
pub fn text_end(source: &[u8]) -> Token
    requires { length source.now < 4294967295 }
    ensures { result ≡ end_token source.now }
{
    let place = walk(Place { line: 1, column: 1 }, source);
    Token {
        kind: Kind::End,
        from: source.len(),
        to: source.len(),
        line: place.line,
        column: place.column,
    }
}

/// Cuts a text into its tokens, the last of which is the end of the text. There is one such list.
///
/// A text of any bytes has tokens: those that stand nowhere in the grammar are `Kind::Bad`. The
/// only error is that memory ran out.
pub fn tokens(alloc: Global, source: &[u8]) -> Result<Vec<Token>, AllocError>
    requires { length source.now < 4294967295 }
    ensures tokens { IfOk result (λ v. AreTokens source.now v.items) }
    // no other list is that of the tokens of this text
    ensures only { (ts : List Token) → AreTokens source.now ts → IfOk result (λ v. v.items ≡ ts) }
{
    let mut found = Vec::new(alloc);
    let mut scanner = Scanner::new(source);
    while let Some(token) = scanner.next_token() {
        found.push(token)?;
    }
    found.push(text_end(source))?;
    Ok(found)
}
