// A cursor over the tokens of a text, and the readers of a single token.
ghost use Rattle.std.specs.Prelude.{◌≡◌, ◌≤◌, ◌↔◌, IsTrue, [], neg_ℤ, pos, drop};
ghost use Rattle.readers.specs.Readers.{head, take_by};
ghost use Rattle.readers.specs.Limits.{limited};
ghost use Rattle.affine_grammar.specs.Spelling.{Stands, tokens_of};
ghost use Rattle.affine_grammar.specs.Token as tok;
ghost use Rattle.affine_lex.specs.Tokens as lex;
ghost use Rattle.token_cursor.specs.Input.{Takes};

use crate::names::{named, text_of};
use crate::refusal::Refusal;
use crate::words::{action_of, definition_of, element_of, int_type_of, product_word, scalar_of};
use affine_ast::{Element, Name, Scalar, Text};
use affine_expr::Rel;
use affine_grammar::{Action, Definition, Operator};
use affine_lex::{Kind, Scanner, Token};
use name_hash::NameHashing;
use std::alloc::Global;
use std::marker::Model;

/// The tokens that are left of a text, without its end. They are cut from its bytes as they are read.
#[derive(Drop)]
pub struct Tokens<'a> {
    pub(crate) source: &'a [u8],
    /// The next token, where one is left.
    pub(crate) next: Option<Token>,
    /// What stands behind it.
    pub(crate) rest: Scanner<'a>,
    /// How the names of the text are hashed.
    hashing: NameHashing,
}

impl<'a> Model for Tokens<'a> {
    ghost use Rattle.std.specs.Prelude.{List};
    ghost use Rattle.affine_grammar.specs.Spelling.{tokens_of};
    ghost use Rattle.affine_grammar.specs.Token.{Tok};
    ghost use Rattle.affine_lex.specs.Scan.{with_next};

    ghost Value = { List Tok };

    ghost view = { λ t. tokens_of t.source.now (with_next t.next t.rest) };
}

/// The bytes of a token.
pub(crate) fn bytes_of(source: &[u8], token: Token) -> &[u8]
    ensures { result.now ≡ lex.text_of source.now token }
{
    let from = token.from.min(source.len());
    let rest = &source[from..];
    let length = token.to.saturating_sub(token.from).min(rest.len());
    &rest[..length]
}

/// The bytes behind the first one.
pub(crate) fn behind_first(bytes: &[u8]) -> &[u8]
    ensures { result.now ≡ drop 1 bytes.now }
{
    match bytes {
        [_, rest @ ..] => rest,
        [] => bytes,
    }
}

pub(crate) fn negated(n: u64) -> i64
    requires { n ≤ 9223372036854775808 }
    ensures { result ≡ neg_ℤ (pos n) }
{
    (-(n as i128)) as i64
}

impl<'a> Tokens<'a> {
    /// The tokens of a text that are left to a scanner of it.
    pub fn new(source: &'a [u8], scanner: Scanner<'a>) -> Tokens<'a>
        ensures { result ≡ tokens_of source.now scanner.entry }
    {
        let mut rest = scanner;
        let next = rest.next_token();
        Tokens {
            source,
            next,
            rest,
            hashing: NameHashing::of_text(source),
        }
    }

    /// How the names of the text are hashed. Which it is stays open: no answer of a table depends on it.
    pub fn hashing(&self) -> NameHashing {
        self.hashing
    }

    /// Whether none is left.
    pub fn is_done(&self) -> bool
        ensures { IsTrue result ↔ (self.now ≡ []) }
    {
        match self.next {
            None => true,
            Some(_) => false,
        }
    }

    /// The line and column of the next token, or of the end where none is left.
    pub fn place(&self, end: Token) -> (u32, u32)
        ensures { Stands self.now end result.0 result.1 }
    {
        match self.next {
            Some(first) => (first.line, first.column),
            None => (end.line, end.column),
        }
    }

    /// Whether the next token is this sign.
    pub fn next_is(&self, mark: u8) -> bool
        ensures { result ≡ tok.at_sign mark (head self.now) }
    {
        match self.next {
            Some(first) => match first.kind {
                Kind::Punct(b) => b == mark,
                _ => false,
            },
            None => false,
        }
    }

    /// Whether the next token is this word.
    pub fn next_is_word(&self, word: &[u8]) -> bool
        ensures { result ≡ tok.at_word word.now (head self.now) }
    {
        match self.next {
            Some(first) => match first.kind {
                Kind::Word => bytes_of(self.source, first) == word,
                _ => false,
            },
            None => false,
        }
    }

    /// Whether the next token is an integer.
    pub fn at_number(&self) -> bool
        ensures { result ≡ tok.at_number (head self.now) }
    {
        match self.next {
            Some(first) => matches!(first.kind, Kind::Int(_)),
            None => false,
        }
    }

    /// Whether the next token is the name of a value.
    pub fn at_value(&self) -> bool
        ensures { result ≡ tok.at_value (head self.now) }
    {
        match self.next {
            Some(first) => matches!(first.kind, Kind::Value),
            None => false,
        }
    }

    /// Whether the next token is the name of an alias.
    pub fn at_alias(&self) -> bool
        ensures { result ≡ tok.at_alias (head self.now) }
    {
        match self.next {
            Some(first) => matches!(first.kind, Kind::Alias),
            None => false,
        }
    }

    /// Whether the next token is a size.
    pub fn at_size(&self) -> bool
        ensures { result ≡ tok.at_size (head self.now) }
    {
        match self.next {
            Some(first) => matches!(first.kind, Kind::Sizes),
            None => false,
        }
    }

    /// Whether the next token is an integer, or a `-`.
    pub fn at_integer(&self) -> bool
        ensures { result ≡ tok.at_integer (head self.now) }
    {
        match self.next {
            Some(first) => match first.kind {
                Kind::Punct(b) => b == b'-',
                Kind::Int(_) => true,
                _ => false,
            },
            None => false,
        }
    }

    /// Whether the next token is the operator of a sum.
    pub fn at_sum(&self) -> bool
        ensures { result ≡ tok.at_sum (head self.now) }
    {
        match self.next {
            Some(first) => match first.kind {
                Kind::Punct(b) => b == b'+' || b == b'-',
                _ => false,
            },
            None => false,
        }
    }

    /// Whether the next token is the operator of a product.
    pub fn at_product(&self) -> bool
        ensures { result ≡ tok.at_product (head self.now) }
    {
        match self.next {
            Some(first) => match first.kind {
                Kind::Punct(b) => b == b'*',
                Kind::Word => product_word(bytes_of(self.source, first)).is_some(),
                _ => false,
            },
            None => false,
        }
    }

    /// Whether the next token begins a statement.
    pub fn at_statement(&self) -> bool
        ensures { result ≡ tok.at_stmt (head self.now) }
    {
        match self.next {
            Some(first) => match first.kind {
                Kind::Value => true,
                Kind::Word => action_of(bytes_of(self.source, first)).is_some(),
                _ => false,
            },
            None => false,
        }
    }

    /// This sign.
    pub fn sign(&mut self, mark: u8) -> Result<(), Refusal>
        ensures { Takes result (take_by (tok.sign mark) self.old) self.new }
    {
        match self.next {
            Some(first) => match first.kind {
                Kind::Punct(b) if b == mark => {
                    self.next = self.rest.next_token();
                    Ok(())
                }
                _ => Err(Refusal::Here),
            },
            None => Err(Refusal::Here),
        }
    }

    /// This word.
    pub fn word(&mut self, word: &[u8]) -> Result<(), Refusal>
        ensures { Takes result (take_by (tok.word word.now) self.old) self.new }
    {
        match self.next {
            Some(first) => match first.kind {
                Kind::Word if bytes_of(self.source, first) == word => {
                    self.next = self.rest.next_token();
                    Ok(())
                }
                _ => Err(Refusal::Here),
            },
            None => Err(Refusal::Here),
        }
    }

    /// `->`
    pub fn arrow(&mut self) -> Result<(), Refusal>
        ensures { Takes result (take_by tok.arrow self.old) self.new }
    {
        match self.next {
            Some(first) => match first.kind {
                Kind::Arrow => {
                    self.next = self.rest.next_token();
                    Ok(())
                }
                _ => Err(Refusal::Here),
            },
            None => Err(Refusal::Here),
        }
    }

    /// The relation of a constraint.
    pub fn relation(&mut self) -> Result<Rel, Refusal>
        ensures { Takes result (take_by tok.relation self.old) self.new }
    {
        match self.next {
            Some(first) => {
                let relation = match first.kind {
                    Kind::GreaterEqual => Rel::Ge,
                    Kind::LessEqual => Rel::Le,
                    Kind::Equal => Rel::Eq,
                    _ => return Err(Refusal::Here),
                };
                self.next = self.rest.next_token();
                Ok(relation)
            }
            None => Err(Refusal::Here),
        }
    }

    /// The name of a value.
    pub fn value(&mut self, alloc: Global) -> Result<Name, Refusal>
        ensures { Takes result (take_by tok.value self.old) self.new }
    {
        match self.next {
            Some(first) => match first.kind {
                Kind::Value => {
                    let name = named(alloc, behind_first(bytes_of(self.source, first)))?;
                    self.next = self.rest.next_token();
                    Ok(name)
                }
                _ => Err(Refusal::Here),
            },
            None => Err(Refusal::Here),
        }
    }

    /// A value, with the line on which it stands.
    pub fn value_on_line(&mut self, alloc: Global) -> Result<(u32, Name), Refusal>
        ensures { Takes result (take_by (tok.lined tok.value) self.old) self.new }
    {
        match self.next {
            Some(first) => match first.kind {
                Kind::Value => {
                    let name = named(alloc, behind_first(bytes_of(self.source, first)))?;
                    self.next = self.rest.next_token();
                    Ok((first.line, name))
                }
                _ => Err(Refusal::Here),
            },
            None => Err(Refusal::Here),
        }
    }

    /// A word, with the line on which it stands.
    pub fn word_on_line(&mut self, word: &[u8]) -> Result<(u32, ()), Refusal>
        ensures { Takes result (take_by (tok.lined (tok.word word.now)) self.old) self.new }
    {
        match self.next {
            Some(first) => match first.kind {
                Kind::Word if bytes_of(self.source, first) == word => {
                    self.next = self.rest.next_token();
                    Ok((first.line, ()))
                }
                _ => Err(Refusal::Here),
            },
            None => Err(Refusal::Here),
        }
    }

    /// The name of a function.
    pub fn function_name(&mut self, alloc: Global) -> Result<Text, Refusal>
        ensures { Takes result (take_by tok.function_name self.old) self.new }
    {
        match self.next {
            Some(first) => match first.kind {
                Kind::Symbol => {
                    let name = text_of(alloc, behind_first(bytes_of(self.source, first)))?;
                    self.next = self.rest.next_token();
                    Ok(name)
                }
                _ => Err(Refusal::Here),
            },
            None => Err(Refusal::Here),
        }
    }

    /// An integer without a sign.
    pub fn integer(&mut self) -> Result<i64, Refusal>
        ensures { Takes result (take_by tok.integer self.old) self.new }
    {
        match self.next {
            Some(first) => match first.kind {
                Kind::Int(n) if n <= 9_223_372_036_854_775_807 => {
                    self.next = self.rest.next_token();
                    Ok(n as i64)
                }
                _ => Err(Refusal::Here),
            },
            None => Err(Refusal::Here),
        }
    }

    /// An integer behind its `-`.
    pub fn negative(&mut self) -> Result<i64, Refusal>
        ensures { Takes result (take_by tok.negative self.old) self.new }
    {
        match self.next {
            Some(first) => match first.kind {
                Kind::Int(n) if n <= 9_223_372_036_854_775_808 => {
                    self.next = self.rest.next_token();
                    Ok(negated(n))
                }
                _ => Err(Refusal::Here),
            },
            None => Err(Refusal::Here),
        }
    }
}
