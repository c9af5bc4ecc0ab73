// The readers of a single token of a type, an operator or a statement.
ghost use Rattle.std.specs.Prelude.{◌≡◌, ◌-◌, true, min, take, length};
ghost use Rattle.std.specs.Char.{digit_value};
ghost use Rattle.std.specs.Str.Parse.{digits_value};
ghost use Rattle.readers.specs.Limits.{limited};
ghost use Rattle.readers.specs.Readers.{take_by};
ghost use Rattle.affine_grammar.specs.Spelling.{tokens_of};
ghost use Rattle.affine_grammar.specs.Token as tok;
ghost use Rattle.affine_lex.specs.Scan.{with_next};
ghost use Rattle.token_cursor.specs.Input.{Takes};

use crate::cursor::{Tokens, bytes_of};
use crate::refusal::Refusal;
use crate::words::{action_of, definition_of, element_of, int_type_of, product_word, scalar_of};
use affine_ast::{Element, Scalar};
use affine_grammar::{Action, Definition, Operator};
use affine_lex::{Kind, Scanner, Token};

/// One more than the greatest size.
const SIZE_END: u64 = 4_294_967_296;

fn value_of(digit: u8) -> u64
    ensures { result ≡ digit_value digit }
{
    match (digit as char).to_digit(36) {
        Some(value) => value as u64,
        None => 36,
    }
}

/// The value of digits, and the end of sizes for each greater value.
#[tactic(auto, using(crate::proofs::Digits::capped_more))]
fn capped_value(digits: &[u8]) -> u64
    ensures { result ≡ min (digits_value 10 digits.now) 4294967296 }
{
    let mut value: u64 = 0;
    'digits: for digit in digits {
        value = (value * 10 + value_of(*digit)).min(SIZE_END);
    }
    value
}

/// The size that digits write, where it is one.
fn size_of(digits: &[u8]) -> Option<u32>
    ensures { result ≡ tok.within 4294967295 (digits_value 10 digits.now) }
{
    let value = capped_value(digits);
    if value < SIZE_END {
        Some(value as u32)
    } else {
        None
    }
}

/// The bytes before the last one.
fn before_last(bytes: &[u8]) -> &[u8]
    ensures { result.now ≡ take (length bytes.now - 1) bytes.now }
{
    match bytes {
        [rest @ .., _] => rest,
        [] => bytes,
    }
}

#[tactic(auto, using(crate::proofs::Braces::brace_refused))]
fn one_brace_too_many(source: &[u8], next: Option<Token>, rest: &Scanner<'_>) -> Result<(), Refusal>
    ensures { Takes result (take_by (limited true (tok.sign 123)) (tokens_of source.now (with_next next rest.now))) (tokens_of source.now (with_next next rest.now)) }
{
    Err(Refusal::Here)
}

impl<'a> Tokens<'a> {
    /// A size of a memref.
    pub fn size(&mut self) -> Result<u32, Refusal>
        ensures { Takes result (take_by tok.size self.old) self.new }
    {
        match self.next {
            Some(first) => match first.kind {
                Kind::Sizes => match size_of(before_last(bytes_of(self.source, first))) {
                    Some(size) => {
                        self.next = self.rest.next_token();
                        Ok(size)
                    }
                    None => Err(Refusal::Here),
                },
                _ => Err(Refusal::Here),
            },
            None => Err(Refusal::Here),
        }
    }

    /// A memory space.
    pub fn space(&mut self) -> Result<u8, Refusal>
        ensures { Takes result (take_by tok.space self.old) self.new }
    {
        match self.next {
            Some(first) => match first.kind {
                Kind::Int(n) if n <= 255 => {
                    self.next = self.rest.next_token();
                    Ok(n as u8)
                }
                _ => Err(Refusal::Here),
            },
            None => Err(Refusal::Here),
        }
    }

    /// The element type of a memref.
    pub fn element(&mut self) -> Result<Element, Refusal>
        ensures { Takes result (take_by tok.element self.old) self.new }
    {
        match self.next {
            Some(first) => match first.kind {
                Kind::Word => match element_of(bytes_of(self.source, first)) {
                    Some(element) => {
                        self.next = self.rest.next_token();
                        Ok(element)
                    }
                    None => Err(Refusal::Here),
                },
                _ => Err(Refusal::Here),
            },
            None => Err(Refusal::Here),
        }
    }

    /// The type of a value that is no memref.
    pub fn scalar(&mut self) -> Result<Scalar, Refusal>
        ensures { Takes result (take_by tok.scalar self.old) self.new }
    {
        match self.next {
            Some(first) => match first.kind {
                Kind::Word => match scalar_of(bytes_of(self.source, first)) {
                    Some(scalar) => {
                        self.next = self.rest.next_token();
                        Ok(scalar)
                    }
                    None => Err(Refusal::Here),
                },
                _ => Err(Refusal::Here),
            },
            None => Err(Refusal::Here),
        }
    }

    /// The type that may stand behind a memory space.
    pub fn int_type(&mut self) -> Result<(), Refusal>
        ensures { Takes result (take_by tok.int_type self.old) self.new }
    {
        match self.next {
            Some(first) => match first.kind {
                Kind::Word => match int_type_of(bytes_of(self.source, first)) {
                    Some(()) => {
                        self.next = self.rest.next_token();
                        Ok(())
                    }
                    None => Err(Refusal::Here),
                },
                _ => Err(Refusal::Here),
            },
            None => Err(Refusal::Here),
        }
    }

    /// The operator of a sum.
    pub fn sum_operator(&mut self) -> Result<Operator, Refusal>
        ensures { Takes result (take_by tok.sum_op self.old) self.new }
    {
        match self.next {
            Some(first) => match first.kind {
                Kind::Punct(b'+') => {
                    self.next = self.rest.next_token();
                    Ok(Operator::Add)
                }
                Kind::Punct(b'-') => {
                    self.next = self.rest.next_token();
                    Ok(Operator::Sub)
                }
                _ => Err(Refusal::Here),
            },
            None => Err(Refusal::Here),
        }
    }

    /// The operator of a product.
    pub fn product_operator(&mut self) -> Result<Operator, Refusal>
        ensures { Takes result (take_by tok.product_op self.old) self.new }
    {
        match self.next {
            Some(first) => match first.kind {
                Kind::Punct(b'*') => {
                    self.next = self.rest.next_token();
                    Ok(Operator::Mul)
                }
                Kind::Word => match product_word(bytes_of(self.source, first)) {
                    Some(operator) => {
                        self.next = self.rest.next_token();
                        Ok(operator)
                    }
                    None => Err(Refusal::Here),
                },
                _ => Err(Refusal::Here),
            },
            None => Err(Refusal::Here),
        }
    }

    /// The word of a statement behind a result.
    pub fn definition(&mut self) -> Result<Definition, Refusal>
        ensures { Takes result (take_by tok.definition_word self.old) self.new }
    {
        match self.next {
            Some(first) => match first.kind {
                Kind::Word => match definition_of(bytes_of(self.source, first)) {
                    Some(definition) => {
                        self.next = self.rest.next_token();
                        Ok(definition)
                    }
                    None => Err(Refusal::Here),
                },
                _ => Err(Refusal::Here),
            },
            None => Err(Refusal::Here),
        }
    }

    /// The word of a statement without a result, with the line on which it stands.
    pub fn action(&mut self) -> Result<(u32, Action), Refusal>
        ensures { Takes result (take_by (tok.lined tok.action_word) self.old) self.new }
    {
        match self.next {
            Some(first) => match first.kind {
                Kind::Word => match action_of(bytes_of(self.source, first)) {
                    Some(action) => {
                        self.next = self.rest.next_token();
                        Ok((first.line, action))
                    }
                    None => Err(Refusal::Here),
                },
                _ => Err(Refusal::Here),
            },
            None => Err(Refusal::Here),
        }
    }

    /// The brace of a region too many, which stands nowhere in a text.
    pub fn brace_too_many(&mut self) -> Result<(), Refusal>
        ensures { Takes result (take_by (limited true (tok.sign 123)) self.old) self.new }
    {
        one_brace_too_many(self.source, self.next, &self.rest)
    }
}
