// The readers of a single token that depend on what stood before it: the leaves of expressions, parameters, separators with
// a limit, and aliases.
ghost use Rattle.std.specs.Prelude.{◌≡◌, ◌≤◌, ◌<◌, ◌+◌, ◌++◌, false, true, IfOk, MatchResult, OnOk};
ghost use Rattle.readers.specs.Readers.{take_by};
ghost use Rattle.readers.specs.Limits.{limited};
ghost use Rattle.affine_grammar.specs.Token as tok;
ghost use Rattle.token_cursor.specs.Input.{Takes, Reads, Chooses, Finds};
ghost use Rattle.token_cursor.specs.declared.refusal.Refusal.TheVariants.{Here, Memory};

use crate::cursor::{Tokens, behind_first, bytes_of, negated};
use crate::names::{alias_in, named, number_of, text_of};
use crate::refusal::Refusal;
use affine_ast::{Name, Text};
use affine_expr::{Expr, Map, Set};
use affine_grammar::{Alias, Aliases, Body, State};
use affine_lex::Kind;
use name_table::Names;
use std::alloc::Global;

/// The most operands of an expression, and of a module.
const EXPRESSION_OPERANDS: u32 = 256;

const MODULE_OPERANDS: u32 = 1_048_576;

fn is_full(state: &State) -> bool
    ensures value { result ≡ tok.is_full state.now }
    ensures open { result ≡ false → state.now.operands < 256 }
    ensures room { result ≡ false → state.now.total < 1048576 }
{
    state.operands >= EXPRESSION_OPERANDS || state.total >= MODULE_OPERANDS
}

/// A number as one of a dimension or symbol. A text has fewer values than there are such numbers.
pub fn numbered(at: usize) -> Result<u32, Refusal>
    ensures { MatchResult result (λ number. number ≡ at) (λ refusal. refusal ≡ Memory) }
{
    match u32::try_from(at) {
        Ok(number) => Ok(number),
        Err(_) => Err(Refusal::Memory),
    }
}

/// The number of a value's first appearance; a new one is added.
fn appearing(alloc: Global, text: &[u8], names: &mut Names) -> Result<u32, Refusal>
    ensures { MatchResult result (λ number. (number, names.new) ≡ tok.appears text.now names.old) (λ refusal. refusal ≡ Memory) }
{
    match number_of(text, names) {
        Some(at) => numbered(at),
        None => {
            let number = numbered(names.len())?;
            names.push(alloc, named(alloc, text)?)?;
            Ok(number)
        }
    }
}

/// Whether a name is in one of two lists.
#[tactic(auto, using(crate::proofs::Lookup::known_in_either))]
fn is_known(text: &[u8], dims: &Names, names: &Names) -> bool
    ensures { result ≡ tok.is_there (tok.number_of text.now (dims.now ++ names.now)) }
{
    number_of(text, dims).is_some() || number_of(text, names).is_some()
}

impl<'a> Tokens<'a> {
    /// An integer without a sign, as an operand.
    pub fn number(&mut self, state: &mut State) -> Result<Expr, Refusal>
        ensures { Reads result (take_by (tok.number state.old) self.old) state.new self.new }
    {
        match self.next {
            Some(first) => match first.kind {
                Kind::Int(n) if !is_full(state) && n <= 9_223_372_036_854_775_807 => {
                    self.next = self.rest.next_token();
                    state.operands += 1;
                    state.total += 1;
                    Ok(Expr::Const(n as i64))
                }
                _ => Err(Refusal::Here),
            },
            None => Err(Refusal::Here),
        }
    }

    /// An integer behind its `-`, as an operand.
    pub fn negative_number(&mut self, state: &mut State) -> Result<Expr, Refusal>
        ensures { Reads result (take_by (tok.negative_number state.old) self.old) state.new self.new }
    {
        match self.next {
            Some(first) => match first.kind {
                Kind::Int(n) if !is_full(state) && n <= 9_223_372_036_854_775_808 => {
                    self.next = self.rest.next_token();
                    state.operands += 1;
                    state.total += 1;
                    Ok(Expr::Const(negated(n)))
                }
                _ => Err(Refusal::Here),
            },
            None => Err(Refusal::Here),
        }
    }

    /// A parameter of the map or set.
    pub fn parameter(&mut self, state: &mut State) -> Result<Expr, Refusal>
        ensures { Reads result (take_by (tok.parameter state.old) self.old) state.new self.new }
    {
        match self.next {
            Some(first) => match first.kind {
                Kind::Word if !is_full(state) => {
                    let leaf = parameter_of(bytes_of(self.source, first), state)?;
                    self.next = self.rest.next_token();
                    state.operands += 1;
                    state.total += 1;
                    Ok(leaf)
                }
                _ => Err(Refusal::Here),
            },
            None => Err(Refusal::Here),
        }
    }

    /// A value, which is a dimension.
    pub fn dimension(&mut self, alloc: Global, state: &mut State) -> Result<Expr, Refusal>
        ensures { Reads result (take_by (tok.dimension state.old) self.old) state.new self.new }
    {
        match self.next {
            Some(first) => match first.kind {
                Kind::Value if !is_full(state) => {
                    let text = behind_first(bytes_of(self.source, first));
                    let number = appearing(alloc, text, &mut state.dims)?;
                    self.next = self.rest.next_token();
                    state.operands += 1;
                    state.total += 1;
                    Ok(Expr::Dim(number))
                }
                _ => Err(Refusal::Here),
            },
            None => Err(Refusal::Here),
        }
    }

    /// The word before the value that is a symbol, at which this operand counts.
    pub fn symbol_word(&mut self, state: &State) -> Result<(), Refusal>
        ensures word { Takes result (take_by (tok.symbol_word state.now) self.old) self.new }
        ensures open { OnOk result (tok.is_full state.now ≡ false) }
    {
        match self.next {
            Some(first) => match first.kind {
                Kind::Word
                    if !is_full(state) && bytes_of(self.source, first) == b"symbol".as_slice() => {
                    self.next = self.rest.next_token();
                    Ok(())
                }
                _ => Err(Refusal::Here),
            },
            None => Err(Refusal::Here),
        }
    }

    /// A value behind `symbol(`.
    pub fn symbol(&mut self, alloc: Global, state: &mut State) -> Result<Expr, Refusal>
        requires { tok.is_full state.old ≡ false }
        ensures { Reads result (take_by (tok.symbol state.old) self.old) state.new self.new }
    {
        match self.next {
            Some(first) => match first.kind {
                Kind::Value => {
                    let text = behind_first(bytes_of(self.source, first));
                    let number = appearing(alloc, text, &mut state.syms)?;
                    self.next = self.rest.next_token();
                    state.operands += 1;
                    state.total += 1;
                    Ok(Expr::Sym(number))
                }
                _ => Err(Refusal::Here),
            },
            None => Err(Refusal::Here),
        }
    }

    /// A parameter that is none of these.
    pub fn fresh(&mut self, alloc: Global, dims: &Names, names: &Names) -> Result<Name, Refusal>
        ensures { Takes result (take_by (tok.fresh (dims.now ++ names.now)) self.old) self.new }
    {
        match self.next {
            Some(first) => match first.kind {
                Kind::Word => {
                    let text = bytes_of(self.source, first);
                    if is_known(text, dims, names) {
                        return Err(Refusal::Here);
                    }
                    let name = named(alloc, text)?;
                    self.next = self.rest.next_token();
                    Ok(name)
                }
                _ => Err(Refusal::Here),
            },
            None => Err(Refusal::Here),
        }
    }

    /// The comma before one item more, where there may be several and there are so many.
    pub fn comma(&mut self, most: usize, several: bool, count: usize) -> Result<(), Refusal>
        ensures { Takes result (take_by (tok.comma_within most several count) self.old) self.new }
    {
        match self.next {
            Some(first) => match first.kind {
                Kind::Punct(b',') if several && count < most => {
                    self.next = self.rest.next_token();
                    Ok(())
                }
                _ => Err(Refusal::Here),
            },
            None => Err(Refusal::Here),
        }
    }

    /// The name of an alias that isn't defined yet.
    pub fn new_alias(&mut self, alloc: Global, aliases: &Aliases) -> Result<Text, Refusal>
        ensures { Takes result (take_by (tok.new_alias aliases.now) self.old) self.new }
    {
        match self.next {
            Some(first) => match first.kind {
                Kind::Alias => {
                    let text = behind_first(bytes_of(self.source, first));
                    if alias_in(text, aliases).is_some() {
                        return Err(Refusal::Here);
                    }
                    let name = text_of(alloc, text)?;
                    self.next = self.rest.next_token();
                    Ok(name)
                }
                _ => Err(Refusal::Here),
            },
            None => Err(Refusal::Here),
        }
    }

    /// An alias of a map, with one result where there may not be several.
    pub fn alias_map(
        &mut self,
        alloc: Global,
        aliases: &Aliases,
        several: bool,
        total: u32,
    ) -> Result<(Map, u32), Refusal>
        ensures { Takes result (take_by (tok.alias_map aliases.now several total) self.old) self.new }
    {
        match self.next {
            Some(first) => match first.kind {
                Kind::Alias => {
                    let text = behind_first(bytes_of(self.source, first));
                    let Some(alias) = alias_in(text, aliases) else {
                        return Err(Refusal::Here);
                    };
                    let read = map_of(alloc, alias, several, total)?;
                    self.next = self.rest.next_token();
                    Ok(read)
                }
                _ => Err(Refusal::Here),
            },
            None => Err(Refusal::Here),
        }
    }

    /// An alias of a set.
    pub fn alias_set(
        &mut self,
        alloc: Global,
        aliases: &Aliases,
        total: u32,
    ) -> Result<(Set, u32), Refusal>
        ensures { Takes result (take_by (tok.alias_set aliases.now total) self.old) self.new }
    {
        match self.next {
            Some(first) => match first.kind {
                Kind::Alias => {
                    let text = behind_first(bytes_of(self.source, first));
                    let Some(alias) = alias_in(text, aliases) else {
                        return Err(Refusal::Here);
                    };
                    let read = set_of(alloc, alias, total)?;
                    self.next = self.rest.next_token();
                    Ok(read)
                }
                _ => Err(Refusal::Here),
            },
            None => Err(Refusal::Here),
        }
    }
}

/// The leaf that a parameter is.
fn parameter_of(text: &[u8], state: &State) -> Result<Expr, Refusal>
    ensures { Finds result (tok.parameter_of state.now text.now) (tok.counting state.now) }
{
    if let Some(at) = number_of(text, &state.dims) {
        return Ok(Expr::Dim(numbered(at)?));
    }
    match number_of(text, &state.syms) {
        Some(at) => Ok(Expr::Sym(numbered(at)?)),
        None => Err(Refusal::Here),
    }
}

/// The module's operands with those that an alias brings.
fn brought(total: u32, operands: u32) -> Result<u32, Refusal>
    ensures { MatchResult result (λ sum. (sum ≡ total + operands) × (total + operands ≤ 1048576)) (λ refusal. (refusal ≡ Here) × (1048576 < total + operands)) }
{
    match total.checked_add(operands) {
        Some(sum) if sum <= MODULE_OPERANDS => Ok(sum),
        _ => Err(Refusal::Here),
    }
}

/// The map of an alias, where it is one that may stand here.
fn map_of(alloc: Global, alias: &Alias, several: bool, total: u32) -> Result<(Map, u32), Refusal>
    ensures { Chooses result (tok.map_body true several (total + alias.now.operands) alias.now.body) }
{
    match &alias.body {
        Body::Map(map) if several || map.results.len() <= 1 => {
            let total = brought(total, alias.operands)?;
            Ok((map.copy(alloc)?, total))
        }
        _ => Err(Refusal::Here),
    }
}

fn set_of(alloc: Global, alias: &Alias, total: u32) -> Result<(Set, u32), Refusal>
    ensures { Chooses result (tok.set_body true (total + alias.now.operands) alias.now.body) }
{
    match &alias.body {
        Body::Set(set) => {
            let total = brought(total, alias.operands)?;
            Ok((set.copy(alloc)?, total))
        }
        Body::Map(_) => Err(Refusal::Here),
    }
}
