// Maps, sets and their uses.
ghost use Rattle.std.specs.Prelude.{◌≡◌, [], true, MatchResult};
ghost use Rattle.readers.specs.Readers.{bind, exactly, listed, many, optional};
ghost use Rattle.affine_grammar.specs.Grammar.{access_with, no_values, over};
ghost use Rattle.affine_grammar.specs.Reading as spec;
ghost use Rattle.affine_grammar.specs.Token as tok;
ghost use Rattle.affine_grammar.specs.declared.words.Leaves.TheVariants as leaves_of;
ghost use Rattle.token_cursor.specs.Input.{Takes, Reads};
ghost use Rattle.token_cursor.specs.declared.refusal.Refusal.TheVariants.{Memory};

use crate::expressions::{expression, result_of};
use affine_ast::{Access, Name};
use affine_expr::{Constraint, Expr, Map, Set};
use affine_grammar::{Aliases, Leaves, Scope, State};
use name_table::Names;
use sqlite_items::Items;
use std::alloc::Global;
use token_cursor::{Refusal, Tokens, fitted, numbered};

/// The most results of a map, and rows of a set.
const RESULTS: usize = 8;

const ROWS: usize = 16;

fn parameter_name(
    alloc: Global,
    tokens: &mut Tokens<'_>,
    dims: &Names,
    before: Names,
) -> Result<Names, Refusal>
    ensures { Takes result (spec.parameter_name dims.now before tokens.old) tokens.new }
{
    let mut names = before;
    let name = tokens.fresh(alloc, dims, &names)?;
    names.push(alloc, name)?;
    Ok(names)
}

fn next_parameter(
    alloc: Global,
    tokens: &mut Tokens<'_>,
    dims: &Names,
    before: Names,
) -> Result<Names, Refusal>
    ensures { Takes result (spec.next_parameter dims.now before tokens.old) tokens.new }
{
    tokens.sign(b',')?;
    parameter_name(alloc, tokens, dims, before)
}

#[tactic(auto, using(affine_grammar::proofs::Steps::parameter_more, affine_grammar::proofs::Steps::parameter_done, affine_grammar::proofs::Steps::parameter_shorter))]
fn parameter_names(alloc: Global, tokens: &mut Tokens<'_>, dims: &Names) -> Result<Names, Refusal>
    ensures { Takes result (bind (spec.parameter_name dims.now []) (many (tok.at_sign 44) (spec.next_parameter dims.now)) tokens.old) tokens.new }
{
    let none = Names::new(alloc, tokens.hashing());
    let mut names = parameter_name(alloc, tokens, dims, none)?;
    'names: while tokens.next_is(b',') {
        names = next_parameter(alloc, tokens, dims, names)?;
    }
    Ok(names)
}

/// The parameters up to the closing sign.
#[tactic(auto, unfolding(affine_grammar::specs::Reading::parameter_list))]
fn parameter_list(
    alloc: Global,
    tokens: &mut Tokens<'_>,
    close: u8,
    dims: &Names,
) -> Result<Names, Refusal>
    ensures { Takes result (spec.parameter_list close dims.now tokens.old) tokens.new }
{
    if tokens.next_is(close) {
        tokens.sign(close)?;
        return Ok(Names::new(alloc, tokens.hashing()));
    }
    let names = parameter_names(alloc, tokens, dims)?;
    tokens.sign(close)?;
    Ok(names)
}

#[tactic(auto, unfolding(affine_grammar::specs::Reading::symbol_list))]
fn symbol_list(alloc: Global, tokens: &mut Tokens<'_>, dims: &Names) -> Result<Names, Refusal>
    ensures { Takes result (optional (tok.at_sign 91) (spec.symbol_list dims.now) [] tokens.old) tokens.new }
{
    if !tokens.next_is(b'[') {
        return Ok(Names::new(alloc, tokens.hashing()));
    }
    tokens.sign(b'[')?;
    parameter_list(alloc, tokens, b']', dims)
}

#[tactic(auto, unfolding(affine_grammar::specs::Reading::params))]
fn params(alloc: Global, tokens: &mut Tokens<'_>) -> Result<Scope, Refusal>
    ensures { Takes result (spec.params tokens.old) tokens.new }
{
    tokens.sign(b'(')?;
    let none = Names::new(alloc, tokens.hashing());
    let dims = parameter_list(alloc, tokens, b')', &none)?;
    let syms = symbol_list(alloc, tokens, &dims)?;
    Ok(Scope { dims, syms })
}

fn next_result(
    alloc: Global,
    tokens: &mut Tokens<'_>,
    leaves: Leaves,
    several: bool,
    before: Items<Expr>,
    state: &mut State,
) -> Result<Items<Expr>, Refusal>
    ensures { Reads result (spec.next_result leaves several (before, state.old) tokens.old) state.new tokens.new }
{
    tokens.comma(RESULTS, several, before.len())?;
    result_of(alloc, tokens, leaves, before, state)
}

/// The results of a map, or subscripts.
#[tactic(auto, using(affine_grammar::proofs::Steps::result_more, affine_grammar::proofs::Steps::result_done, affine_grammar::proofs::Steps::result_shorter))]
fn some_results(
    alloc: Global,
    tokens: &mut Tokens<'_>,
    leaves: Leaves,
    several: bool,
    state: &mut State,
) -> Result<Items<Expr>, Refusal>
    ensures { Reads result (bind (spec.result_of leaves ([], state.old)) (many (tok.at_sign 44) (spec.next_result leaves several)) tokens.old) state.new tokens.new }
{
    let mut results = result_of(alloc, tokens, leaves, Items::new(alloc), state)?;
    'results: while tokens.next_is(b',') {
        results = next_result(alloc, tokens, leaves, several, results, state)?;
    }
    Ok(results)
}

#[tactic(auto, unfolding(affine_grammar::specs::Reading::results))]
fn results(
    alloc: Global,
    tokens: &mut Tokens<'_>,
    several: bool,
    state: &mut State,
) -> Result<Items<Expr>, Refusal>
    ensures { Reads result (spec.results several state.old tokens.old) state.new tokens.new }
{
    tokens.sign(b'(')?;
    let results = some_results(alloc, tokens, Leaves::Parameters, several, state)?;
    tokens.sign(b')')?;
    Ok(fitted(alloc, results)?)
}

/// What the expressions over these parameters are read with.
fn state_over(names: Scope, total: u32) -> State
    ensures { result ≡ over names total }
{
    State {
        operands: 0,
        total,
        dims: names.dims,
        syms: names.syms,
    }
}

/// A map, with one result where there may not be several, and the operands of the module up to its end.
#[tactic(auto, unfolding(affine_grammar::specs::Reading::map0))]
pub fn map0(
    alloc: Global,
    tokens: &mut Tokens<'_>,
    several: bool,
    total: u32,
) -> Result<(Map, u32), Refusal>
    ensures { Takes result (spec.map0 several total tokens.old) tokens.new }
{
    tokens.word(b"affine_map")?;
    tokens.sign(b'<')?;
    let names = params(alloc, tokens)?;
    tokens.arrow()?;
    let dims = numbered(names.dims.len())?;
    let syms = numbered(names.syms.len())?;
    let mut state = state_over(names, total);
    let results = results(alloc, tokens, several, &mut state)?;
    tokens.sign(b'>')?;
    Ok((
        Map {
            dims,
            syms,
            results,
        },
        state.total,
    ))
}

/// One row more of a set.
#[tactic(auto, unfolding(affine_grammar::specs::Reading::row))]
fn row(
    alloc: Global,
    tokens: &mut Tokens<'_>,
    before: Items<Constraint>,
    state: &mut State,
) -> Result<Items<Constraint>, Refusal>
    ensures { Reads result (spec.row (before, state.old) tokens.old) state.new tokens.new }
{
    let left = expression(alloc, tokens, Leaves::Parameters, state)?;
    let rel = tokens.relation()?;
    let right = expression(alloc, tokens, Leaves::Parameters, state)?;
    let mut rows = before;
    rows.push(Constraint { left, rel, right })?;
    Ok(rows)
}

fn next_row(
    alloc: Global,
    tokens: &mut Tokens<'_>,
    before: Items<Constraint>,
    state: &mut State,
) -> Result<Items<Constraint>, Refusal>
    ensures { Reads result (spec.next_row (before, state.old) tokens.old) state.new tokens.new }
{
    tokens.comma(ROWS, true, before.len())?;
    row(alloc, tokens, before, state)
}

#[tactic(auto, using(affine_grammar::proofs::Steps::row_more, affine_grammar::proofs::Steps::row_done, affine_grammar::proofs::Steps::row_shorter))]
fn some_rows(
    alloc: Global,
    tokens: &mut Tokens<'_>,
    state: &mut State,
) -> Result<Items<Constraint>, Refusal>
    ensures { Reads result (bind (spec.row ([], state.old)) (many (tok.at_sign 44) spec.next_row) tokens.old) state.new tokens.new }
{
    let mut rows = row(alloc, tokens, Items::new(alloc), state)?;
    'rows: while tokens.next_is(b',') {
        rows = next_row(alloc, tokens, rows, state)?;
    }
    Ok(rows)
}

#[tactic(auto, unfolding(affine_grammar::specs::Reading::rows))]
fn rows(
    alloc: Global,
    tokens: &mut Tokens<'_>,
    state: &mut State,
) -> Result<Items<Constraint>, Refusal>
    ensures { Reads result (spec.rows state.old tokens.old) state.new tokens.new }
{
    tokens.sign(b'(')?;
    let rows = some_rows(alloc, tokens, state)?;
    tokens.sign(b')')?;
    Ok(fitted(alloc, rows)?)
}

/// A set, and the operands of the module up to its end.
#[tactic(auto, unfolding(affine_grammar::specs::Reading::set0))]
pub fn set0(alloc: Global, tokens: &mut Tokens<'_>, total: u32) -> Result<(Set, u32), Refusal>
    ensures { Takes result (spec.set0 total tokens.old) tokens.new }
{
    tokens.word(b"affine_set")?;
    tokens.sign(b'<')?;
    let names = params(alloc, tokens)?;
    tokens.sign(b':')?;
    let dims = numbered(names.dims.len())?;
    let syms = numbered(names.syms.len())?;
    let mut state = state_over(names, total);
    let rows = rows(alloc, tokens, &mut state)?;
    tokens.sign(b'>')?;
    Ok((Set { dims, syms, rows }, state.total))
}

fn one_value(
    alloc: Global,
    tokens: &mut Tokens<'_>,
    before: Items<Name>,
) -> Result<Items<Name>, Refusal>
    ensures { Takes result (spec.one_value before tokens.old) tokens.new }
{
    let mut values = before;
    values.push(tokens.value(alloc)?)?;
    Ok(values)
}

fn next_value(
    alloc: Global,
    tokens: &mut Tokens<'_>,
    before: Items<Name>,
) -> Result<Items<Name>, Refusal>
    ensures { Takes result (spec.next_value before tokens.old) tokens.new }
{
    tokens.sign(b',')?;
    one_value(alloc, tokens, before)
}

/// So many values with commas between them.
#[tactic(auto, using(affine_grammar::proofs::Steps::values_more, affine_grammar::proofs::Steps::values_done, affine_grammar::proofs::Steps::next_values_more, affine_grammar::proofs::Steps::next_values_done))]
fn so_many_values(
    alloc: Global,
    tokens: &mut Tokens<'_>,
    count: u32,
) -> Result<Items<Name>, Refusal>
    ensures { Takes result (exactly count (λ values. tok.sign 44) spec.one_value [] tokens.old) tokens.new }
{
    let mut values = Items::new(alloc);
    if count == 0 {
        return Ok(values);
    }
    values = one_value(alloc, tokens, values)?;
    let mut left = count - 1;
    'values: while left > 0 {
        values = next_value(alloc, tokens, values)?;
        left -= 1;
    }
    Ok(values)
}

/// So many values between two signs.
#[tactic(auto, unfolding(affine_grammar::specs::Reading::values))]
fn values(
    alloc: Global,
    tokens: &mut Tokens<'_>,
    opening: u8,
    close: u8,
    count: u32,
) -> Result<Items<Name>, Refusal>
    ensures { Takes result (spec.values opening close count tokens.old) tokens.new }
{
    tokens.sign(opening)?;
    let values = so_many_values(alloc, tokens, count)?;
    tokens.sign(close)?;
    Ok(values)
}

/// The values of the symbols, whose brackets may be missing where there are none.
#[tactic(auto, unfolding(affine_grammar::specs::Reading::symbol_values))]
fn symbol_values(alloc: Global, tokens: &mut Tokens<'_>, count: u32) -> Result<Items<Name>, Refusal>
    ensures { Takes result (spec.symbol_values count tokens.old) tokens.new }
{
    if count == 0 && !tokens.next_is(b'[') {
        return Ok(Items::new(alloc));
    }
    values(alloc, tokens, b'[', b']', count)
}

/// The values of the dimensions, and then those of the symbols.
#[tactic(auto, unfolding(affine_grammar::specs::Reading::operands))]
pub fn operands(
    alloc: Global,
    tokens: &mut Tokens<'_>,
    dims: u32,
    syms: u32,
) -> Result<Items<Name>, Refusal>
    ensures { Takes result (spec.operands dims syms tokens.old) tokens.new }
{
    let mut operands = values(alloc, tokens, b'(', b')', dims)?;
    operands.append(symbol_values(alloc, tokens, syms)?)?;
    Ok(fitted(alloc, operands)?)
}

#[tactic(auto, unfolding(affine_grammar::specs::Reading::some_map))]
fn some_map(
    alloc: Global,
    tokens: &mut Tokens<'_>,
    aliases: &Aliases,
    several: bool,
    total: u32,
) -> Result<(Map, u32), Refusal>
    ensures { Takes result (spec.some_map aliases.now several total tokens.old) tokens.new }
{
    if tokens.at_alias() {
        return tokens.alias_map(alloc, aliases, several, total);
    }
    map0(alloc, tokens, several, total)
}

/// A set or the alias of one.
#[tactic(auto, unfolding(affine_grammar::specs::Reading::some_set))]
pub fn some_set(
    alloc: Global,
    tokens: &mut Tokens<'_>,
    aliases: &Aliases,
    total: u32,
) -> Result<(Set, u32), Refusal>
    ensures { Takes result (spec.some_set aliases.now total tokens.old) tokens.new }
{
    if tokens.at_alias() {
        return tokens.alias_set(alloc, aliases, total);
    }
    set0(alloc, tokens, total)
}

/// A map or the alias of one, with its operands.
#[tactic(auto, unfolding(affine_grammar::specs::Reading::use_of))]
pub fn use_of(
    alloc: Global,
    tokens: &mut Tokens<'_>,
    aliases: &Aliases,
    several: bool,
    total: u32,
) -> Result<(Access, u32), Refusal>
    ensures { Takes result (spec.use_of aliases.now several total tokens.old) tokens.new }
{
    let (map, total) = some_map(alloc, tokens, aliases, several, total)?;
    let operands = operands(alloc, tokens, map.dims, map.syms)?;
    Ok((Access { map, operands }, total))
}

/// The map of subscripts: its dimensions and symbols are the values that have stood.
fn access_of(alloc: Global, results: Items<Expr>, state: State) -> Result<(Access, u32), Refusal>
    ensures { MatchResult result (λ read. read ≡ access_with (results, state)) (λ refusal. refusal ≡ Memory) }
{
    let State {
        total,
        dims,
        syms,
        ..
    } = state;
    let map = Map {
        dims: numbered(dims.len())?,
        syms: numbered(syms.len())?,
        results,
    };
    let mut operands = dims.into_items();
    operands.append(syms.into_items())?;
    let operands = fitted(alloc, operands)?;
    Ok((Access { map, operands }, total))
}

/// The subscripts up to their bracket.
fn subscript_list(
    alloc: Global,
    tokens: &mut Tokens<'_>,
    state: &mut State,
) -> Result<Items<Expr>, Refusal>
    ensures { Reads result (listed (tok.at_sign 93) (tok.sign 93) ([], state.old) (bind (spec.result_of leaves_of.Values ([], state.old)) (many (tok.at_sign 44) (spec.next_result leaves_of.Values true))) tokens.old) state.new tokens.new }
{
    if tokens.next_is(b']') {
        tokens.sign(b']')?;
        return Ok(Items::new(alloc));
    }
    let results = some_results(alloc, tokens, Leaves::Values, true, state)?;
    tokens.sign(b']')?;
    Ok(fitted(alloc, results)?)
}

/// No value has stood yet.
fn without_values(alloc: Global, tokens: &Tokens<'_>, total: u32) -> State
    ensures { result ≡ no_values total }
{
    State {
        operands: 0,
        total,
        dims: Names::new(alloc, tokens.hashing()),
        syms: Names::new(alloc, tokens.hashing()),
    }
}

#[tactic(auto, unfolding(affine_grammar::specs::Reading::subscripts))]
pub fn subscripts(
    alloc: Global,
    tokens: &mut Tokens<'_>,
    total: u32,
) -> Result<(Access, u32), Refusal>
    ensures { Takes result (spec.subscripts total tokens.old) tokens.new }
{
    tokens.sign(b'[')?;
    let mut state = without_values(alloc, tokens, total);
    let results = subscript_list(alloc, tokens, &mut state)?;
    access_of(alloc, results, state)
}

#[tactic(auto, using(affine_grammar::proofs::Steps::value_more, affine_grammar::proofs::Steps::value_done, affine_grammar::proofs::Steps::value_shorter))]
fn some_values(alloc: Global, tokens: &mut Tokens<'_>) -> Result<Items<Name>, Refusal>
    ensures { Takes result (bind (spec.one_value []) (many (tok.at_sign 44) spec.next_value) tokens.old) tokens.new }
{
    let mut values = one_value(alloc, tokens, Items::new(alloc))?;
    'values: while tokens.next_is(b',') {
        values = next_value(alloc, tokens, values)?;
    }
    Ok(values)
}

/// The subscripts of a raw access.
#[tactic(auto, unfolding(affine_grammar::specs::Reading::brackets))]
pub fn brackets(alloc: Global, tokens: &mut Tokens<'_>) -> Result<Items<Name>, Refusal>
    ensures { Takes result (spec.brackets tokens.old) tokens.new }
{
    tokens.sign(b'[')?;
    if tokens.next_is(b']') {
        tokens.sign(b']')?;
        return Ok(Items::new(alloc));
    }
    let values = some_values(alloc, tokens)?;
    tokens.sign(b']')?;
    Ok(fitted(alloc, values)?)
}
