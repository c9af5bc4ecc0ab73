// Affine expressions. Products and sums associate to the left; so many parentheses and negations may stand inside one another.
ghost use Rattle.std.specs.Prelude.{◌≡◌, ◌++◌, ◌∷◌, [], MatchResult};
ghost use Rattle.affine_grammar.specs.Reading as spec;
ghost use Rattle.affine_grammar.specs.Token as tok;
ghost use Rattle.token_cursor.specs.Input.{Reads};
ghost use Rattle.token_cursor.specs.declared.refusal.Refusal.TheVariants.{Memory};

use affine_expr::Expr;
use affine_grammar::{Leaves, Operator, State};
use sqlite_items::{Boxed, Items};
use std::alloc::Global;
use token_cursor::{Refusal, Tokens};

/// How many parentheses and negations may stand inside one another.
const LEVELS: u32 = 128;

#[tactic(auto, unfolding(affine_grammar::specs::Reading::leaf))]
fn leaf(
    alloc: Global,
    tokens: &mut Tokens<'_>,
    leaves: Leaves,
    state: &mut State,
) -> Result<Expr, Refusal>
    ensures { Reads result (spec.leaf leaves state.old tokens.old) state.new tokens.new }
{
    match leaves {
        Leaves::Parameters => tokens.parameter(state),
        Leaves::Values => {
            if !tokens.next_is_word(b"symbol") {
                return tokens.dimension(alloc, state);
            }
            tokens.symbol_word(state)?;
            tokens.sign(b'(')?;
            let symbol = tokens.symbol(alloc, state)?;
            tokens.sign(b')')?;
            Ok(symbol)
        }
    }
}

#[cycle(expressions)]
fn unary(
    alloc: Global,
    tokens: &mut Tokens<'_>,
    leaves: Leaves,
    left: u32,
    state: &mut State,
) -> Result<Expr, Refusal>
    ensures { Reads result (spec.unary leaves left state.old tokens.old) state.new tokens.new }
{
    if tokens.at_number() {
        return tokens.number(state);
    }
    other(alloc, tokens, leaves, left, state)
}

/// What is no integer without a sign.
#[cycle(expressions)]
#[tactic(auto, unfolding(affine_grammar::specs::Reading::other))]
fn other(
    alloc: Global,
    tokens: &mut Tokens<'_>,
    leaves: Leaves,
    left: u32,
    state: &mut State,
) -> Result<Expr, Refusal>
    ensures { Reads result (spec.other leaves left state.old tokens.old) state.new tokens.new }
{
    if tokens.next_is(b'-') {
        tokens.sign(b'-')?;
        if left == 0 || tokens.at_number() {
            return tokens.negative_number(state);
        }
        let inner = other(alloc, tokens, leaves, left - 1, state)?;
        return Ok(Expr::Neg(Boxed::new(alloc, inner)?));
    }
    if left > 0 && tokens.next_is(b'(') {
        tokens.sign(b'(')?;
        let inner = sum(alloc, tokens, leaves, left - 1, state)?;
        tokens.sign(b')')?;
        return Ok(inner);
    }
    leaf(alloc, tokens, leaves, state)
}

#[cycle(expressions)]
fn factor(
    alloc: Global,
    tokens: &mut Tokens<'_>,
    leaves: Leaves,
    left: u32,
    before: Expr,
    state: &mut State,
) -> Result<Expr, Refusal>
    ensures { Reads result (spec.factor (spec.unary leaves left) (before, state.old) tokens.old) state.new tokens.new }
{
    let operator = tokens.product_operator()?;
    let right = unary(alloc, tokens, leaves, left, state)?;
    joined(alloc, operator, before, right)
}

#[cycle(expressions)]
#[tactic(auto, using(affine_grammar::proofs::Steps::factor_more, affine_grammar::proofs::Steps::factor_done, affine_grammar::proofs::Steps::factor_shorter))]
fn product(
    alloc: Global,
    tokens: &mut Tokens<'_>,
    leaves: Leaves,
    left: u32,
    state: &mut State,
) -> Result<Expr, Refusal>
    ensures { Reads result (spec.product (spec.unary leaves left) state.old tokens.old) state.new tokens.new }
{
    let mut value = unary(alloc, tokens, leaves, left, state)?;
    'factors: while tokens.at_product() {
        value = factor(alloc, tokens, leaves, left, value, state)?;
    }
    Ok(value)
}

#[cycle(expressions)]
fn summand(
    alloc: Global,
    tokens: &mut Tokens<'_>,
    leaves: Leaves,
    left: u32,
    before: Expr,
    state: &mut State,
) -> Result<Expr, Refusal>
    ensures { Reads result (spec.summand (spec.unary leaves left) (before, state.old) tokens.old) state.new tokens.new }
{
    let operator = tokens.sum_operator()?;
    let right = product(alloc, tokens, leaves, left, state)?;
    joined(alloc, operator, before, right)
}

#[cycle(expressions)]
#[tactic(auto, using(affine_grammar::proofs::Steps::summand_more, affine_grammar::proofs::Steps::summand_done, affine_grammar::proofs::Steps::summand_shorter))]
fn sum(
    alloc: Global,
    tokens: &mut Tokens<'_>,
    leaves: Leaves,
    left: u32,
    state: &mut State,
) -> Result<Expr, Refusal>
    ensures { Reads result (spec.sum (spec.unary leaves left) state.old tokens.old) state.new tokens.new }
{
    let mut value = product(alloc, tokens, leaves, left, state)?;
    'summands: while tokens.at_sum() {
        value = summand(alloc, tokens, leaves, left, value, state)?;
    }
    Ok(value)
}

fn joined(alloc: Global, operator: Operator, left: Expr, right: Expr) -> Result<Expr, Refusal>
    ensures { MatchResult result (λ e. e ≡ tok.joined operator left right) (λ refusal. refusal ≡ Memory) }
{
    let left = Boxed::new(alloc, left)?;
    let right = Boxed::new(alloc, right)?;
    Ok(match operator {
        Operator::Add => Expr::Add(left, right),
        Operator::Sub => Expr::Sub(left, right),
        Operator::Mul => Expr::Mul(left, right),
        Operator::FloorDiv => Expr::FloorDiv(left, right),
        Operator::CeilDiv => Expr::CeilDiv(left, right),
        Operator::Mod => Expr::Mod(left, right),
    })
}

/// A whole expression: its operands are counted from 0.
#[tactic(auto, unfolding(affine_grammar::specs::Reading::expression))]
pub(crate) fn expression(
    alloc: Global,
    tokens: &mut Tokens<'_>,
    leaves: Leaves,
    state: &mut State,
) -> Result<Expr, Refusal>
    ensures { Reads result (spec.expression leaves state.old tokens.old) state.new tokens.new }
{
    state.operands = 0;
    sum(alloc, tokens, leaves, LEVELS, state)
}

/// One expression more of a list.
pub(crate) fn result_of(
    alloc: Global,
    tokens: &mut Tokens<'_>,
    leaves: Leaves,
    before: Items<Expr>,
    state: &mut State,
) -> Result<Items<Expr>, Refusal>
    ensures { Reads result (spec.result_of leaves (before, state.old) tokens.old) state.new tokens.new }
{
    let mut results = before;
    results.push(expression(alloc, tokens, leaves, state)?)?;
    Ok(results)
}
