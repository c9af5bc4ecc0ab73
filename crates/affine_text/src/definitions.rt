// Bounds of loops, and the statements that hold no regions.
ghost use Rattle.std.specs.Prelude.{◌≡◌, codes, pos};
ghost use Rattle.readers.specs.Readers.{optional};
ghost use Rattle.affine_grammar.specs.ReadingFile as spec;
ghost use Rattle.affine_grammar.specs.Token as tok;
ghost use Rattle.affine_grammar.specs.declared.words.Definition.TheVariants as definition;
ghost use Rattle.token_cursor.specs.Input.{Takes};

use affine_ast::{Bound, MemrefType, Name, Pick, What};
use affine_grammar::{Aliases, Definition, Turns};
use expression_text::{brackets, memref, signed, subscripts, use_of};
use int_ops::{CastKind, Op};
use std::alloc::Global;
use token_cursor::{Refusal, Tokens};

/// A bound, in which several results need this word.
#[tactic(auto, unfolding(affine_grammar::specs::ReadingFile::bound_of))]
fn bound_of(
    alloc: Global,
    tokens: &mut Tokens<'_>,
    word: &[u8],
    aliases: &Aliases,
    total: u32,
) -> Result<(Bound, u32), Refusal>
    ensures { Takes result (spec.bound_of word.now aliases.now total tokens.old) tokens.new }
{
    if tokens.at_integer() {
        return Ok((Bound::Int(signed(tokens)?), total));
    }
    if tokens.at_value() {
        return Ok((Bound::Value(tokens.value(alloc)?), total));
    }
    let several = tokens.next_is_word(word);
    if several {
        tokens.word(word)?;
    }
    let (at, total) = use_of(alloc, tokens, aliases, several, total)?;
    Ok((Bound::Map(at), total))
}

/// The step of a loop, which is 1 where none is written.
#[tactic(auto, unfolding(affine_grammar::specs::ReadingFile::step_part))]
fn step(tokens: &mut Tokens<'_>) -> Result<i64, Refusal>
    ensures { Takes result (optional (tok.at_word (codes "step")) spec.step_part (pos 1) tokens.old) tokens.new }
{
    if !tokens.next_is_word(b"step") {
        return Ok(1);
    }
    tokens.word(b"step")?;
    tokens.integer()
}

#[tactic(auto, unfolding(affine_grammar::specs::ReadingFile::turns_of))]
pub(crate) fn turns_of(
    alloc: Global,
    tokens: &mut Tokens<'_>,
    aliases: &Aliases,
    total: u32,
) -> Result<Turns, Refusal>
    ensures { Takes result (spec.turns_of aliases.now total tokens.old) tokens.new }
{
    let (lower, total) = bound_of(alloc, tokens, b"max", aliases, total)?;
    tokens.word(b"to")?;
    let (upper, total) = bound_of(alloc, tokens, b"min", aliases, total)?;
    let step = step(tokens)?;
    Ok(Turns {
        lower,
        upper,
        step,
        total,
    })
}

/// A memref type behind its `:`.
pub(crate) fn typed(alloc: Global, tokens: &mut Tokens<'_>) -> Result<MemrefType, Refusal>
    ensures { Takes result (spec.typed (λ ty. ty) tokens.old) tokens.new }
{
    tokens.sign(b':')?;
    memref(alloc, tokens)
}

#[tactic(auto, unfolding(affine_grammar::specs::ReadingFile::defined))]
fn chosen(
    alloc: Global,
    tokens: &mut Tokens<'_>,
    aliases: &Aliases,
    total: u32,
    name: Name,
    pick: Pick,
) -> Result<(What, u32), Refusal>
    ensures { Takes result (spec.defined aliases.now total name (definition.Value pick) tokens.old) tokens.new }
{
    let (at, total) = use_of(alloc, tokens, aliases, true, total)?;
    Ok((
        What::Value {
            result: name,
            pick,
            at,
        },
        total,
    ))
}

#[tactic(auto, unfolding(affine_grammar::specs::ReadingFile::defined))]
fn load(
    alloc: Global,
    tokens: &mut Tokens<'_>,
    aliases: &Aliases,
    total: u32,
    name: Name,
) -> Result<(What, u32), Refusal>
    ensures { Takes result (spec.defined aliases.now total name definition.Load tokens.old) tokens.new }
{
    let memref = tokens.value(alloc)?;
    let (at, total) = subscripts(alloc, tokens, total)?;
    let ty = typed(alloc, tokens)?;
    Ok((
        What::Load {
            result: name,
            memref,
            at,
            ty,
        },
        total,
    ))
}

#[tactic(auto, unfolding(affine_grammar::specs::ReadingFile::defined))]
fn raw_load(
    alloc: Global,
    tokens: &mut Tokens<'_>,
    aliases: &Aliases,
    total: u32,
    name: Name,
) -> Result<(What, u32), Refusal>
    ensures { Takes result (spec.defined aliases.now total name definition.RawLoad tokens.old) tokens.new }
{
    let memref = tokens.value(alloc)?;
    let at = brackets(alloc, tokens)?;
    let ty = typed(alloc, tokens)?;
    Ok((
        What::RawLoad {
            result: name,
            memref,
            at,
            ty,
        },
        total,
    ))
}

#[tactic(auto, unfolding(affine_grammar::specs::ReadingFile::defined))]
fn constant(
    tokens: &mut Tokens<'_>,
    aliases: &Aliases,
    total: u32,
    name: Name,
) -> Result<(What, u32), Refusal>
    ensures { Takes result (spec.defined aliases.now total name definition.Constant tokens.old) tokens.new }
{
    let value = signed(tokens)?;
    tokens.sign(b':')?;
    let ty = tokens.scalar()?;
    Ok((
        What::Constant {
            result: name,
            value,
            ty,
        },
        total,
    ))
}

#[tactic(auto, unfolding(affine_grammar::specs::ReadingFile::defined))]
fn binary(
    alloc: Global,
    tokens: &mut Tokens<'_>,
    aliases: &Aliases,
    total: u32,
    name: Name,
    op: Op,
) -> Result<(What, u32), Refusal>
    ensures { Takes result (spec.defined aliases.now total name (definition.Binary op) tokens.old) tokens.new }
{
    let left = tokens.value(alloc)?;
    tokens.sign(b',')?;
    let right = tokens.value(alloc)?;
    tokens.sign(b':')?;
    let ty = tokens.scalar()?;
    Ok((
        What::Binary {
            result: name,
            op,
            left,
            right,
            ty,
        },
        total,
    ))
}

#[tactic(auto, unfolding(affine_grammar::specs::ReadingFile::defined))]
fn cast(
    alloc: Global,
    tokens: &mut Tokens<'_>,
    aliases: &Aliases,
    total: u32,
    name: Name,
    kind: CastKind,
) -> Result<(What, u32), Refusal>
    ensures { Takes result (spec.defined aliases.now total name (definition.Cast kind) tokens.old) tokens.new }
{
    let value = tokens.value(alloc)?;
    tokens.sign(b':')?;
    let from = tokens.scalar()?;
    tokens.word(b"to")?;
    let to = tokens.scalar()?;
    Ok((
        What::Cast {
            result: name,
            kind,
            value,
            from,
            to,
        },
        total,
    ))
}

#[tactic(auto, unfolding(affine_grammar::specs::ReadingFile::defined))]
fn alloc_of(
    alloc: Global,
    tokens: &mut Tokens<'_>,
    aliases: &Aliases,
    total: u32,
    name: Name,
) -> Result<(What, u32), Refusal>
    ensures { Takes result (spec.defined aliases.now total name definition.Alloc tokens.old) tokens.new }
{
    tokens.sign(b'(')?;
    tokens.sign(b')')?;
    let ty = typed(alloc, tokens)?;
    Ok((What::Alloc { result: name, ty }, total))
}

/// What stands behind a result, its `=` and the word of the statement.
pub(crate) fn defined(
    alloc: Global,
    tokens: &mut Tokens<'_>,
    aliases: &Aliases,
    total: u32,
    name: Name,
    word: Definition,
) -> Result<(What, u32), Refusal>
    ensures { Takes result (spec.defined aliases.now total name word tokens.old) tokens.new }
{
    match word {
        Definition::Value(pick) => chosen(alloc, tokens, aliases, total, name, pick),
        Definition::Load => load(alloc, tokens, aliases, total, name),
        Definition::RawLoad => raw_load(alloc, tokens, aliases, total, name),
        Definition::Constant => constant(tokens, aliases, total, name),
        Definition::Binary(op) => binary(alloc, tokens, aliases, total, name, op),
        Definition::Cast(kind) => cast(alloc, tokens, aliases, total, name, kind),
        Definition::Alloc => alloc_of(alloc, tokens, aliases, total, name),
    }
}
