// The statements without a result that hold no regions.
ghost use Rattle.std.specs.Prelude.{◌≡◌, None};
ghost use Rattle.readers.specs.Readers.{optional};
ghost use Rattle.affine_grammar.specs.ReadingFile as spec;
ghost use Rattle.affine_grammar.specs.Token as tok;
ghost use Rattle.affine_grammar.specs.declared.words.Action.TheVariants as action;
ghost use Rattle.token_cursor.specs.Input.{Takes};

use crate::definitions::typed;
use affine_ast::{Access, Name, What};
use affine_grammar::Aliases;
use expression_text::{brackets, memref, subscripts};
use std::alloc::Global;
use token_cursor::{Refusal, Tokens};

#[tactic(auto, unfolding(affine_grammar::specs::ReadingFile::acted))]
pub(crate) fn store(
    alloc: Global,
    tokens: &mut Tokens<'_>,
    aliases: &Aliases,
    left: u32,
    total: u32,
) -> Result<(What, u32), Refusal>
    ensures { Takes result (spec.acted (spec.region aliases.now left) aliases.now total action.Store tokens.old) tokens.new }
{
    let value = tokens.value(alloc)?;
    tokens.sign(b',')?;
    let memref = tokens.value(alloc)?;
    let (at, total) = subscripts(alloc, tokens, total)?;
    let ty = typed(alloc, tokens)?;
    Ok((
        What::Store {
            value,
            memref,
            at,
            ty,
        },
        total,
    ))
}

#[tactic(auto, unfolding(affine_grammar::specs::ReadingFile::acted))]
pub(crate) fn raw_store(
    alloc: Global,
    tokens: &mut Tokens<'_>,
    aliases: &Aliases,
    left: u32,
    total: u32,
) -> Result<(What, u32), Refusal>
    ensures { Takes result (spec.acted (spec.region aliases.now left) aliases.now total action.RawStore tokens.old) tokens.new }
{
    let value = tokens.value(alloc)?;
    tokens.sign(b',')?;
    let memref = tokens.value(alloc)?;
    let at = brackets(alloc, tokens)?;
    let ty = typed(alloc, tokens)?;
    Ok((
        What::RawStore {
            value,
            memref,
            at,
            ty,
        },
        total,
    ))
}

#[tactic(auto, unfolding(affine_grammar::specs::ReadingFile::acted))]
pub(crate) fn dealloc(
    alloc: Global,
    tokens: &mut Tokens<'_>,
    aliases: &Aliases,
    left: u32,
    total: u32,
) -> Result<(What, u32), Refusal>
    ensures { Takes result (spec.acted (spec.region aliases.now left) aliases.now total action.Dealloc tokens.old) tokens.new }
{
    let memref = tokens.value(alloc)?;
    let ty = typed(alloc, tokens)?;
    Ok((What::Dealloc { memref, ty }, total))
}

/// A memref of a transfer with its subscripts, and the operands of the module up to their end.
#[tactic(auto, unfolding(affine_grammar::specs::ReadingFile::part))]
fn part(
    alloc: Global,
    tokens: &mut Tokens<'_>,
    total: u32,
) -> Result<(Name, (Access, u32)), Refusal>
    ensures { Takes result (spec.part total tokens.old) tokens.new }
{
    let memref = tokens.value(alloc)?;
    let at = subscripts(alloc, tokens, total)?;
    Ok((memref, at))
}

/// The stride and the chunk of a transfer, where it has them.
#[tactic(auto, unfolding(affine_grammar::specs::ReadingFile::stride_part))]
fn stride(alloc: Global, tokens: &mut Tokens<'_>) -> Result<Option<(Name, Name)>, Refusal>
    ensures { Takes result (optional (tok.at_sign 44) spec.stride_part None tokens.old) tokens.new }
{
    if !tokens.next_is(b',') {
        return Ok(None);
    }
    tokens.sign(b',')?;
    let stride = tokens.value(alloc)?;
    tokens.sign(b',')?;
    let chunk = tokens.value(alloc)?;
    Ok(Some((stride, chunk)))
}

#[tactic(auto, unfolding(affine_grammar::specs::ReadingFile::acted))]
pub(crate) fn start(
    alloc: Global,
    tokens: &mut Tokens<'_>,
    aliases: &Aliases,
    left: u32,
    total: u32,
) -> Result<(What, u32), Refusal>
    ensures { Takes result (spec.acted (spec.region aliases.now left) aliases.now total action.Start tokens.old) tokens.new }
{
    let (from, (from_at, total)) = part(alloc, tokens, total)?;
    tokens.sign(b',')?;
    let (to, (to_at, total)) = part(alloc, tokens, total)?;
    tokens.sign(b',')?;
    let (tag, (tag_at, total)) = part(alloc, tokens, total)?;
    tokens.sign(b',')?;
    let count = tokens.value(alloc)?;
    let stride = stride(alloc, tokens)?;
    tokens.sign(b':')?;
    let from_type = memref(alloc, tokens)?;
    tokens.sign(b',')?;
    let to_type = memref(alloc, tokens)?;
    tokens.sign(b',')?;
    let tag_type = memref(alloc, tokens)?;
    Ok((
        What::Start {
            from,
            from_at,
            to,
            to_at,
            tag,
            tag_at,
            count,
            stride,
            types: [from_type, to_type, tag_type],
        },
        total,
    ))
}

#[tactic(auto, unfolding(affine_grammar::specs::ReadingFile::acted))]
pub(crate) fn wait(
    alloc: Global,
    tokens: &mut Tokens<'_>,
    aliases: &Aliases,
    left: u32,
    total: u32,
) -> Result<(What, u32), Refusal>
    ensures { Takes result (spec.acted (spec.region aliases.now left) aliases.now total action.Wait tokens.old) tokens.new }
{
    let (tag, (tag_at, total)) = part(alloc, tokens, total)?;
    tokens.sign(b',')?;
    let count = tokens.value(alloc)?;
    let ty = typed(alloc, tokens)?;
    Ok((
        What::Wait {
            tag,
            tag_at,
            count,
            ty,
        },
        total,
    ))
}
