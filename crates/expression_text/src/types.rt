// Types and integers.
ghost use Rattle.readers.specs.Readers.{optional};
ghost use Rattle.affine_grammar.specs.Reading as spec;
ghost use Rattle.affine_grammar.specs.Token as tok;
ghost use Rattle.token_cursor.specs.Input.{Takes};

use affine_ast::MemrefType;
use sqlite_items::Items;
use std::alloc::Global;
use token_cursor::{Refusal, Tokens};

fn one_size(tokens: &mut Tokens<'_>, before: Items<u32>) -> Result<Items<u32>, Refusal>
    ensures { Takes result (spec.one_size before tokens.old) tokens.new }
{
    let mut sizes = before;
    sizes.push(tokens.size()?)?;
    Ok(sizes)
}

/// The sizes of a memref, outermost first.
#[tactic(auto, using(affine_grammar::proofs::Steps::size_more, affine_grammar::proofs::Steps::size_done, affine_grammar::proofs::Steps::size_shorter))]
fn sizes(alloc: Global, tokens: &mut Tokens<'_>) -> Result<Items<u32>, Refusal>
    ensures { Takes result (spec.sizes tokens.old) tokens.new }
{
    let mut sizes = Items::new(alloc);
    'sizes: while tokens.at_size() {
        sizes = one_size(tokens, sizes)?;
    }
    Ok(sizes)
}

/// The memory space of a memref, which is 0 where none is written.
#[tactic(auto, unfolding(affine_grammar::specs::Reading::space_part, affine_grammar::specs::Reading::space_type))]
fn space(tokens: &mut Tokens<'_>) -> Result<u8, Refusal>
    ensures { Takes result (optional (tok.at_sign 44) spec.space_part 0 tokens.old) tokens.new }
{
    if !tokens.next_is(b',') {
        return Ok(0);
    }
    tokens.sign(b',')?;
    let space = tokens.space()?;
    if tokens.next_is(b':') {
        tokens.sign(b':')?;
        tokens.int_type()?;
    }
    Ok(space)
}

#[tactic(auto, unfolding(affine_grammar::specs::Reading::shape))]
fn shape(alloc: Global, tokens: &mut Tokens<'_>) -> Result<MemrefType, Refusal>
    ensures { Takes result (spec.shape tokens.old) tokens.new }
{
    let sizes = sizes(alloc, tokens)?;
    let element = tokens.element()?;
    let space = space(tokens)?;
    Ok(MemrefType {
        sizes,
        element,
        space,
    })
}

#[tactic(auto, unfolding(affine_grammar::specs::Reading::memref))]
pub fn memref(alloc: Global, tokens: &mut Tokens<'_>) -> Result<MemrefType, Refusal>
    ensures { Takes result (spec.memref tokens.old) tokens.new }
{
    tokens.word(b"memref")?;
    tokens.sign(b'<')?;
    let ty = shape(alloc, tokens)?;
    tokens.sign(b'>')?;
    Ok(ty)
}

/// An integer with an optional `-`.
#[tactic(auto, unfolding(affine_grammar::specs::Reading::signed))]
pub fn signed(tokens: &mut Tokens<'_>) -> Result<i64, Refusal>
    ensures { Takes result (spec.signed tokens.old) tokens.new }
{
    if tokens.next_is(b'-') {
        tokens.sign(b'-')?;
        return tokens.negative();
    }
    tokens.integer()
}
