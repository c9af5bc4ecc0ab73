// Statements and regions, of which at most so many stand inside one another.
ghost use Rattle.std.specs.Prelude.{◌≡◌, ◌++◌, ◌∷◌, [], codes, MatchResult, None};
ghost use Rattle.readers.specs.Readers.{optional};
ghost use Rattle.affine_grammar.specs.ReadingFile as spec;
ghost use Rattle.affine_grammar.specs.Token as tok;
ghost use Rattle.affine_grammar.specs.declared.words.Action.TheVariants.{For, If};
ghost use Rattle.token_cursor.specs.Input.{Takes};
ghost use Rattle.token_cursor.specs.declared.refusal.Refusal.TheVariants.{Memory};

use crate::actions::{dealloc, raw_store, start, store, wait};
use crate::definitions::{defined, turns_of};
use affine_ast::{Stmt, What};
use affine_grammar::{Action, Aliases};
use expression_text::{operands, some_set};
use sqlite_items::Items;
use std::alloc::Global;
use token_cursor::{Refusal, Tokens, fitted};

/// The statements between braces, and the operands of the module up to their end. One region too many is refused at its
/// brace.
#[cycle(regions)]
#[tactic(auto, unfolding(affine_grammar::specs::ReadingFile::region))]
fn region(
    alloc: Global,
    tokens: &mut Tokens<'_>,
    aliases: &Aliases,
    left: u32,
    total: u32,
) -> Result<(Items<Stmt>, u32), Refusal>
    ensures { Takes result (spec.region aliases.now left total tokens.old) tokens.new }
{
    if left == 0 {
        tokens.brace_too_many()?;
        tokens.sign(b'}')?;
        return Ok((Items::new(alloc), total));
    }
    tokens.sign(b'{')?;
    let (statements, total) = statements(alloc, tokens, aliases, left - 1, total)?;
    tokens.sign(b'}')?;
    Ok((fitted(alloc, statements)?, total))
}

/// The statements of a region, within which `left` more may stand inside one another.
#[cycle(regions)]
#[tactic(auto, using(affine_grammar::proofs::Steps::stmt_more, affine_grammar::proofs::Steps::stmt_done, affine_grammar::proofs::Steps::stmt_shorter))]
pub(crate) fn statements(
    alloc: Global,
    tokens: &mut Tokens<'_>,
    aliases: &Aliases,
    left: u32,
    total: u32,
) -> Result<(Items<Stmt>, u32), Refusal>
    ensures { Takes result (spec.statements (spec.region aliases.now left) aliases.now total tokens.old) tokens.new }
{
    let mut read = (Items::new(alloc), total);
    'statements: while tokens.at_statement() {
        read = statement(alloc, tokens, aliases, left, read)?;
    }
    Ok(read)
}

/// One statement more, on its line.
fn behind(before: Items<Stmt>, line: u32, what: What) -> Result<Items<Stmt>, Refusal>
    ensures { MatchResult result (λ statements. statements ≡ before ++ record { line = line; what = what } ∷ []) (λ refusal. refusal ≡ Memory) }
{
    let mut statements = before;
    statements.push(Stmt { line, what })?;
    Ok(statements)
}

#[cycle(regions)]
fn statement(
    alloc: Global,
    tokens: &mut Tokens<'_>,
    aliases: &Aliases,
    left: u32,
    before: (Items<Stmt>, u32),
) -> Result<(Items<Stmt>, u32), Refusal>
    ensures { Takes result (spec.statement (spec.region aliases.now left) aliases.now before tokens.old) tokens.new }
{
    let (statements, total) = before;
    if tokens.at_value() {
        let (line, name) = tokens.value_on_line(alloc)?;
        tokens.sign(b'=')?;
        let word = tokens.definition()?;
        let (what, total) = defined(alloc, tokens, aliases, total, name, word)?;
        return Ok((behind(statements, line, what)?, total));
    }
    let (line, word) = tokens.action()?;
    let (what, total) = acted(alloc, tokens, aliases, left, total, word)?;
    Ok((behind(statements, line, what)?, total))
}

/// What stands behind the word of a statement without a result.
#[cycle(regions)]
fn acted(
    alloc: Global,
    tokens: &mut Tokens<'_>,
    aliases: &Aliases,
    left: u32,
    total: u32,
    word: Action,
) -> Result<(What, u32), Refusal>
    ensures { Takes result (spec.acted (spec.region aliases.now left) aliases.now total word tokens.old) tokens.new }
{
    match word {
        Action::For => looped(alloc, tokens, aliases, left, total),
        Action::If => chosen(alloc, tokens, aliases, left, total),
        Action::Store => store(alloc, tokens, aliases, left, total),
        Action::RawStore => raw_store(alloc, tokens, aliases, left, total),
        Action::Dealloc => dealloc(alloc, tokens, aliases, left, total),
        Action::Start => start(alloc, tokens, aliases, left, total),
        Action::Wait => wait(alloc, tokens, aliases, left, total),
    }
}

#[cycle(regions)]
#[tactic(auto, unfolding(affine_grammar::specs::ReadingFile::acted))]
fn looped(
    alloc: Global,
    tokens: &mut Tokens<'_>,
    aliases: &Aliases,
    left: u32,
    total: u32,
) -> Result<(What, u32), Refusal>
    ensures { Takes result (spec.acted (spec.region aliases.now left) aliases.now total For tokens.old) tokens.new }
{
    let var = tokens.value(alloc)?;
    tokens.sign(b'=')?;
    let turns = turns_of(alloc, tokens, aliases, total)?;
    let (body, total) = region(alloc, tokens, aliases, left, turns.total)?;
    Ok((
        What::For {
            var,
            lower: turns.lower,
            upper: turns.upper,
            step: turns.step,
            body,
        },
        total,
    ))
}

#[cycle(regions)]
fn else_part(
    alloc: Global,
    tokens: &mut Tokens<'_>,
    aliases: &Aliases,
    left: u32,
    total: u32,
) -> Result<(Option<Items<Stmt>>, u32), Refusal>
    ensures { Takes result (optional (tok.at_word (codes "else")) (spec.else_part (spec.region aliases.now left) total) (None, total) tokens.old) tokens.new }
{
    if !tokens.next_is_word(b"else") {
        return Ok((None, total));
    }
    tokens.word(b"else")?;
    let (other, total) = region(alloc, tokens, aliases, left, total)?;
    Ok((Some(other), total))
}

#[cycle(regions)]
#[tactic(auto, unfolding(affine_grammar::specs::ReadingFile::acted))]
fn chosen(
    alloc: Global,
    tokens: &mut Tokens<'_>,
    aliases: &Aliases,
    left: u32,
    total: u32,
) -> Result<(What, u32), Refusal>
    ensures { Takes result (spec.acted (spec.region aliases.now left) aliases.now total If tokens.old) tokens.new }
{
    let (set, total) = some_set(alloc, tokens, aliases, total)?;
    let operands = operands(alloc, tokens, set.dims, set.syms)?;
    let (first, total) = region(alloc, tokens, aliases, left, total)?;
    let (other, total) = else_part(alloc, tokens, aliases, left, total)?;
    Ok((
        What::If {
            set,
            operands,
            first,
            other,
        },
        total,
    ))
}
