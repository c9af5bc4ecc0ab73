// The function with its arguments, and the file with its aliases.
ghost use Rattle.std.specs.Prelude.{◌≡◌, ◌++◌, ◌∷◌, [], codes, MatchResult, None};
ghost use Rattle.readers.specs.Readers.{bind, many, optional};
ghost use Rattle.affine_grammar.specs.ReadingFile as spec;
ghost use Rattle.affine_grammar.specs.Token as tok;
ghost use Rattle.token_cursor.specs.Input.{Takes};

use crate::regions::statements;
use affine_ast::{Arg, ArgKind, Module, Stmt, What};
use affine_expr::Interval;
use affine_grammar::{Alias, Aliases, Body};
use expression_text::{map0, memref, set0, signed};
use sqlite_items::Items;
use std::alloc::Global;
use token_cursor::{Refusal, Tokens, fitted};

/// How many regions may stand inside the function's, one inside the other.
const LEVELS: u32 = 39;

/// An end of a range.
#[tactic(auto, unfolding(affine_grammar::specs::ReadingFile::range_end))]
fn range_end(tokens: &mut Tokens<'_>) -> Result<i64, Refusal>
    ensures { Takes result (spec.range_end tokens.old) tokens.new }
{
    let end = signed(tokens)?;
    if tokens.next_is(b':') {
        tokens.sign(b':')?;
        tokens.word(b"i64")?;
    }
    Ok(end)
}

/// The range of an index argument, where one is written.
#[tactic(auto, unfolding(affine_grammar::specs::ReadingFile::range_part))]
fn range(tokens: &mut Tokens<'_>) -> Result<Option<Interval>, Refusal>
    ensures { Takes result (optional (tok.at_sign 123) spec.range_part None tokens.old) tokens.new }
{
    if !tokens.next_is(b'{') {
        return Ok(None);
    }
    tokens.sign(b'{')?;
    tokens.word(b"copy.range")?;
    tokens.sign(b'=')?;
    tokens.sign(b'[')?;
    let least = range_end(tokens)?;
    tokens.sign(b',')?;
    let greatest = range_end(tokens)?;
    tokens.sign(b']')?;
    tokens.sign(b'}')?;
    Ok(Some(Interval { least, greatest }))
}

#[tactic(auto, unfolding(affine_grammar::specs::ReadingFile::arg_kind))]
fn arg_kind(alloc: Global, tokens: &mut Tokens<'_>) -> Result<ArgKind, Refusal>
    ensures { Takes result (spec.arg_kind tokens.old) tokens.new }
{
    if tokens.next_is_word(b"index") {
        tokens.word(b"index")?;
        return Ok(ArgKind::Index(range(tokens)?));
    }
    Ok(ArgKind::Memref(memref(alloc, tokens)?))
}

/// One argument more.
fn argument(
    alloc: Global,
    tokens: &mut Tokens<'_>,
    before: Items<Arg>,
) -> Result<Items<Arg>, Refusal>
    ensures { Takes result (spec.argument before tokens.old) tokens.new }
{
    let (line, name) = tokens.value_on_line(alloc)?;
    tokens.sign(b':')?;
    let kind = arg_kind(alloc, tokens)?;
    let mut args = before;
    args.push(Arg { name, kind, line })?;
    Ok(args)
}

fn next_argument(
    alloc: Global,
    tokens: &mut Tokens<'_>,
    before: Items<Arg>,
) -> Result<Items<Arg>, Refusal>
    ensures { Takes result (spec.next_argument before tokens.old) tokens.new }
{
    tokens.sign(b',')?;
    argument(alloc, tokens, before)
}

#[tactic(auto, using(affine_grammar::proofs::Steps::argument_more, affine_grammar::proofs::Steps::argument_done, affine_grammar::proofs::Steps::argument_shorter))]
fn some_arguments(alloc: Global, tokens: &mut Tokens<'_>) -> Result<Items<Arg>, Refusal>
    ensures { Takes result (bind (spec.argument []) (many (tok.at_sign 44) spec.next_argument) tokens.old) tokens.new }
{
    let mut args = argument(alloc, tokens, Items::new(alloc))?;
    'arguments: while tokens.next_is(b',') {
        args = next_argument(alloc, tokens, args)?;
    }
    Ok(args)
}

#[tactic(auto, unfolding(affine_grammar::specs::ReadingFile::arguments))]
fn arguments(alloc: Global, tokens: &mut Tokens<'_>) -> Result<Items<Arg>, Refusal>
    ensures { Takes result (spec.arguments tokens.old) tokens.new }
{
    tokens.sign(b'(')?;
    if tokens.next_is(b')') {
        tokens.sign(b')')?;
        return Ok(Items::new(alloc));
    }
    let args = some_arguments(alloc, tokens)?;
    tokens.sign(b')')?;
    Ok(fitted(alloc, args)?)
}

/// The statements of the function, the last of which is its `return`.
#[tactic(auto, unfolding(affine_grammar::specs::ReadingFile::function_body))]
fn function_body(
    alloc: Global,
    tokens: &mut Tokens<'_>,
    aliases: &Aliases,
) -> Result<Items<Stmt>, Refusal>
    ensures { Takes result (spec.function_body aliases.now tokens.old) tokens.new }
{
    tokens.sign(b'{')?;
    let (mut body, _) = statements(alloc, tokens, aliases, LEVELS, 0)?;
    let (line, ()) = tokens.word_on_line(b"return")?;
    body.push(Stmt {
        line,
        what: What::Return,
    })?;
    tokens.sign(b'}')?;
    Ok(body)
}

#[tactic(auto, unfolding(affine_grammar::specs::ReadingFile::function))]
fn function(alloc: Global, tokens: &mut Tokens<'_>, aliases: &Aliases) -> Result<Module, Refusal>
    ensures { Takes result (spec.function aliases.now tokens.old) tokens.new }
{
    tokens.word(b"func.func")?;
    let name = tokens.function_name(alloc)?;
    let args = arguments(alloc, tokens)?;
    let body = function_body(alloc, tokens, aliases)?;
    Ok(Module { name, args, body })
}

/// What an alias stands for, with its operands.
#[tactic(auto, unfolding(affine_grammar::specs::ReadingFile::alias_body))]
fn alias_body(alloc: Global, tokens: &mut Tokens<'_>) -> Result<(Body, u32), Refusal>
    ensures { Takes result (spec.alias_body tokens.old) tokens.new }
{
    if tokens.next_is_word(b"affine_map") {
        let (map, operands) = map0(alloc, tokens, true, 0)?;
        return Ok((Body::Map(map), operands));
    }
    let (set, operands) = set0(alloc, tokens, 0)?;
    Ok((Body::Set(set), operands))
}

/// One alias more.
fn alias_definition(
    alloc: Global,
    tokens: &mut Tokens<'_>,
    before: Aliases,
) -> Result<Aliases, Refusal>
    ensures { Takes result (spec.alias_definition before tokens.old) tokens.new }
{
    let mut aliases = before;
    let name = tokens.new_alias(alloc, &aliases)?;
    tokens.sign(b'=')?;
    let (body, operands) = alias_body(alloc, tokens)?;
    aliases.push(
        alloc,
        Alias {
            name,
            body,
            operands,
        },
    )?;
    Ok(aliases)
}

#[tactic(auto, using(affine_grammar::proofs::Steps::alias_more, affine_grammar::proofs::Steps::alias_done, affine_grammar::proofs::Steps::alias_shorter))]
fn aliases(alloc: Global, tokens: &mut Tokens<'_>) -> Result<Aliases, Refusal>
    ensures { Takes result (many tok.at_alias spec.alias_definition [] tokens.old) tokens.new }
{
    let mut aliases = Aliases::new(alloc, tokens.hashing());
    'aliases: while tokens.at_alias() {
        aliases = alias_definition(alloc, tokens, aliases)?;
    }
    Ok(aliases)
}

#[tactic(auto, unfolding(affine_grammar::specs::ReadingFile::module_of))]
fn module_of(alloc: Global, tokens: &mut Tokens<'_>, aliases: &Aliases) -> Result<Module, Refusal>
    ensures { Takes result (spec.module_of aliases.now tokens.old) tokens.new }
{
    if !tokens.next_is_word(b"module") {
        return function(alloc, tokens, aliases);
    }
    tokens.word(b"module")?;
    tokens.sign(b'{')?;
    let module = function(alloc, tokens, aliases)?;
    tokens.sign(b'}')?;
    Ok(module)
}

/// The aliases and the module of a text.
#[tactic(auto, unfolding(affine_grammar::specs::ReadingFile::file))]
pub(crate) fn file(alloc: Global, tokens: &mut Tokens<'_>) -> Result<Module, Refusal>
    ensures { Takes result (spec.file tokens.old) tokens.new }
{
    let aliases = aliases(alloc, tokens)?;
    module_of(alloc, tokens, &aliases)
}
