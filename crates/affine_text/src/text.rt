// A whole text.
ghost use Rattle.std.specs.Prelude.{◌<◌, length};
ghost use Rattle.affine_ast.specs.declared.module.Module.{Module as ModuleShape};
ghost use Rattle.affine_grammar.specs.Spelling.{Spells};
ghost use Rattle.affine_lex.specs.Tokens.{text_end as end_token};
ghost use Rattle.affine_text.specs.Parsed.{Parses, Allows, RefusesAt};

use crate::fault::ParseFault;
use crate::function::file;
use affine_ast::Module;
use affine_lex::{Scanner, text_end};
use std::alloc::Global;
use token_cursor::{Refusal, Tokens};

/// The fault at the next token, or at the end of the text where none is left.
fn refused(source: &[u8], tokens: &Tokens<'_>) -> ParseFault
    requires { length source.now < 4294967295 }
    ensures { RefusesAt result tokens.now (end_token source.now) }
{
    let (line, column) = tokens.place(text_end(source));
    ParseFault::Text { line, column }
}

/// The module of a text.
fn module_of(alloc: Global, source: &[u8]) -> Result<Module, ParseFault>
    requires { length source.now < 4294967295 }
    ensures { Parses result source.now }
{
    let mut tokens = Tokens::new(source, Scanner::new(source));
    match file(alloc, &mut tokens) {
        Ok(module) => {
            if tokens.is_done() {
                Ok(module)
            } else {
                Err(refused(source, &tokens))
            }
        }
        Err(refusal) => match refusal {
            Refusal::Here => Err(refused(source, &tokens)),
            Refusal::Memory => Err(ParseFault::Memory),
        },
    }
}

/// Reads the module that the bytes of a text spell, with the line of each argument and statement.
///
/// A text that spells none is refused at the first token that no module can have there: its line and column count from 1,
/// the column in bytes.
pub fn parse(alloc: Global, source: &[u8]) -> Result<Module, ParseFault>
    requires { length source.now < 4294967295 }
    ensures answer { Parses result source.now }
    // no other module and no refusal where the bytes spell this one
    ensures only { (meant : ModuleShape) → Spells source.now meant → Allows result meant }
{
    module_of(alloc, source)
}
