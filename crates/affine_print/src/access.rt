// Maps, sets, bounds and subscripts.
ghost use Rattle.std.specs.Prelude.{◌≡◌, ◌++◌, OnOk, ◌<◌, ◌≤◌};
ghost use Rattle.std.specs.List.{range_with_len};
ghost use Rattle.affine_ast.specs.Spelling.{numbered_text, symbols_text, parameters_text, symbol_names_text, operands_text, results_text, opening_text, use_text, relation_text, row_text, rows_text, set_text, subscripts_text, pick_text, bound_text, listed};

use crate::expression::{Leaves, put_expression, put_expressions};
use crate::piece::{put, put_comma, put_name, put_names, put_signed, put_unsigned};
use affine_ast::{Access, Bound, Name};
use affine_expr::{Constraint, Expr, Rel, Set};
use std::alloc::{AllocError, Global};

/// Parameters of one letter, numbered from 0.
fn put_parameters(
    alloc: Global,
    out: &mut Vec<u8>,
    letter: &[u8],
    count: u32,
) -> Result<(), AllocError>
    ensures { OnOk result (out.new.items ≡ out.old.items ++ numbered_text letter.now count) }
{
    for number in 0..count {
        put_comma(out, number as usize)?;
        put(out, letter)?;
        put_unsigned(alloc, out, number)?;
    }
    Ok(())
}

/// The symbols in brackets, where there are any.
#[tactic(auto, unfolding(affine_ast::specs::Spelling::symbols_text))]
fn put_symbols(alloc: Global, out: &mut Vec<u8>, count: u32) -> Result<(), AllocError>
    ensures { OnOk result (out.new.items ≡ out.old.items ++ symbols_text count) }
{
    if count == 0 {
        return Ok(());
    }
    put(out, b"[")?;
    put_parameters(alloc, out, b"s", count)?;
    put(out, b"]")
}

/// The dimensions in parentheses, and the symbols.
#[tactic(auto, unfolding(affine_ast::specs::Spelling::parameters_text))]
fn put_spaces(alloc: Global, out: &mut Vec<u8>, dims: u32, syms: u32) -> Result<(), AllocError>
    ensures { OnOk result (out.new.items ≡ out.old.items ++ parameters_text dims syms) }
{
    put(out, b"(")?;
    put_parameters(alloc, out, b"d", dims)?;
    put(out, b")")?;
    put_symbols(alloc, out, syms)
}

/// The operands of symbols in brackets, where there are any.
#[tactic(auto, unfolding(affine_ast::specs::Spelling::symbol_names_text))]
fn put_symbol_names(out: &mut Vec<u8>, names: &[Name]) -> Result<(), AllocError>
    ensures { OnOk result (out.new.items ≡ out.old.items ++ symbol_names_text names.now) }
{
    if names.is_empty() {
        return Ok(());
    }
    put(out, b"[")?;
    put_names(out, names)?;
    put(out, b"]")
}

/// The first operands, as many as there are dimensions, in parentheses, and then those of the symbols.
#[tactic(auto, unfolding(affine_ast::specs::Spelling::operands_text))]
fn put_operands(out: &mut Vec<u8>, operands: &[Name], dims: u32) -> Result<(), AllocError>
    ensures { OnOk result (out.new.items ≡ out.old.items ++ operands_text dims operands.now) }
{
    let count = operands.len().min(dims as usize);
    let (dimensions, symbols) = operands.split_at(count);
    put(out, b"(")?;
    put_names(out, dimensions)?;
    put(out, b")")?;
    put_symbol_names(out, symbols)
}

/// The results of a map behind their arrow.
#[tactic(auto, unfolding(affine_ast::specs::Spelling::results_text))]
fn put_results(alloc: Global, out: &mut Vec<u8>, results: &[Expr]) -> Result<(), AllocError>
    ensures { OnOk result (out.new.items ≡ out.old.items ++ results_text results.now) }
{
    put(out, b" -> (")?;
    put_expressions(alloc, out, Leaves::Numbered, results)?;
    put(out, b")>")
}

/// The word of a map or a set with its parameters.
#[tactic(auto, unfolding(affine_ast::specs::Spelling::opening_text))]
fn put_opening(
    alloc: Global,
    out: &mut Vec<u8>,
    word: &[u8],
    dims: u32,
    syms: u32,
) -> Result<(), AllocError>
    ensures { OnOk result (out.new.items ≡ out.old.items ++ opening_text word.now dims syms) }
{
    put(out, word)?;
    put_spaces(alloc, out, dims, syms)
}

/// A map with its operands.
#[tactic(auto, unfolding(affine_ast::specs::Spelling::use_text))]
pub fn put_use(alloc: Global, out: &mut Vec<u8>, at: &Access) -> Result<(), AllocError>
    ensures { OnOk result (out.new.items ≡ out.old.items ++ use_text at.now) }
{
    put_opening(alloc, out, b"affine_map<", at.map.dims, at.map.syms)?;
    put_results(alloc, out, at.map.results.as_slice())?;
    put_operands(out, at.operands.as_slice(), at.map.dims)
}

fn relation_sign(rel: Rel) -> &'static [u8]
    ensures { result.now ≡ relation_text rel }
{
    match rel {
        Rel::Ge => b" >= ",
        Rel::Le => b" <= ",
        Rel::Eq => b" == ",
    }
}

#[tactic(auto, unfolding(affine_ast::specs::Spelling::row_text))]
fn put_row(alloc: Global, out: &mut Vec<u8>, row: &Constraint) -> Result<(), AllocError>
    ensures { OnOk result (out.new.items ≡ out.old.items ++ row_text row.now) }
{
    put_expression(alloc, out, Leaves::Numbered, &row.left)?;
    put(out, relation_sign(row.rel))?;
    put_expression(alloc, out, Leaves::Numbered, &row.right)
}

fn put_row_list(alloc: Global, out: &mut Vec<u8>, rows: &[Constraint]) -> Result<(), AllocError>
    ensures { OnOk result (out.new.items ≡ out.old.items ++ listed row_text rows.now) }
{
    for (place, row) in rows.iter().enumerate() {
        put_comma(out, place)?;
        put_row(alloc, out, row)?;
    }
    Ok(())
}

/// The constraints of a set behind their colon.
#[tactic(auto, unfolding(affine_ast::specs::Spelling::rows_text))]
fn put_rows(alloc: Global, out: &mut Vec<u8>, rows: &[Constraint]) -> Result<(), AllocError>
    ensures { OnOk result (out.new.items ≡ out.old.items ++ rows_text rows.now) }
{
    put(out, b" : (")?;
    put_row_list(alloc, out, rows)?;
    put(out, b")>")
}

/// A set with its operands.
#[tactic(auto, unfolding(affine_ast::specs::Spelling::set_text))]
pub fn put_set(
    alloc: Global,
    out: &mut Vec<u8>,
    set: &Set,
    operands: &[Name],
) -> Result<(), AllocError>
    ensures { OnOk result (out.new.items ≡ out.old.items ++ set_text set.now operands.now) }
{
    put_opening(alloc, out, b"affine_set<", set.dims, set.syms)?;
    put_rows(alloc, out, set.rows.as_slice())?;
    put_operands(out, operands, set.dims)
}

/// Subscripts in brackets: the results of a map over the names of its operands.
#[tactic(auto, unfolding(affine_ast::specs::Spelling::subscripts_text))]
pub fn put_subscripts(alloc: Global, out: &mut Vec<u8>, at: &Access) -> Result<(), AllocError>
    ensures { OnOk result (out.new.items ≡ out.old.items ++ subscripts_text at.now) }
{
    let leaves = Leaves::Named {
        operands: at.operands.as_slice(),
        dims: at.map.dims,
    };
    put(out, b"[")?;
    put_expressions(alloc, out, leaves, at.map.results.as_slice())?;
    put(out, b"]")
}

/// The word that picks among several results.
#[tactic(auto, unfolding(affine_ast::specs::Spelling::pick_text))]
fn put_pick(out: &mut Vec<u8>, word: &[u8], results: &[Expr]) -> Result<(), AllocError>
    ensures { OnOk result (out.new.items ≡ out.old.items ++ pick_text word.now results.now) }
{
    if results.len() > 1 {
        put(out, word)
    } else {
        Ok(())
    }
}

/// A bound, with the word that picks among several results.
#[tactic(auto, unfolding(affine_ast::specs::Spelling::bound_text))]
pub fn put_bound(
    alloc: Global,
    out: &mut Vec<u8>,
    word: &[u8],
    bound: &Bound,
) -> Result<(), AllocError>
    ensures { OnOk result (out.new.items ≡ out.old.items ++ bound_text word.now bound.now) }
{
    match bound {
        Bound::Int(value) => put_signed(alloc, out, *value),
        Bound::Value(name) => put_name(out, name),
        Bound::Map(at) => {
            put_pick(out, word, at.map.results.as_slice())?;
            put_use(alloc, out, at)
        }
    }
}
