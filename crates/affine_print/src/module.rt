// A whole module.
ghost use Rattle.std.specs.Prelude.{◌≡◌, ◌++◌, OnOk, IfOk};
ghost use Rattle.std.specs.Fmt.{signed_decimal};
ghost use Rattle.affine_ast.specs.Spelling.{listed, pair_text, range_text, kind_text, arg_text, args_text, head_text, spelling};

use crate::piece::{put, put_comma, put_name, put_signed};
use crate::statement::put_stmts;
use crate::types::put_memref;
use affine_ast::{Arg, ArgKind, Module};
use affine_expr::Interval;
use std::alloc::{AllocError, Global};

#[tactic(auto, unfolding(affine_ast::specs::Spelling::pair_text))]
fn put_limits(alloc: Global, out: &mut Vec<u8>, range: Interval) -> Result<(), AllocError>
    ensures { OnOk result (out.new.items ≡ out.old.items ++ pair_text (signed_decimal range.least) (signed_decimal range.greatest)) }
{
    put_signed(alloc, out, range.least)?;
    put(out, b", ")?;
    put_signed(alloc, out, range.greatest)
}

#[tactic(auto, unfolding(affine_ast::specs::Spelling::range_text))]
fn put_range(alloc: Global, out: &mut Vec<u8>, range: Interval) -> Result<(), AllocError>
    ensures { OnOk result (out.new.items ≡ out.old.items ++ range_text range) }
{
    put(out, b" {copy.range = [")?;
    put_limits(alloc, out, range)?;
    put(out, b"]}")
}

/// What kind of argument it is: the type of a memref, or `index` with its range where it has one.
fn put_kind(alloc: Global, out: &mut Vec<u8>, kind: &ArgKind) -> Result<(), AllocError>
    ensures { OnOk result (out.new.items ≡ out.old.items ++ kind_text kind.now) }
{
    match kind {
        ArgKind::Memref(ty) => put_memref(alloc, out, ty),
        ArgKind::Index(None) => put(out, b"index"),
        ArgKind::Index(Some(range)) => {
            put(out, b"index")?;
            put_range(alloc, out, *range)
        }
    }
}

#[tactic(auto, unfolding(affine_ast::specs::Spelling::arg_text))]
fn put_arg(alloc: Global, out: &mut Vec<u8>, arg: &Arg) -> Result<(), AllocError>
    ensures { OnOk result (out.new.items ≡ out.old.items ++ arg_text arg.now) }
{
    put_name(out, &arg.name)?;
    put(out, b": ")?;
    put_kind(alloc, out, &arg.kind)
}

fn put_arg_list(alloc: Global, out: &mut Vec<u8>, args: &[Arg]) -> Result<(), AllocError>
    ensures { OnOk result (out.new.items ≡ out.old.items ++ listed arg_text args.now) }
{
    for (place, arg) in args.iter().enumerate() {
        put_comma(out, place)?;
        put_arg(alloc, out, arg)?;
    }
    Ok(())
}

/// The arguments in parentheses, and the brace of the function's body.
#[tactic(auto, unfolding(affine_ast::specs::Spelling::args_text))]
fn put_args(alloc: Global, out: &mut Vec<u8>, args: &[Arg]) -> Result<(), AllocError>
    ensures { OnOk result (out.new.items ≡ out.old.items ++ args_text args.now) }
{
    put(out, b"(")?;
    put_arg_list(alloc, out, args)?;
    put(out, b") {\n")
}

/// The head of the function, up to the line feed behind its brace.
#[tactic(auto, unfolding(affine_ast::specs::Spelling::head_text))]
fn put_head(alloc: Global, out: &mut Vec<u8>, module: &Module) -> Result<(), AllocError>
    ensures { OnOk result (out.new.items ≡ out.old.items ++ head_text «module».now) }
{
    put(out, b"  func.func @")?;
    put(out, module.name.as_str().as_bytes())?;
    put_args(alloc, out, module.args.as_slice())
}

/// The printed spelling of a module: a `module` with its function at indent 2, each statement on a line of its own, every
/// line ended by a line feed.
///
/// It is meant for modules where the leaves of each map and set are numbered below its dimensions and symbols, and its
/// operands are as many as both together. For others it prints nothing in place of an operand that isn't there.
#[tactic(auto, unfolding(affine_ast::specs::Spelling::spelling))]
pub fn print(alloc: Global, module: &Module) -> Result<Vec<u8>, AllocError>
    ensures { IfOk result (λ text. text.items ≡ spelling «module».now) }
{
    let mut out = Vec::new(alloc);
    put(&mut out, b"module {\n")?;
    put_head(alloc, &mut out, module)?;
    put_stmts(alloc, &mut out, module.body.as_slice(), b"    ")?;
    put(&mut out, b"  }\n}\n")?;
    Ok(out)
}
