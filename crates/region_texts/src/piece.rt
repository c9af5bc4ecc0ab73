// Single pieces of text, appended to the output.
ghost use Rattle.std.specs.Prelude.{◌≡◌, ◌++◌, OnOk, unsigned_abs};
ghost use Rattle.std.specs.Fmt.{decimal, signed_decimal};
ghost use Rattle.affine_ast.specs.Spelling.{name_text};

use affine_ast::Name;
use num_row::write_decimal;
use std::alloc::{AllocError, Global};

/// These bytes.
pub fn put(out: &mut Vec<u8>, text: &[u8]) -> Result<(), AllocError>
    ensures { OnOk result (out.new.items ≡ out.old.items ++ text.now) }
{
    out.extend_from_slice(text)
}

/// A number without a sign.
pub fn put_unsigned(alloc: Global, out: &mut Vec<u8>, number: u32) -> Result<(), AllocError>
    ensures { OnOk result (out.new.items ≡ out.old.items ++ decimal number) }
{
    let text = number.to_string(alloc)?;
    put(out, text.as_bytes())
}

/// A number, with `-` where it is negative.
pub fn put_signed(alloc: Global, out: &mut Vec<u8>, number: i128) -> Result<(), AllocError>
    ensures { OnOk result (out.new.items ≡ out.old.items ++ signed_decimal number) }
{
    write_decimal(alloc, number, out)
}

/// The size of a number.
pub fn put_size(alloc: Global, out: &mut Vec<u8>, number: i128) -> Result<(), AllocError>
    ensures { OnOk result (out.new.items ≡ out.old.items ++ decimal (unsigned_abs number)) }
{
    let text = number.unsigned_abs().to_string(alloc)?;
    put(out, text.as_bytes())
}

/// `%` and the name.
#[tactic(auto, unfolding(affine_ast::specs::Spelling::name_text))]
pub fn put_name(out: &mut Vec<u8>, name: &Name) -> Result<(), AllocError>
    ensures { OnOk result (out.new.items ≡ out.old.items ++ name_text name.now) }
{
    put(out, b"%")?;
    put(out, name.text.as_str().as_bytes())
}
