// Single pieces of text, appended to the output.
ghost use Rattle.std.specs.Prelude.{◌≡◌, ◌++◌, OnOk};
ghost use Rattle.std.specs.Fmt.{decimal, signed_decimal};
ghost use Rattle.affine_ast.specs.Spelling.{name_text, names_text};
ghost use Rattle.affine_print.specs.Places.{comma_text};

use affine_ast::Name;
use std::alloc::{AllocError, Global};

/// These bytes.
pub fn put(out: &mut Vec<u8>, text: &[u8]) -> Result<(), AllocError>
    ensures { OnOk result (out.new.items ≡ out.old.items ++ text.now) }
{
    out.extend_from_slice(text)
}

/// A number without a sign.
pub fn put_unsigned(alloc: Global, out: &mut Vec<u8>, number: u32) -> Result<(), AllocError>
    ensures { OnOk result (out.new.items ≡ out.old.items ++ decimal number) }
{
    let text = number.to_string(alloc)?;
    put(out, text.as_bytes())
}

/// A number, with `-` where it is negative.
pub fn put_signed(alloc: Global, out: &mut Vec<u8>, number: i64) -> Result<(), AllocError>
    ensures { OnOk result (out.new.items ≡ out.old.items ++ signed_decimal number) }
{
    let text = number.to_string(alloc)?;
    put(out, text.as_bytes())
}

/// `%` and the name.
#[tactic(auto, unfolding(affine_ast::specs::Spelling::name_text))]
pub fn put_name(out: &mut Vec<u8>, name: &Name) -> Result<(), AllocError>
    ensures { OnOk result (out.new.items ≡ out.old.items ++ name_text name.now) }
{
    put(out, b"%")?;
    put(out, name.text.as_str().as_bytes())
}

/// Names, parted by commas.
pub fn put_names(out: &mut Vec<u8>, names: &[Name]) -> Result<(), AllocError>
    ensures { OnOk result (out.new.items ≡ out.old.items ++ names_text names.now) }
{
    for (place, name) in names.iter().enumerate() {
        put_comma(out, place)?;
        put_name(out, name)?;
    }
    Ok(())
}

/// A comma and a blank, but before the first of a list.
pub fn put_comma(out: &mut Vec<u8>, place: usize) -> Result<(), AllocError>
    ensures { OnOk result (out.new.items ≡ out.old.items ++ comma_text place) }
{
    if place == 0 { Ok(()) } else { put(out, b", ") }
}
