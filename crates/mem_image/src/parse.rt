// Reading.
ghost use Rattle.std.specs.Prelude.{◌≡◌, ◌<◌, true, length, IfOk, OnOk, IfErr};
ghost use Rattle.std.specs.List.{list_all};
ghost use Rattle.num_row.specs.Decimals.{is_decimal};
ghost use Rattle.mem_image.specs.Faults.{IsFault};
ghost use Rattle.mem_image.specs.Forms as forms;
ghost use Rattle.mem_image.specs.Growing.{image_with};
ghost use Rattle.mem_image.specs.Images.{Spells};
ghost use Rattle.mem_image.specs.Lines.{words};

use crate::forms::{broken_rule, left_over_rule, numbers_in, range_of, read_values};
use crate::lines::{Rest, next_line};
use affine_ast::{ArgKind, Cells, Image, Verified};
use sqlite_items::Items;
use std::alloc::{AllocError, Global};
use thiserror::Error;

/// Why no image was read.
#[derive(Clone, Copy, Debug, Error)]
pub enum ImageFault {
    /// The first line that breaks a rule, counted from 1, and the lowest of the rules I1 to I4 that it breaks.
    #[error("image line {line} rule I{rule}")]
    Image { line: u32, rule: u8 },
    #[error("out of memory")]
    Memory,
}

impl From<AllocError> for ImageFault {
    ghost use Rattle.mem_image.specs.declared.parse.ImageFault.TheVariants.{Memory};

    ghost from_gives = { λ _ fault. fault ≡ Memory };

    fn from(_error: AllocError) -> ImageFault {
        ImageFault::Memory
    }
}

/// Adds the numbers of the line of an argument.
fn add_line(alloc: Global, image: &mut Image, kind: &ArgKind, line: &[u8]) -> Result<(), AllocError>
    requires decimal { list_all is_decimal (forms.numbers_in (words line.now)) ≡ true }
    requires between { forms.are_between (forms.range_of_kind kind.now) (forms.numbers_in (words line.now)) ≡ true }
    ensures { OnOk result (image.new ≡ image_with kind.now (forms.values_in (words line.now)) image.old) }
{
    let values = read_values(alloc, range_of(kind), numbers_in(line))?;
    match kind {
        ArgKind::Memref(_) => image.memrefs.push(Cells { values })?,
        ArgKind::Index(_) => {
            if let Some(value) = values.as_slice().first() {
                image.symbols.push(*value)?;
            }
        }
    }
    Ok(())
}

/// The image that a text spells for the arguments of a module.
///
/// A text that spells none is refused at the first line that breaks a rule, with the lowest rule that it breaks: I1, the line
/// isn't a name, `=` and one number or more; I2, the name isn't the next argument's, or no argument is left; I3, there are too
/// many numbers or too few; I4, a number is out of the range of the element or the argument. Where an argument has no line, that
/// is one past the last, with I2. Lines count from 1, white ones too.
pub fn parse_image(alloc: Global, bytes: &[u8], module: &Verified) -> Result<Image, ImageFault>
    requires { length bytes.now < 4294967295 }
    ensures spells { IfOk result (λ image. Spells bytes.now «module».now.inner image) }
    ensures broken { IfErr result (λ fault. IsFault bytes.now «module».now.inner fault) }
{
    let mut rest = Rest { bytes, lines: 0 };
    let mut image = Image {
        memrefs: Items::new(alloc),
        symbols: Items::new(alloc),
    };
    for arg in module.module().args.as_slice() {
        let Some(line) = next_line(&mut rest) else {
            return Err(ImageFault::Image {
                line: rest.lines + 1,
                rule: 2,
            });
        };
        if let Some(rule) = broken_rule(arg, line) {
            return Err(ImageFault::Image {
                line: rest.lines,
                rule,
            });
        }
        add_line(alloc, &mut image, &arg.kind, line)?;
    }
    match next_line(&mut rest) {
        Some(line) => Err(ImageFault::Image {
            line: rest.lines,
            rule: left_over_rule(line),
        }),
        None => Ok(image),
    }
}
