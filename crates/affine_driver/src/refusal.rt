// Why a source is refused under a command.
ghost use Rattle.std.specs.Prelude.{◌≡◌};

use crate::ending::Ending;
use affine_text::ParseFault;
use affine_verify::VerifyFault;
use bus_model::FaultKind;
use mem_image::ImageFault;
use module_regions::LinesFault;
use std::alloc::AllocError;

/// Why a source is refused under a command: an ending that the source decides, or want of memory. Numbers are those of `Ending`.
#[derive(Clone, Copy)]
pub enum Refusal {
    Text { line: u32, column: u32 },
    Invalid { line: u32, rule: u8 },
    Image { line: u32, rule: u8 },
    Turns { work: u128 },
    Fault(FaultKind),
    Memory,
}

impl From<Refusal> for Ending {
    ghost use Rattle.affine_driver.specs.Refusals.{ending_of};

    ghost from_gives = { λ refusal ending. ending ≡ ending_of refusal };

    fn from(refusal: Refusal) -> Ending {
        match refusal {
            Refusal::Text { line, column } => Ending::Text { line, column },
            Refusal::Invalid { line, rule } => Ending::Invalid { line, rule },
            Refusal::Image { line, rule } => Ending::Image { line, rule },
            Refusal::Turns { work } => Ending::Turns { work },
            Refusal::Fault(kind) => Ending::Fault(kind),
            Refusal::Memory => Ending::Memory,
        }
    }
}

impl From<AllocError> for Refusal {
    ghost use Rattle.affine_driver.specs.declared.refusal.Refusal.TheVariants.{Memory};

    ghost from_gives = { λ _ refusal. refusal ≡ Memory };

    fn from(_error: AllocError) -> Refusal {
        Refusal::Memory
    }
}

impl From<ParseFault> for Refusal {
    ghost use Rattle.affine_driver.specs.Refusals.{of_parser};

    ghost from_gives = { λ fault refusal. refusal ≡ of_parser fault };

    fn from(fault: ParseFault) -> Refusal {
        match fault {
            ParseFault::Text { line, column } => Refusal::Text { line, column },
            ParseFault::Memory => Refusal::Memory,
        }
    }
}

impl From<VerifyFault> for Refusal {
    ghost use Rattle.affine_driver.specs.Refusals.{of_rules};

    ghost from_gives = { λ fault refusal. refusal ≡ of_rules fault };

    fn from(fault: VerifyFault) -> Refusal {
        match fault {
            VerifyFault::Invalid { line, rule } => Refusal::Invalid { line, rule },
            VerifyFault::Memory => Refusal::Memory,
        }
    }
}

impl From<ImageFault> for Refusal {
    ghost use Rattle.affine_driver.specs.Refusals.{of_image};

    ghost from_gives = { λ fault refusal. refusal ≡ of_image fault };

    fn from(fault: ImageFault) -> Refusal {
        match fault {
            ImageFault::Image { line, rule } => Refusal::Image { line, rule },
            ImageFault::Memory => Refusal::Memory,
        }
    }
}

impl From<LinesFault> for Refusal {
    ghost use Rattle.affine_driver.specs.Refusals.{of_lines};

    ghost from_gives = { λ fault refusal. refusal ≡ of_lines fault };

    fn from(fault: LinesFault) -> Refusal {
        match fault {
            LinesFault::Plain { line } => Refusal::Invalid { line, rule: 13 },
            LinesFault::Memory => Refusal::Memory,
        }
    }
}
