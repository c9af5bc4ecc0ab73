// How a call of the program ends.
ghost use Rattle.std.specs.Prelude.{◌≡◌, Some};
ghost use Rattle.affine_driver.specs.Message.{fault_name, message_of, status_of};

use bus_model::FaultKind;
use std::fmt;

/// How a call of the program ends. Its text is the message on standard error.
#[derive(Clone, Copy)]
pub enum Ending {
    /// The source was read to its end and the whole output was written.
    Done,
    /// The words ask for no command.
    Words,
    /// The source failed.
    ReadFault,
    /// The source is longer than the limit.
    TooLong,
    /// The text spells no module: the first token that no module can have there stands at this line and column, counted
    /// from 1, the column in bytes.
    Text { line: u32, column: u32 },
    /// The module breaks a rule of validity: the line of the first argument or statement that breaks one, counted from 1, and
    /// the number of the lowest that it breaks.
    Invalid { line: u32, rule: u8 },
    /// The image breaks a rule: the line of the first line that breaks one, counted from 1 behind the line `---`, and the
    /// number of the lowest that it breaks.
    Image { line: u32, rule: u8 },
    /// The run stopped at a fault.
    Fault(FaultKind),
    /// The sink failed; what it took is a prefix of the output.
    WriteFault,
    /// Memory ran out.
    Memory,
    /// The module that is to be run may take too many actions: its work passes the limit.
    Turns { work: u128 },
}

/// A fault's name in the message.
fn name_of(kind: FaultKind) -> &'static str
    ensures { result.now ≡ fault_name kind }
{
    match kind {
        FaultKind::Bounds => "bounds",
        FaultKind::Divide => "divide",
        FaultKind::Touched => "touched",
        FaultKind::Race => "race",
        FaultKind::Tag => "tag",
        FaultKind::Capacity => "capacity",
        FaultKind::Shape => "shape",
    }
}

impl Ending {
    /// The exit status.
    pub fn status(&self) -> u8
        ensures { result ≡ status_of self.now }
    {
        match self {
            Ending::Done => 0,
            Ending::Words => 1,
            Ending::ReadFault => 2,
            Ending::TooLong => 3,
            Ending::Text { .. } => 4,
            Ending::Invalid { .. } => 5,
            Ending::Image { .. } => 6,
            Ending::Fault(_) => 7,
            Ending::WriteFault => 8,
            Ending::Memory => 9,
            Ending::Turns { .. } => 10,
        }
    }
}

impl fmt::Display for Ending {
    ghost output = { λ ending. Some (message_of ending) };

    fn fmt<W: fmt::Write>(&self, f: &mut fmt::Formatter<W>) -> fmt::Result {
        match self {
            Ending::Done => Ok(()),
            Ending::Words => write!(f, "affine: words"),
            Ending::ReadFault => write!(f, "affine: read fault"),
            Ending::TooLong => write!(f, "affine: source too long"),
            Ending::Text { line, column } => write!(f, "affine: text {line}:{column}"),
            Ending::Invalid { line, rule } => write!(f, "affine: invalid line {line} rule V{rule}"),
            Ending::Image { line, rule } => write!(f, "affine: image line {line} rule I{rule}"),
            Ending::Fault(kind) => {
                let name = name_of(*kind);
                write!(f, "affine: fault {name}")
            }
            Ending::WriteFault => write!(f, "affine: write fault"),
            Ending::Memory => write!(f, "affine: out of memory"),
            Ending::Turns { work } => write!(f, "affine: turns {work}"),
        }
    }
}
