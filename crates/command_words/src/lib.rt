//! The words behind a command's name, read by clap into the values of the command's options.
//!
//! A command is its name and its list of options, each a flag or a number with its range and default; some need a flag.
//! `read_words` gives the values exactly where the words keep the rules, which `specs/Words` and `specs/Options` state. It stands on `clap`, of which it uses one simple command with no help and no version, and on `num_row` for
//! the texts of numbers.
#![tactic(auto)]

mod matches;
mod options;
mod read;
mod values;

pub use options::{CommandOption, Standing, Takes, Value};
pub use read::read_words;
pub use values::{byte_at, flag_at, integer_at, natural_at};
