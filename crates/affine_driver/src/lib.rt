//! The top calls: from words, a source and a sink to an ending.
//!
//! `affine_main` does all that the program does: `run_main` the commands that run threads, which may wait, `stage_main` all others.
//! `specs/Headline` says what a call comes to: which ending comes when, what was read and what was written, that the bytes of the
//! source decide, and that what `stage` writes is a text of a valid module that runs as its input does, by every order of the steps of
//! its transfers. It stands on the words of commands, the parts of a source, the parser, the rules, the printer, the plan and the stage
//! of a module, image texts, the direct meaning, the machine of all orders and `affine_io`.
#![tactic(auto)]

mod answer;
mod both;
mod bytes;
mod command;
mod demands;
mod ending;
mod laws;
mod limits;
mod order;
mod plain;
mod refusal;
mod regions;
mod run;
mod stage;
mod streams;
mod table;
mod threads;
mod top;

pub use command::{
    BothOptions, Command, OrderOptions, RegionsOptions, RunOptions, SampleOptions, StageOptions,
};
pub use ending::Ending;
pub use laws::{endings_are_exact, staged_texts_run, table_is_as_written};
pub use limits::{SOURCE_LIMIT, WORK_LIMIT};
pub use plan_report::report;
pub use refusal::Refusal;
pub use top::{affine_main, run_main, stage_main};
