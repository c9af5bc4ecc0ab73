// What the words ask for.
ghost use Rattle.std.specs.Prelude.{◌≡◌, ◌↔◌, Some, IfOk, map, true};
ghost use Rattle.command_words.specs.Options.{is_there, rules_of};
ghost use Rattle.affine_driver.specs.declared.command.Command.{Command};
ghost use Rattle.affine_driver.specs.Command as spec;
ghost use Rattle.affine_driver.specs.Table as table;

use crate::table::{
    BOTH, BOTH_OPTIONS, CHECK, ORDER, ORDER_OPTIONS, PLAIN, REGIONS, REGIONS_OPTIONS, RUN,
    RUN_OPTIONS, SAMPLE, SAMPLE_OPTIONS, STAGE, STAGE_OPTIONS,
};
use command_words::{
    CommandOption, Standing, Value, byte_at, flag_at, integer_at, natural_at, read_words,
};
use std::alloc::{AllocError, Global};

/// The options of `regions`.
#[derive(Clone, Copy)]
pub struct RegionsOptions {
    /// The depth of the loops whose accesses are told.
    pub depth: u8,
}

/// The options of `stage`.
#[derive(Clone, Copy)]
pub struct StageOptions {
    /// How many loops stand round a staged loop, at least.
    pub depth: u8,
    /// Whether copies go by transfers.
    pub dma: bool,
    /// Whether loops are doubled, so that transfers and the body overlap.
    pub double: bool,
    /// The buffers of a doubled memref.
    pub buffers: u8,
    /// The bytes of fast memory.
    pub capacity: u64,
}

/// The options of `run`.
#[derive(Clone, Copy)]
pub struct RunOptions {
    /// The bytes of fast memory.
    pub capacity: u64,
    /// What fast memory holds before anything is stored there.
    pub filler: i64,
    /// The engines, that of the compute thread counted.
    pub engines: u8,
}

/// The options of `order`.
#[derive(Clone, Copy)]
pub struct OrderOptions {
    pub run: RunOptions,
    /// The number from which the order of steps is drawn.
    pub pick: u64,
}

/// The options of `both`.
#[derive(Clone, Copy)]
pub struct BothOptions {
    pub stage: StageOptions,
    /// What fast memory holds before anything is stored there.
    pub filler: i64,
    /// The engines, that of the compute thread counted.
    pub engines: u8,
}

/// The options of `sample`.
#[derive(Clone, Copy)]
pub struct SampleOptions {
    /// The number of the sample.
    pub number: u64,
}

/// A command of the program with its options.
#[derive(Clone, Copy)]
pub enum Command {
    /// Print the module.
    Check,
    /// Print the regions of the accesses.
    Regions(RegionsOptions),
    /// Print the report and the staged module.
    Stage(StageOptions),
    /// Run the module by its direct meaning, and print the final image.
    Plain,
    /// Run the module by threads, and print the final image.
    Run(RunOptions),
    /// Run the module in one of all orders, and print the final image with what was seen of the order.
    Order(OrderOptions),
    /// Print the report and the staged module, run it by threads, and print the final image.
    Both(BothOptions),
    /// Make a module by its number, and print what comes of it.
    Sample(SampleOptions),
}

/// The first word of a command.
#[derive(Clone, Copy)]
pub(crate) enum FirstWord {
    Check,
    Regions,
    Stage,
    Plain,
    Run,
    Order,
    Both,
    Sample,
}

fn stage_options(values: &[Value]) -> StageOptions
    ensures { result ≡ spec.stage_options values.now }
{
    StageOptions {
        depth: byte_at(values, 0),
        dma: flag_at(values, 1),
        double: flag_at(values, 2),
        buffers: byte_at(values, 3),
        capacity: natural_at(values, 4),
    }
}

fn run_options(values: &[Value]) -> RunOptions
    ensures { result ≡ spec.run_options values.now }
{
    RunOptions {
        capacity: natural_at(values, 0),
        filler: integer_at(values, 1),
        engines: byte_at(values, 2),
    }
}

impl Command {
    /// Whether the command runs a module by threads.
    pub(crate) fn runs_threads(self) -> bool
        ensures { result ≡ spec.runs_threads self }
    {
        matches!(self, Command::Run(_) | Command::Both(_))
    }
}

impl FirstWord {
    /// Whether the command with this name is one that runs a module by threads.
    fn takes_threads(self) -> bool
        ensures { result ≡ spec.takes_threads self }
    {
        matches!(self, FirstWord::Run | FirstWord::Both)
    }

    /// Whether the program has the command.
    fn is_built(self) -> bool
        ensures { result ≡ is_there (table.standing_of self) }
    {
        let standing = match self {
            FirstWord::Check => CHECK,
            FirstWord::Regions => REGIONS,
            FirstWord::Stage => STAGE,
            FirstWord::Plain => PLAIN,
            FirstWord::Run => RUN,
            FirstWord::Order => ORDER,
            FirstWord::Both => BOTH,
            FirstWord::Sample => SAMPLE,
        };
        matches!(standing, Standing::Built)
    }

    fn name(self) -> &'static str
        ensures { result.now ≡ table.name_of self }
    {
        match self {
            FirstWord::Check => "check",
            FirstWord::Regions => "regions",
            FirstWord::Stage => "stage",
            FirstWord::Plain => "plain",
            FirstWord::Run => "run",
            FirstWord::Order => "order",
            FirstWord::Both => "both",
            FirstWord::Sample => "sample",
        }
    }

    fn options(self) -> &'static [CommandOption<'static>]
        ensures { rules_of result.now ≡ table.options_of self }
    {
        match self {
            FirstWord::Check | FirstWord::Plain => &[],
            FirstWord::Regions => &REGIONS_OPTIONS,
            FirstWord::Stage => &STAGE_OPTIONS,
            FirstWord::Run => &RUN_OPTIONS,
            FirstWord::Order => &ORDER_OPTIONS,
            FirstWord::Both => &BOTH_OPTIONS,
            FirstWord::Sample => &SAMPLE_OPTIONS,
        }
    }

    /// The command with the values of its options.
    fn command(self, values: &[Value]) -> Command
        ensures { result ≡ spec.command_by self values.now }
    {
        match self {
            FirstWord::Check => Command::Check,
            FirstWord::Regions => Command::Regions(RegionsOptions {
                depth: byte_at(values, 0),
            }),
            FirstWord::Stage => Command::Stage(stage_options(values)),
            FirstWord::Plain => Command::Plain,
            FirstWord::Run => Command::Run(run_options(values)),
            FirstWord::Order => Command::Order(OrderOptions {
                run: run_options(values),
                pick: natural_at(values, 3),
            }),
            FirstWord::Both => Command::Both(BothOptions {
                stage: stage_options(values),
                filler: integer_at(values, 5),
                engines: byte_at(values, 6),
            }),
            FirstWord::Sample => Command::Sample(SampleOptions {
                number: natural_at(values, 0),
            }),
        }
    }
}

/// The command with this first word.
fn first_word(word: &str) -> Option<FirstWord>
    ensures { result ≡ spec.first_word word.now }
{
    if word == "check" {
        Some(FirstWord::Check)
    } else if word == "regions" {
        Some(FirstWord::Regions)
    } else if word == "stage" {
        Some(FirstWord::Stage)
    } else if word == "plain" {
        Some(FirstWord::Plain)
    } else if word == "run" {
        Some(FirstWord::Run)
    } else if word == "order" {
        Some(FirstWord::Order)
    } else if word == "both" {
        Some(FirstWord::Both)
    } else if word == "sample" {
        Some(FirstWord::Sample)
    } else {
        None
    }
}

/// The command that the words behind its first ask for.
fn command_behind<'a>(
    alloc: Global,
    first: FirstWord,
    words: &'a [&'a str],
) -> Result<Option<Command>, AllocError>
    ensures { IfOk result (λ found. (command : Command) → (found ≡ Some command) ↔ spec.AsksBehind first (map (λ word. word.now) words.entry.now) command) }
{
    if !first.is_built() {
        return Ok(None);
    }
    match read_words(alloc, first.name(), first.options(), words)? {
        Some(values) => Ok(Some(first.command(values.as_slice()))),
        None => Ok(None),
    }
}

/// The command that the words ask for. Words that don't begin with the name of a command ask for none, and need no memory.
fn command_of(alloc: Global, words: &[&str]) -> Result<Option<Command>, AllocError>
    ensures { IfOk result (λ found. (command : Command) → (found ≡ Some command) ↔ spec.AsksFor (map (λ word. word.now) words.entry.now) command) }
{
    match words {
        [word, behind @ ..] => match first_word(word) {
            Some(first) => command_behind(alloc, first, behind),
            None => Ok(None),
        },
        [] => Ok(None),
    }
}

/// The command that the words ask for, where it is one that runs threads, or one that doesn't.
pub(crate) fn command_among(
    alloc: Global,
    words: &[&str],
    threads: bool,
) -> Result<Option<Command>, AllocError>
    ensures { IfOk result (λ found. (command : Command) → (found ≡ Some command) ↔ (spec.AsksFor (map (λ word. word.now) words.entry.now) command × (spec.runs_threads command ≡ threads))) }
{
    match command_of(alloc, words)? {
        Some(command) => {
            if command.runs_threads() == threads {
                Ok(Some(command))
            } else {
                Ok(None)
            }
        }
        None => Ok(None),
    }
}

/// Whether the words can only ask for a command that runs a module by threads; else they ask for none of these.
pub(crate) fn ask_for_threads(words: &[&str]) -> bool
    ensures { (command : Command) → spec.AsksFor (map (λ word. word.now) words.entry.now) command → spec.runs_threads command ≡ result }
{
    match words {
        [word, ..] => match first_word(word) {
            Some(first) => first.takes_threads(),
            None => false,
        },
        [] => false,
    }
}
