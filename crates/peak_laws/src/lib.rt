//! The peak of a module, the most bytes of fast memory that are live at once, and what it says of the module's runs.
//!
//! The crate stands on `prompt_semantics`, and on the laws of runs without a bound and of valid modules.
#![tactic(auto)]

ghost use Rattle.peak_laws.specs.Law.{ValidRunsWithinPeak, ValidTakesFewBytes};

/// From every memory that fits a valid module, for every filler and capacity: its run never has more live bytes than the module's peak; at
/// a capacity of at least the peak it doesn't stop at the fault `capacity`, and it is the same run at each of these; at a smaller one it
/// stops at this fault exactly where it would have more live bytes.
pub fn valid_runs_within_peak()
    ensures { ValidRunsWithinPeak }
{}

/// All allocations of a valid module together take no more than 134,217,728 bytes, and its peak is no more than they take.
pub fn valid_takes_few_bytes()
    ensures { ValidTakesFewBytes }
{}
