//! The names that templates made get the names of a printed text: a prefix and a number each.
//!
//! Definitions, and the laws that the module with numbered names is valid and has the same prompt meaning.
#![tactic(auto)]

ghost use Rattle.numbered_names.specs.Law.{NumberedIsValid, NoneIsMade, NumberedRuns, NumberedFits};

/// A valid module with its made names numbered is valid, none of its names counts as made, and the memories that fit the module
/// fit it.
pub fn numbered_is_valid()
    ensures valid { NumberedIsValid }
    ensures none_made { NoneIsMade }
    ensures fits { NumberedFits }
{}

/// It has the same prompt meaning.
pub fn numbered_runs()
    ensures { NumberedRuns }
{}
