//! Lines have no part in what a module is: the module with a line for each statement is valid where the module is, means the same and
//! has the same placements in its plan.
#![tactic(auto)]

ghost use Rattle.lined_modules.specs.Law.{AllAreLined, LinesHaveNoPart};

/// Each module has such a one.
pub fn all_are_lined()
    ensures { AllAreLined }
{}

/// It differs from the module in no part but lines.
pub fn lines_have_no_part()
    ensures { LinesHaveNoPart }
{}
