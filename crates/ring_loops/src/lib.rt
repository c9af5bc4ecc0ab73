//! The loops that a doubled loop becomes: that they are well-formed where the single text is.
//!
//! The same statements stand in the main loop and, under names of their own, in the epilogue; starts ahead stand in prologue and main loop.
#![tactic(auto)]

ghost use Rattle.ring_loops.specs.Law.{EpilogueStaysWell, MoreStaysWell, RenamedStaysWell, SplitStaysWell, StartsStayWell};

/// A well-formed text stays so under other names, one for one.
pub fn renamed_stays_well()
    ensures { RenamedStaysWell }
{}

/// A well-formed text stays so where more names are in scope than it uses.
pub fn more_stays_well()
    ensures { MoreStaysWell }
{}

/// The body of the epilogue, with twins for the made names that it defines, is well-formed where the main loop's is.
pub fn epilogue_stays_well()
    ensures { EpilogueStaysWell }
{}

/// The bounds of prologue, main loop and epilogue can stand where those of the loop can.
pub fn split_stays_well()
    ensures { SplitStaysWell }
{}

/// Starts ahead, with the values that say where their boxes begin, are well-formed where what they need is in scope.
pub fn starts_stay_well()
    ensures { StartsStayWell }
{}
