//! Worked plans: two small modules, whose plans the definition gives by computing.
#![tactic(auto)]

ghost use Rattle.plan_numbers.specs.Law.{PlansAre, TilesAreStaged};

/// The plans of a loop without turns, and of a loop over tiles at a capacity that holds a tile and at one that doesn't.
pub fn plans_are()
    ensures { PlansAre }
{}

/// The tiles are valid and may be staged, and the module that staging makes of them runs as they do.
pub fn tiles_are_staged()
    ensures { TilesAreStaged }
{}
