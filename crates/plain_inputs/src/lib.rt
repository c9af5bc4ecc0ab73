//! Modules that meet V13, as staging begins with them: all their memrefs stand in slow memory, and they have no transfer.
#![tactic(auto)]

ghost use Rattle.plain_inputs.specs.Law.{InputsArePlain, InputsAreQuiet, StartsAreSlow};

/// At the start each memref stands in slow memory.
pub fn starts_are_slow()
    ensures { StartsAreSlow }
{}

/// Each action of a module that meets V13 is one without allocations and transfers.
pub fn inputs_are_plain()
    ensures { InputsArePlain }
{}

/// No transfer of such a module is left outstanding, and it has no tags.
pub fn inputs_are_quiet()
    ensures { InputsAreQuiet }
{}
