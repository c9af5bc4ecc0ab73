//! Two runs in the prompt meaning that go in step: where the second has what the first has, and which transfers of its own are
//! under way. Starting a loop's transfers some turns ahead, or waiting for them some turns later, makes such a pair.
//!
//! Definitions and their law, which speak of lists of actions and know no text.
#![tactic(auto)]

ghost use Rattle.step_runs.specs.Law.{StepsAgree};

/// Two runs whose steps are allowed one after the other end alike: the second ends related to the first, and where the first
/// has a fault that a module without transfers can have, the second has the same.
pub fn steps_agree()
    ensures { StepsAgree }
{}
