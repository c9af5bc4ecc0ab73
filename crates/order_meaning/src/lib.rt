//! A module's transfers under every order of the engines' steps.
//!
//! The machine has the actions of a module beside engines that move its transfers, an element at a time. The law says
//! that all its orders give what the prompt meaning gives, in as many steps.
#![tactic(auto)]

ghost use Rattle.order_meaning.specs.Law.{AllOrdersAgree};
ghost use Rattle.order_meaning.specs.Listed.{ListsEnabled, ListsOne};
ghost use Rattle.order_meaning.specs.Parts.{AgreesInParts};
ghost use Rattle.order_meaning.specs.Worked.{WorkedRun};

/// Every run of the machine agrees with the prompt meaning, and ends as it does.
pub fn all_orders_agree()
    ensures { AllOrdersAgree }
{}

/// A worked run of two engines.
pub fn worked_run()
    ensures { WorkedRun }
{}

/// What the agreement says of slow memory, of the lists of transfers, of engines and of halves, part by part.
pub fn agrees_in_parts()
    ensures { AgreesInParts }
{}

/// In each state of a run the list of its steps has exactly those that are enabled.
pub fn lists_enabled()
    ensures { ListsEnabled }
{}

/// A state has one list of enabled steps.
pub fn lists_one()
    ensures { ListsOne }
{}
