//! What a module does: the list of its actions, the direct meaning as a fold over that list, and the work that bounds it.
//!
//! In this profile no bound, condition, subscript of an affine access or operand of a transfer depends on memory. So a
//! run is one finite list of actions, fixed before the first cell is read, and each meaning is a fold over it. The crate
//! stands on the trees of `affine_ast` and `affine_expr`, the operations of `int_ops` and the transfers of `bus_model`.
#![tactic(auto)]

ghost use Rattle.direct_meaning.specs.WorkLaw.{ActionsWithinWork};

/// The list of a module's actions is never longer than the module's work, where its bounds and values are affine and its
/// steps positive: a bound from the text alone on how long every run is.
pub fn actions_within_work()
    ensures { ActionsWithinWork }
{}
