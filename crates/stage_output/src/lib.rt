//! What the text is worth that `stage` writes without doubling: it spells a module that runs as the module which was staged.
//!
//! Laws alone: they join those of the plan, of subscripts and names, of printed texts and of all orders.
#![tactic(auto)]

ghost use Rattle.stage_output.specs.Law.{LinesChangeNothing, StagesRun, StageOutput};

/// The stage of a module of a text runs as the module, by transfers at once and in every order.
pub fn stages_run()
    ensures { StagesRun }
{}

/// Its printed text, behind any lines of comments, spells a module that does so.
pub fn stage_output()
    ensures { StageOutput }
{}

/// A module that is the same as such a module but for lines runs so too.
pub fn lines_change_nothing()
    ensures { LinesChangeNothing }
{}
