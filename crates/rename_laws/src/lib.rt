//! Laws of texts whose names are changed, one for one: their actions, and their runs by the prompt meaning.
//!
//! The renaming is that of `placement_texts`, `specs/Renamed`.
#![tactic(auto)]

ghost use Rattle.rename_laws.specs.Law.{ActionsNamed, RunsNamed, ToldNamed};

/// The actions of a text with other names are its actions, on the registers of these names.
pub fn actions_named()
    ensures { ActionsNamed }
{}

/// Its run has the verdict of the text's run, the same memories and the same numbers, for every filler and capacity.
pub fn runs_named()
    ensures { RunsNamed }
{}

/// What is told of it by the rules of validity is what is told of the text.
pub fn told_named()
    ensures { ToldNamed }
{}
