//! Modules whose subscripts have their dimensions numbered by first appearance, as the grammar reads them: the last step but one of a
//! staged text.
#![tactic(auto)]

ghost use Rattle.normal_texts.specs.Law.{NormalIsTheSame};

/// A valid module with its subscripts numbered so is valid and has the same prompt meaning.
pub fn normal_is_the_same()
    ensures { NormalIsTheSame }
{}
