//! The template of a placement as lists of statements, as code makes them.
//!
//! `specs/Statements` has what stands before the loop of a placement, and behind it; that these are the text of `placement_texts` is a law.
#![tactic(auto)]

ghost use Rattle.placement_lists.specs.Statements.{ListsAreTheTemplate};

/// The lists of statements are the text of the template.
pub fn lists_are_the_template()
    ensures { ListsAreTheTemplate }
{}
