//! What the module that staging makes of a module of a text has of a text.
//!
//! Laws alone: the names of its values are names of the grammar, its body has a text's shape, and it keeps to the limits. Subscripts with
//! their dimensions numbered by first appearance have the order that the grammar asks for. `stage_numbers` goes on from here.
#![tactic(auto)]

ghost use Rattle.stage_texts.specs.Distinct.{DistinctAreApart, NamedAreDistinct, NormalIsDistinct};
ghost use Rattle.stage_texts.specs.Law.{StageKeeps, StageNames, StageShape, WrittenKeeps, WrittenShape};
ghost use Rattle.stage_texts.specs.Order.{NormalAppears};

/// The names of a stage's values are names of the grammar.
pub fn stage_names()
    ensures { StageNames }
{}

/// Subscripts with their dimensions numbered by first appearance are in order.
pub fn normal_appears()
    ensures { NormalAppears }
{}

/// The body of a stage has the shape of a text's, as has that of each module that may be written.
pub fn stage_shape()
    ensures stages { StageShape }
    ensures written { WrittenShape }
{}

/// A stage keeps to the limits of the grammar, as does each valid module that may be written.
pub fn stage_keeps()
    ensures stages { StageKeeps }
    ensures written { WrittenKeeps }
{}

/// Names of which none stands twice stay so under new names, one for one, and have no text twice where they are a text's. So do the
/// operands of dimensions that are numbered by first appearance.
pub fn names_stay_apart()
    ensures renamed { NamedAreDistinct }
    ensures texts { DistinctAreApart }
    ensures ordered { NormalIsDistinct }
{}
