//! Memrefs apart: where the texts on the way of a plan pass the rules, no raw access and no transfer of another memref has a place
//! of the one that is staged, and the tags that a dealloc releases move up together.
#![tactic(auto)]

ghost use Rattle.placement_aside.specs.Law.{PassingIsAside};

/// So it is in each text on the way.
pub fn passing_is_aside()
    ensures { PassingIsAside }
{}
