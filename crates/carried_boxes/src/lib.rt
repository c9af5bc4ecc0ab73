//! Which boxes one transfer carries, by a test that goes backward from the last dimension, and boxes that are widened until it passes.
//!
//! `boxes` and `access_region` tell the same by the shape of a box, from the last dimension on. The laws say that the two tests are one,
//! that the chunk and the stride of a transfer are those of the dimensions that the test takes, and that a region is widened dimension
//! by dimension, from the last on, exactly until it passes.
#![tactic(auto)]

ghost use Rattle.carried_boxes.specs.Law.{TestsAgree};
ghost use Rattle.carried_boxes.specs.Widening.{WidensUntilCarried};

/// The shape of a box isn't mixed exactly where the test passes, and then it gives the test's stride and chunk.
pub fn tests_agree()
    ensures { TestsAgree }
{}

/// A region is widened for transfers until the test passes, and no further.
pub fn widens_until_carried()
    ensures { WidensUntilCarried }
{}
