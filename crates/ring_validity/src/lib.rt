//! Validity of the texts of rings. A plan tests V9, V11 and V12 of the text with each ring more; the other rules hold by themselves.
//!
//! Those others ask nothing of the intervals of values (`specs/Wells`), so they hold of both copies of a doubled loop's body, whatever the
//! bounds of its loop.
#![tactic(auto)]

ghost use Rattle.ring_validity.specs.BodyLaw.{BodiesStayWell, BodyStaysWell};
ghost use Rattle.ring_validity.specs.Law.{PassedIsWell, WellIsValid};

/// A text that breaks no rule of validity is well-formed.
pub fn passed_is_well()
    ensures { PassedIsWell }
{}

/// A module with a well-formed text that keeps to the rule on intervals and to the limits is valid.
pub fn well_is_valid()
    ensures { WellIsValid }
{}

/// The body of a loop, rewritten for the ring of one placement that stands in it, is well-formed where the body was and the ring, its tags
/// and its constants stand round the loop.
pub fn body_stays_well()
    ensures { BodyStaysWell }
{}

/// So is the body with a ring for each of several placements.
pub fn bodies_stay_well()
    ensures { BodiesStayWell }
{}
