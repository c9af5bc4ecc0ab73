//! The body of a loop with rings, piece by piece: what stands before the loop of a doubled placement, what stands behind it, and all other
//! statements, each beside its piece of the body in which the placements stand singly.
#![tactic(auto)]

ghost use Rattle.ring_bodies.specs.Pieces.{BodiesByPieces};
ghost use Rattle.ring_bodies.specs.Steps.{ClosingsAreSteps, OpeningsAreSteps, TurnsByPieces};

/// The rewriting for all rings of a loop takes its body piece by piece.
pub fn bodies_by_pieces()
    ensures { BodiesByPieces }
{}

/// What opens an inward placement, in the two texts, are the steps of a ring's opening.
pub fn openings_are_steps()
    ensures { OpeningsAreSteps }
{}

/// What closes a placement are the steps of a start out, with its wait or without it, and of the releases.
pub fn closings_are_steps()
    ensures { ClosingsAreSteps }
{}

/// The steps of all pieces together are what the body does in a turn, and what the body with rings does.
pub fn turns_by_pieces()
    ensures { TurnsByPieces }
{}
