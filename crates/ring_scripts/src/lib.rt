//! A loop with rings beside the loop in which the same placements stand singly, statement by statement: what each of the two runs does.
//!
//! The text with rings has each access of a ring at the place of its turn, each transfer with the tag of its turn, and three loops where
//! the single text has one. What is said here has no run in it: it is of the lists of actions alone.
#![tactic(auto)]

ghost use Rattle.ring_scripts.specs.Ahead.{StartsAreSteps};
ghost use Rattle.ring_scripts.specs.Calm.{ElsewhereIsCalm, NoClashIsCalm};
ghost use Rattle.ring_scripts.specs.Outward.{LastWaitsAreSteps, OutwardTextAgrees};
ghost use Rattle.ring_scripts.specs.Readings.{AccessInRing, LoopsAreCut, RingPlaceIs, TagInRing};
ghost use Rattle.ring_scripts.specs.Starts.{BoxIsLater, LeavesInRing, StartsAhead, WaitsInRing};
ghost use Rattle.ring_scripts.specs.Texts.{ClosesInRing, OpensInRing, WorkInRing};
ghost use Rattle.ring_scripts.specs.Turns.{ClearIsCalm, RingTextAgrees, TurnsMakeARing};
ghost use Rattle.ring_scripts.specs.Twins.{TwinsDoTheSame};

/// An access with a place in the ring goes to that of the turn so much later.
pub fn ring_place_is()
    ensures { RingPlaceIs }
{}

/// An access of a doubled memref goes to its cell in the half of the turn's place in the ring.
pub fn access_in_ring()
    ensures { AccessInRing }
{}

/// The tag of a turn is the one of its place in the ring.
pub fn tag_in_ring()
    ensures { TagInRing }
{}

/// The three loops that a loop is split into have the turns of a ring's prologue, main loop and epilogue.
pub fn loops_are_cut()
    ensures { LoopsAreCut }
{}

/// A box that is moved with its turn begins now where it begins in that turn.
pub fn box_is_later()
    ensures { BoxIsLater }
{}

/// A start ahead starts the transfer of that turn, with its tag and its half.
pub fn starts_ahead()
    ensures { StartsAhead }
{}

/// A wait is for the tag of the turn's place in the ring.
pub fn waits_in_ring()
    ensures { WaitsInRing }
{}

/// A start out is of the half of the turn's place in the ring.
pub fn leaves_in_ring()
    ensures { LeavesInRing }
{}

/// Of what isn't a placement's template only its loads and stores of the fast memref change.
pub fn work_in_ring()
    ensures { WorkInRing }
{}

/// Before the placement's loop only the places are left, and a wait: for this turn's transfer in, or for a late one out.
pub fn opens_in_ring()
    ensures { OpensInRing }
{}

/// Behind the placement's loop only the start out is left, and inward the wait for it.
pub fn closes_in_ring()
    ensures { ClosesInRing }
{}

/// Transfers of one box in turns at a distance at which it doesn't clash have no slow place in common.
pub fn no_clash_is_calm()
    ensures { NoClashIsCalm }
{}

/// What goes to another memref meets no transfer of the box.
pub fn elsewhere_is_calm()
    ensures { ElsewhereIsCalm }
{}

/// The text of a turn's starts does what the second run does in the steps of a ring's starts.
pub fn starts_are_steps()
    ensures { StartsAreSteps }
{}

/// Steps avoid a transfer where what the second run does in them keeps clear of it.
pub fn clear_is_calm()
    ensures { ClearIsCalm }
{}

/// Turns that go each by itself, and keep clear of what else is under way, make a ring with their starts ahead.
pub fn turns_make_a_ring()
    ensures { TurnsMakeARing }
{}

/// The loop of single placements and its loops with rings end alike, where the steps of a turn are what the two texts do in it.
pub fn ring_text_agrees()
    ensures { RingTextAgrees }
{}

/// The loop of single placements and the loop with rings end alike where no placement is inward.
pub fn outward_text_agrees()
    ensures { OutwardTextAgrees }
{}

/// Behind the loops the text waits for the outward transfers of the last turns, and for no others.
pub fn last_waits_are_steps()
    ensures { LastWaitsAreSteps }
{}

/// The epilogue's body, under names that stand for what the main loop's do, has the actions of the main loop's.
pub fn twins_do_the_same()
    ensures { TwinsDoTheSame }
{}
