//! Laws of a valid module: its bounds and values are affine and its steps positive, all its affine values stay within 2^62, and every
//! number that a walk of its text needs fits a machine word.
//!
//! The laws of ranges of `direct_meaning` ask for the first, and say that the numbers of a run lie in the ranges of the second. The crate stands on `affine_ast` and `direct_meaning`.
#![tactic(auto)]

ghost use Rattle.valid_laws.specs.Laws.{ValidIsAffine, ValidIsBounded, ValidIsEvaluable, ValidIsSafe};

/// The bounds and the values of a valid module are affine, and its steps are positive: what the bound on the actions by the work and
/// the ranges of the walk ask for.
pub fn valid_is_affine()
    ensures { ValidIsAffine }
{}

/// The affine values of a valid module stay within 2^62, each part of an expression over the ranges of the names round it: the bounds
/// of loops, the rows of conditions, the subscripts and the values of statements.
pub fn valid_is_bounded()
    ensures { ValidIsBounded }
{}

/// From every memory that fits a valid module, each of its expressions may be evaluated wherever the list of its actions comes to it,
/// in each turn of the loops round it: it is pure, its leaves are among its operands, and each of its parts stays within 2^62.
pub fn valid_is_evaluable()
    ensures { ValidIsEvaluable }
{}

/// From every memory that fits a valid module, wherever the list of its actions comes: the bounds of loops and the values that maps
/// give stay within 2^62, operands fit their types, each memref name stands for a memref of the written space and rank, and the numbers of
/// slow places, of fast memrefs and of tags keep within the limits of a module. So a walk of the text over machine words needs no
/// number that they can't hold.
pub fn valid_is_safe()
    ensures { ValidIsSafe }
{}
