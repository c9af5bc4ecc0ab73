// The loops that a loop becomes.
use affine_ast::Bound;

/// The lower and the upper bound of each of the three loops that a loop is split into; each keeps the loop's variable and step.
#[derive(Drop)]
pub struct Parts {
    /// The turns whose data are fetched before any work is done.
    pub prologue: (Bound, Bound),
    /// The turns that fetch the data of a later turn.
    pub main: (Bound, Bound),
    /// The turns for which all data were fetched before.
    pub epilogue: (Bound, Bound),
}
