//! Exact projection of systems of linear inequalities: elimination after Fourier and Motzkin, the reach of a form, and
//! emptiness.
//!
//! `eliminate` gives the list of rows that `constraint_set` defines. Its laws stand on the same call: every scaled point
//! of the system projects, and every scaled point of the result lifts. `reach` gives the least and the greatest integer,
//! and `is_empty` tells whether there is a scaled point at all. Refusals come exactly where the definition has them: more
//! than 64 variables, more than 2,048 rows in a step, or a number that isn't in 128 bits. Rows stand in a table that is
//! keyed by their coefficients. The crate stands on `constraint_set` and `num_row`.
#![tactic(auto)]

mod bounds;
mod eliminating;
mod fault;
mod pair;
mod reaching;
mod side;
mod steps;
mod tidy;
mod value;

pub use eliminating::eliminate;
pub use fault::ReachFault;
pub use pair::mix;
pub use reaching::{Reached, is_empty, reach};
