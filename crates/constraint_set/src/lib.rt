//! Systems of linear inequalities with integer coefficients, and the definitions of what is asked of them.
//!
//! A system stands for the rational points at which all its rows hold, seen as scaled points: integer vectors with a
//! positive integer below them. `specs/` defines these points, elimination after Fourier and Motzkin with its limits, and
//! how far a form reaches; `proofs/` has the laws of elimination over lists, for any tidying that keeps the points.
//! `System` keeps rows as they were pushed, `Rows` keeps one row for each list of coefficients. The crate stands on
//! `num_row` for exact arithmetic and on `indexmap`.
#![tactic(auto)]

mod keyed;
mod linear;
mod listed;

pub use keyed::Rows;
pub use linear::Row;
pub use listed::System;
