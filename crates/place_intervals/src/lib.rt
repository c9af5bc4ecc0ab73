//! The intervals of the places of a region, and whether the expressions of its templates keep to the rule on intervals.
#![tactic(auto)]

mod interval;

pub use interval::{copies_fit, place_ranges, subscripts_fit};
