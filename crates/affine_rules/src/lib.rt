//! The rules of validity of one statement: which is the lowest that it breaks, under what stands round it.
//!
//! `Scoped` is what stands round a statement: a table of the names in scope, the loops and conditions round it, and the totals so
//! far. Each function is proved equal to a definition of `affine_ast`, `specs/Rules` or `specs/Validity`. The crate stands on
//! `shape_rules`, which has the rules that don't ask what stands round, on `affine_ast`, `affine_expr` and `indexmap`.
#![tactic(auto)]

mod bounded;
mod kinds;
mod lookup;
mod regions;
mod scope;
mod transfers;

pub use bounded::{
    access_bounded, bound_bounded, interval_of, intervals_of, parted_intervals, set_bounded,
};
pub use kinds::{
    rule_of_binary, rule_of_cast, rule_of_constant, rule_of_dealloc, rule_of_load,
    rule_of_raw_load, rule_of_raw_store, rule_of_return, rule_of_store, rule_of_value,
    rule_of_wait, text_rule,
};
pub use lookup::{Names, is_in, is_small};
pub use regions::{rule_of_condition, rule_of_loop};
pub use scope::{Binding, Key, Scoped, Totals, define, found, is_released, release};
pub use transfers::rule_of_start;
