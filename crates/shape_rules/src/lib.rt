//! What the rules of validity ask of maps, sets and types, whatever stands round a statement.
//!
//! Each function is proved equal to a definition of `affine_ast`, `specs/Rules`: whether operands are as many as the parameters,
//! whether each product and each division stands on what it may (the rule V8), sizes, ranks and spaces. What stands in an
//! expression without dimension and symbol is computed exactly, whatever its size: the sign of a divisor decides. The crate stands
//! on `affine_ast`, `affine_expr` and `big_integer`.
#![tactic(auto)]

mod pure;
mod purity;
mod shapes;

pub use pure::{access_pure, bound_pure, set_pure};
pub use shapes::{
    allocates_well, bound_fits, casts_between, constant_fits, elements, is_loadable, map_fits,
    results_fit, same_element, same_scalar, same_type, set_fits, shape_within, subscripts_fit,
};
