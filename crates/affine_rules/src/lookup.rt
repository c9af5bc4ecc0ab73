// What the rules ask of names.
ghost use Rattle.std.specs.Prelude.{◌≡◌, false, true, take, drop, Some, None};
ghost use Rattle.std.specs.List.{list_all};
ghost use Rattle.affine_ast.specs.Rules.{is_in, are_in, may_be_dimension, may_be_symbol, is_memref, is_dimension, is_symbol, is_value, are_values, binding_is_memref_of, binding_is_scalar, is_memref_of, is_of, are_indexes, operands_stand, binding_is_small, is_small_dimension, is_allocation, is_allocated, number_of_binding, constant_of, is_small};
ghost use Rattle.affine_rules.specs.Scoped.{binding_of, scope_of};

use crate::scope::{Binding, Key, found};
use affine_ast::{MemrefType, Name, Scalar};
use indexmap::IndexMap;
use name_hash::NameHashing;
use shape_rules::{same_scalar, same_type};

pub type Names<'a> = IndexMap<Key<'a>, Binding, NameHashing>;

/// 2^62.
const MOST: i64 = 4_611_686_018_427_387_904;

#[tactic(auto, unfolding(affine_ast::specs::Rules::is_in), using(crate::proofs::Looked::found_some))]
pub fn is_in<'a>(names: &Names<'a>, name: &'a Name) -> bool
    ensures { result ≡ is_in (scope_of names.now.entries) name.now }
{
    found(names, name).is_some()
}

#[tactic(auto, unfolding(affine_ast::specs::Rules::are_in))]
pub fn are_in<'a>(names: &Names<'a>, used: &'a [Name]) -> bool
    ensures { result ≡ are_in (scope_of names.now.entries) used.now }
{
    for name in used {
        if !is_in(names, name) {
            return false;
        }
    }
    true
}

impl Binding {
    fn may_be_dimension(&self) -> bool
        ensures { result ≡ may_be_dimension (Some (binding_of self.now)) }
    {
        match self {
            Binding::Variable(_) => true,
            Binding::Symbol(_) => true,
            Binding::IndexConstant(_) => true,
            Binding::Data(_) => false,
            Binding::MemrefArgument(_) => false,
            Binding::Allocation(_) => false,
        }
    }

    fn may_be_symbol(&self) -> bool
        ensures { result ≡ may_be_symbol (Some (binding_of self.now)) }
    {
        match self {
            Binding::Variable(_) => false,
            Binding::Symbol(_) => true,
            Binding::IndexConstant(_) => true,
            Binding::Data(_) => false,
            Binding::MemrefArgument(_) => false,
            Binding::Allocation(_) => false,
        }
    }

    fn is_memref(&self) -> bool
        ensures { result ≡ is_memref (Some (binding_of self.now)) }
    {
        match self {
            Binding::Variable(_) => false,
            Binding::Symbol(_) => false,
            Binding::IndexConstant(_) => false,
            Binding::Data(_) => false,
            Binding::MemrefArgument(_) => true,
            Binding::Allocation(_) => true,
        }
    }

    fn is_memref_of(&self, written: &MemrefType) -> bool
        ensures { result ≡ binding_is_memref_of (Some (binding_of self.now)) written.now }
    {
        match self {
            Binding::Variable(_) => false,
            Binding::Symbol(_) => false,
            Binding::IndexConstant(_) => false,
            Binding::Data(_) => false,
            Binding::MemrefArgument(ty) => same_type(ty, written),
            Binding::Allocation(ty) => same_type(ty, written),
        }
    }

    fn is_of(&self, written: Scalar) -> bool
        ensures { result ≡ binding_is_scalar (Some (binding_of self.now)) written }
    {
        match self {
            Binding::Variable(_) => same_scalar(Scalar::Index, written),
            Binding::Symbol(_) => same_scalar(Scalar::Index, written),
            Binding::IndexConstant(_) => same_scalar(Scalar::Index, written),
            Binding::Data(ty) => same_scalar(*ty, written),
            Binding::MemrefArgument(_) => false,
            Binding::Allocation(_) => false,
        }
    }

    fn is_small(&self) -> bool
        ensures { result ≡ binding_is_small (Some (binding_of self.now)) }
    {
        match self {
            Binding::Variable(_) => true,
            Binding::Symbol(_) => true,
            Binding::IndexConstant(value) => is_small(*value),
            Binding::Data(_) => true,
            Binding::MemrefArgument(_) => true,
            Binding::Allocation(_) => true,
        }
    }

    fn is_allocation(&self) -> bool
        ensures { result ≡ is_allocation (Some (binding_of self.now)) }
    {
        match self {
            Binding::Variable(_) => false,
            Binding::Symbol(_) => false,
            Binding::IndexConstant(_) => false,
            Binding::Data(_) => false,
            Binding::MemrefArgument(_) => false,
            Binding::Allocation(_) => true,
        }
    }

    fn number(&self) -> Option<i64>
        ensures { result ≡ number_of_binding (Some (binding_of self.now)) }
    {
        match self {
            Binding::Variable(_) => None,
            Binding::Symbol(_) => None,
            Binding::IndexConstant(value) => Some(*value),
            Binding::Data(_) => None,
            Binding::MemrefArgument(_) => None,
            Binding::Allocation(_) => None,
        }
    }
}

/// Whether a number is within -2^62 to 2^62.
pub fn is_small(value: i64) -> bool
    ensures { result ≡ is_small value }
{
    -MOST <= value && value <= MOST
}

#[tactic(auto, unfolding(affine_ast::specs::Rules::is_dimension), using(crate::proofs::Looked::found_at))]
pub fn is_dimension<'a>(names: &Names<'a>, name: &'a Name) -> bool
    ensures { result ≡ is_dimension (scope_of names.now.entries) name.now }
{
    match found(names, name) {
        None => false,
        Some(binding) => binding.may_be_dimension(),
    }
}

#[tactic(auto, unfolding(affine_ast::specs::Rules::is_symbol), using(crate::proofs::Looked::found_at))]
fn is_symbol<'a>(names: &Names<'a>, name: &'a Name) -> bool
    ensures { result ≡ is_symbol (scope_of names.now.entries) name.now }
{
    match found(names, name) {
        None => false,
        Some(binding) => binding.may_be_symbol(),
    }
}

#[tactic(auto, unfolding(affine_ast::specs::Rules::is_value), using(crate::proofs::Looked::found_at))]
pub fn is_value<'a>(names: &Names<'a>, name: &'a Name) -> bool
    ensures { result ≡ is_value (scope_of names.now.entries) name.now }
{
    match found(names, name) {
        None => true,
        Some(binding) => !binding.is_memref(),
    }
}

#[tactic(auto, unfolding(affine_ast::specs::Rules::are_values))]
pub fn are_values<'a>(names: &Names<'a>, used: &'a [Name]) -> bool
    ensures { result ≡ are_values (scope_of names.now.entries) used.now }
{
    for name in used {
        if !is_value(names, name) {
            return false;
        }
    }
    true
}

fn are_dimensions<'a>(names: &Names<'a>, used: &'a [Name]) -> bool
    ensures { result ≡ list_all (is_dimension (scope_of names.now.entries)) used.now }
{
    for name in used {
        if !is_dimension(names, name) {
            return false;
        }
    }
    true
}

fn are_symbols<'a>(names: &Names<'a>, used: &'a [Name]) -> bool
    ensures { result ≡ list_all (is_symbol (scope_of names.now.entries)) used.now }
{
    for name in used {
        if !is_symbol(names, name) {
            return false;
        }
    }
    true
}

/// The operands of the dimensions, and those of the symbols.
pub fn parted<'a>(dims: u32, operands: &'a [Name]) -> (&'a [Name], &'a [Name])
    ensures dims { result.0.now ≡ take dims operands.now }
    ensures syms { result.1.now ≡ drop dims operands.now }
{
    let dims = (dims as usize).min(operands.len());
    operands.split_at(dims)
}

#[tactic(auto, unfolding(affine_ast::specs::Rules::operands_stand))]
pub fn operands_stand<'a>(names: &Names<'a>, dims: u32, operands: &'a [Name]) -> bool
    ensures { result ≡ operands_stand (scope_of names.now.entries) dims operands.now }
{
    let (dims, syms) = parted(dims, operands);
    are_dimensions(names, dims) && are_symbols(names, syms)
}

#[tactic(auto, unfolding(affine_ast::specs::Rules::is_memref_of), using(crate::proofs::Looked::found_at))]
pub fn is_memref_of<'a>(names: &Names<'a>, name: &'a Name, ty: &MemrefType) -> bool
    ensures { result ≡ is_memref_of (scope_of names.now.entries) name.now ty.now }
{
    match found(names, name) {
        None => false,
        Some(binding) => binding.is_memref_of(ty),
    }
}

#[tactic(auto, unfolding(affine_ast::specs::Rules::is_of), using(crate::proofs::Looked::found_at))]
pub fn is_of<'a>(names: &Names<'a>, name: &'a Name, ty: Scalar) -> bool
    ensures { result ≡ is_of (scope_of names.now.entries) name.now ty }
{
    match found(names, name) {
        None => false,
        Some(binding) => binding.is_of(ty),
    }
}

#[tactic(auto, unfolding(affine_ast::specs::Rules::are_indexes))]
pub fn are_indexes<'a>(names: &Names<'a>, used: &'a [Name]) -> bool
    ensures { result ≡ are_indexes (scope_of names.now.entries) used.now }
{
    for name in used {
        if !is_of(names, name, Scalar::Index) {
            return false;
        }
    }
    true
}

#[tactic(auto, unfolding(affine_ast::specs::Rules::is_small_dimension), using(crate::proofs::Looked::found_at))]
pub fn is_small_dimension<'a>(names: &Names<'a>, name: &'a Name) -> bool
    ensures { result ≡ is_small_dimension (scope_of names.now.entries) name.now }
{
    match found(names, name) {
        None => true,
        Some(binding) => binding.is_small(),
    }
}

pub fn are_small_dimensions<'a>(names: &Names<'a>, used: &'a [Name]) -> bool
    ensures { result ≡ list_all (is_small_dimension (scope_of names.now.entries)) used.now }
{
    for name in used {
        if !is_small_dimension(names, name) {
            return false;
        }
    }
    true
}

#[tactic(auto, unfolding(affine_ast::specs::Rules::is_allocated), using(crate::proofs::Looked::found_at))]
pub fn is_allocated<'a>(names: &Names<'a>, name: &'a Name) -> bool
    ensures { result ≡ is_allocated (scope_of names.now.entries) name.now }
{
    match found(names, name) {
        None => false,
        Some(binding) => binding.is_allocation(),
    }
}

#[tactic(auto, unfolding(affine_ast::specs::Rules::constant_of), using(crate::proofs::Looked::found_at))]
pub fn constant_of<'a>(names: &Names<'a>, name: &'a Name) -> Option<i64>
    ensures { result ≡ constant_of (scope_of names.now.entries) name.now }
{
    found(names, name)?.number()
}
