// How often a memref is accessed, and which argument it is.
ghost use Rattle.std.specs.Prelude.{◌≡◌, [], ◌∷◌, map, nat_eq};
ghost use Rattle.std.specs.Option.{option_copied};
ghost use Rattle.affine_ast.specs.Nest.{Nothing, nest, plain_of, put_what};
ghost use Rattle.text_places.specs.Finding.{or_none, seen};
ghost use Rattle.staged_plans.specs.Plans.{has_store};
ghost use Rattle.plan_laws.specs.Plan.{accessed, accesses, times, with_access, argument_number, type_of_kind, type_of};
ghost use Rattle.hoisted_sites.specs.Counting.{left_of};

use affine_ast::{Arg, ArgKind, MemrefType, Name, Stmt, What};
use sqlite_items::Items;
use text_places::{FoundUse, same};

/// The memref that a statement without regions accesses.
#[tactic(auto, using(crate::proofs::Accessing::no_access, affine_ast::proofs::Nests::plains))]
fn accessed(what: &What) -> Option<&Name>
    ensures { option_copied result ≡ accessed (plain_of what.now) }
{
    match what {
        What::Load { memref, .. } => Some(memref),
        What::Store { memref, .. } => Some(memref),
        What::RawLoad { memref, .. } => Some(memref),
        What::RawStore { memref, .. } => Some(memref),
        _ => None,
    }
}

/// The statements of an `else` region, and none where there isn't one.
fn or_none(other: &Option<Items<Stmt>>) -> &[Stmt]
    ensures { result.now ≡ or_none other.now }
{
    match other {
        None => &[],
        Some(other) => other.as_slice(),
    }
}

/// One less where the statement accesses the memref.
fn left_behind_plain(memref: &Name, what: &What, left: usize) -> Option<usize>
    ensures { result ≡ left_of left (times memref.now (with_access (accessed (plain_of what.now)) [])) }
{
    match accessed(what) {
        None => Some(left),
        Some(other) => {
            if same(memref, other) {
                left.checked_sub(1)
            } else {
                Some(left)
            }
        }
    }
}

#[cycle(counts)]
#[tactic(auto, using(crate::proofs::Counts::left_of_loop, crate::proofs::Counts::left_of_condition, crate::proofs::Counts::left_of_first, crate::proofs::Counts::left_of_plain))]
fn left_behind(memref: &Name, stmt: &Stmt, left: usize) -> Option<usize>
    ensures { result ≡ left_of left (times memref.now (accesses (put_what stmt.now.what stmt.now.line Nothing))) }
{
    match &stmt.what {
        What::For { body, .. } => left_behind_all(memref, body.as_slice(), left),
        What::If { first, other, .. } => {
            let left = left_behind_all(memref, first.as_slice(), left)?;
            left_behind_all(memref, or_none(other), left)
        }
        what => left_behind_plain(memref, what, left),
    }
}

/// How many are left of so many, when the accesses of a memref in statements are taken off; nothing where there are more.
#[cycle(counts)]
#[tactic(auto, using(crate::proofs::Counts::left_goes_on, crate::proofs::Counts::left_stops, crate::proofs::Counts::left_ends))]
fn left_behind_all(memref: &Name, stmts: &[Stmt], count: usize) -> Option<usize>
    ensures { result ≡ left_of count (times memref.now (accesses (nest stmts.now))) }
{
    let mut left = count;
    for stmt in stmts {
        left = left_behind(memref, stmt, left)?;
    }
    Some(left)
}

/// Whether statements access a memref so many times. It ends at the first access too many.
#[tactic(auto, using(crate::proofs::Counts::so_many, crate::proofs::Counts::more))]
pub fn are_accessed(memref: &Name, stmts: &[Stmt], count: usize) -> bool
    ensures { result ≡ nat_eq (times memref.now (accesses (nest stmts.now))) count }
{
    match left_behind_all(memref, stmts, count) {
        Some(left) => left == 0,
        None => false,
    }
}

fn stores(found: &FoundUse<'_>) -> bool
    ensures { result ≡ has_store (seen found.now ∷ []) }
{
    match found {
        FoundUse::Affine { stores, .. } => *stores,
        FoundUse::Other => false,
    }
}

/// Whether one of the accesses is a store.
pub fn has_store(uses: &[FoundUse<'_>]) -> bool
    ensures { result ≡ has_store (map seen uses.now) }
{
    for found in uses {
        if stores(found) {
            return true;
        }
    }
    false
}

/// The number of a memref among the arguments, and how many these are where it is none.
pub fn argument_number(args: &[Arg], memref: &Name) -> usize
    ensures { result ≡ argument_number args.now memref.now }
{
    for (number, arg) in args.iter().enumerate() {
        if same(&arg.name, memref) {
            return number;
        }
    }
    args.len()
}

fn type_of_kind(kind: &ArgKind) -> Option<&MemrefType>
    ensures { option_copied result ≡ type_of_kind kind.now }
{
    match kind {
        ArgKind::Memref(ty) => Some(ty),
        ArgKind::Index(_) => None,
    }
}

/// The type of a memref argument.
pub fn type_of<'a>(args: &'a [Arg], memref: &Name) -> Option<&'a MemrefType>
    ensures { option_copied result ≡ type_of args.now memref.now }
{
    for arg in args {
        if same(&arg.name, memref) {
            return type_of_kind(&arg.kind);
        }
    }
    None
}
