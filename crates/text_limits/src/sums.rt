// The sums of a text that the limits speak of.
ghost use Rattle.std.specs.Prelude.{◌≡◌, ◌&&◌, suc};
ghost use Rattle.affine_ast.specs.Nest.{Nothing, Does, nest, put_what, plain_of};
ghost use Rattle.affine_ast.specs.Scope.{tags_of};
ghost use Rattle.affine_ast.specs.Sizes.{product};
ghost use Rattle.text_limits.specs.Adding.{with_sums};
ghost use Rattle.text_limits.specs.Capped.{capped, capped_sums, head_sums};
ghost use Rattle.text_limits.specs.Sums.{elements_of, tag_elements_of, is_shallow, sums_in, are_within};

use crate::measures::{Measure, of_bound, of_plain, of_rows};
use affine_ast::{MemrefType, Stmt, What};

/// Statements and operands, elements of allocations and of those of tags; and whether each statement by itself keeps to the limits. A
/// number that 64 bits don't hold stays at the greatest.
#[derive(Clone, Copy)]
pub struct Sums {
    pub statements: u64,
    pub operands: u64,
    pub elements: u64,
    pub tags: u64,
    pub fits: bool,
}

/// How many loops and conditions stand round a text.
#[derive(Clone, Copy)]
pub struct Round {
    pub loops: u64,
    pub ifs: u64,
}

impl Round {
    fn in_loop(self) -> Round
        ensures loops { result.loops ≡ capped (suc self.loops) }
        ensures ifs { result.ifs ≡ self.ifs }
    {
        Round {
            loops: self.loops.saturating_add(1),
            ifs: self.ifs,
        }
    }

    fn in_condition(self) -> Round
        ensures loops { result.loops ≡ self.loops }
        ensures ifs { result.ifs ≡ capped (suc self.ifs) }
    {
        Round {
            loops: self.loops,
            ifs: self.ifs.saturating_add(1),
        }
    }

    fn is_shallow(self) -> bool
        ensures { result ≡ is_shallow self.loops self.ifs }
    {
        self.loops <= 16 && self.ifs <= 16
    }

    /// One statement of this measure, without its regions.
    fn head(self, measure: Measure) -> Sums
        ensures { result ≡ head_sums self.loops self.ifs measure }
    {
        Sums {
            statements: 1,
            operands: measure.operands,
            elements: 0,
            tags: 0,
            fits: self.is_shallow() && measure.fits,
        }
    }
}

impl Sums {
    /// Those of no statement.
    pub fn none() -> Sums
        ensures { result ≡ sums_in 0 0 Nothing }
    {
        Sums {
            statements: 0,
            operands: 0,
            elements: 0,
            tags: 0,
            fits: true,
        }
    }

    /// Those of two texts.
    pub fn plus(self, other: Sums) -> Sums
        ensures { result ≡ capped_sums (with_sums self other) }
    {
        Sums {
            statements: self.statements.saturating_add(other.statements),
            operands: self.operands.saturating_add(other.operands),
            elements: self.elements.saturating_add(other.elements),
            tags: self.tags.saturating_add(other.tags),
            fits: self.fits && other.fits,
        }
    }

    /// Whether a text with these sums keeps to the limits.
    pub fn are_within(&self) -> bool
        ensures { result ≡ are_within self.now }
    {
        self.fits
            && self.operands <= 1_048_576
            && self.statements <= 65_536
            && self.elements <= 16_777_216
            && self.tags <= 65_536
    }
}

// ---- allocations

fn elements(sizes: &[u32]) -> u64
    ensures { result ≡ capped (product sizes.now) }
{
    let mut count: u64 = 1;
    for size in sizes {
        count = count.saturating_mul(*size as u64);
    }
    count
}

fn tag_elements(ty: &MemrefType) -> u64
    ensures { result ≡ capped (tags_of ty.now.space (product ty.now.sizes)) }
{
    if ty.space == 2 {
        elements(ty.sizes.as_slice())
    } else {
        0
    }
}

/// The elements of an allocation.
#[tactic(auto, using(affine_ast::proofs::Nests::plains))]
fn allocated(what: &What) -> u64
    ensures { result ≡ capped (elements_of (plain_of what.now)) }
{
    match what {
        What::Alloc { ty, .. } => elements(ty.sizes.as_slice()),
        _ => 0,
    }
}

/// Those of tags.
#[tactic(auto, using(affine_ast::proofs::Nests::plains))]
fn tags_allocated(what: &What) -> u64
    ensures { result ≡ capped (tag_elements_of (plain_of what.now)) }
{
    match what {
        What::Alloc { ty, .. } => tag_elements(ty),
        _ => 0,
    }
}

// ---- statements

/// Of a statement without a region.
fn of_plain_stmt(what: &What, round: Round) -> Sums
    ensures { result ≡ capped_sums (sums_in round.loops round.ifs (Does 0 (plain_of what.now) Nothing)) }
{
    let head = round.head(of_plain(what));
    Sums {
        statements: head.statements,
        operands: head.operands,
        elements: allocated(what),
        tags: tags_allocated(what),
        fits: head.fits,
    }
}

/// Of a statement with those in it.
#[cycle(sums)]
fn of_stmt(stmt: &Stmt, round: Round) -> Sums
    ensures { result ≡ capped_sums (sums_in round.loops round.ifs (put_what stmt.now.what stmt.now.line Nothing)) }
{
    match &stmt.what {
        What::For {
            lower,
            upper,
            body,
            ..
        } => {
            let head = round.head(of_bound(lower).and(of_bound(upper)));
            head.plus(sums_of(body.as_slice(), round.in_loop()))
        }
        What::If {
            set,
            first,
            other,
            ..
        } => {
            let head = round.head(of_rows(set.rows.as_slice()));
            let inner = round.in_condition();
            let sums = head.plus(sums_of(first.as_slice(), inner));
            match other {
                None => sums,
                Some(other) => sums.plus(sums_of(other.as_slice(), inner)),
            }
        }
        _ => of_plain_stmt(&stmt.what, round),
    }
}

/// Of the statements of a region, round which so many loops and conditions stand.
#[cycle(sums)]
pub fn sums_of(stmts: &[Stmt], round: Round) -> Sums
    ensures { result ≡ capped_sums (sums_in round.loops round.ifs (nest stmts.now)) }
{
    let mut sums = Sums::none();
    for stmt in stmts {
        sums = sums.plus(of_stmt(stmt, round));
    }
    sums
}
