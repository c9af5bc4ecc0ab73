// The linear form of an expression.
ghost use Rattle.std.specs.Prelude.{◌≡◌, ◌+◌, ◌-ℤ◌, ◌<◌, ◌≤◌, pos, length, slice_get, slice_index_or, ◌++◌, IfOk, true, List, ℤ, Ok, ◌^◌};
ghost use Rattle.num_row.specs.Ints.{narrowed};
ghost use Rattle.affine_expr.specs.Forms.{Form, IsShaped, linear_value};
ghost use Rattle.affine_expr.specs.Value.{value};
ghost use Rattle.affine_expr.specs.Pure.{is_pure, has_leaves_below, has_small_numbers};
ghost use Rattle.affine_expr.specs.Linear.{Meets, GivesForm, joined, join_coefs, join_forms, scale_coefs, scale_form, number_form, variable_form, variable_forms, padded, combined, minus, raised, floored_form, rest_form, leaf, divisor, part_of, over, formed, linear_of};

use crate::Expr;
use crate::interval::minus;
use crate::known::positive;
use num_row::{exact_add, exact_mul};
use std::alloc::{AllocError, AllocFailed, Global};
use std::marker::Model;
use thiserror::Error;

/// Why an expression has no linear form.
#[derive(Clone, Copy, Debug, Error)]
pub enum LinearFault {
    /// A coefficient or constant on the way isn't in 128 bits.
    #[error("a coefficient leaves 128 bits")]
    Wide,
    #[error("out of memory")]
    Memory,
}

impl From<AllocError> for LinearFault {
    ghost use Rattle.affine_expr.specs.declared.linear.LinearFault.{LinearFault};

    ghost from_gives = { λ _ r. r ≡ LinearFault.Memory };

    fn from(_error: AllocError) -> LinearFault {
        LinearFault::Memory
    }
}

impl<T: Drop> From<AllocFailed<T>> for LinearFault {
    ghost use Rattle.affine_expr.specs.declared.linear.LinearFault.{LinearFault};

    ghost from_gives = { λ _ r. r ≡ LinearFault.Memory };

    fn from(_error: AllocFailed<T>) -> LinearFault {
        LinearFault::Memory
    }
}

/// The floor over a positive divisor of a form that has a coefficient for each dimension, each symbol and each local
/// before this one, in that order.
#[derive(Drop)]
pub struct Local {
    pub coefs: Vec<i128>,
    pub constant: i128,
    pub divisor: i64,
}

impl Model for Local {
    ghost use Rattle.affine_expr.specs.Forms.{LocalForm};

    ghost Value = { LocalForm };

    ghost view = { λ l. record { coefs = l.coefs.items; constant = l.constant; divisor = l.divisor } };
}

/// A form with a coefficient for each dimension, each symbol and then each local.
#[derive(Drop)]
pub struct Linear {
    pub coefs: Vec<i128>,
    pub constant: i128,
    pub locals: Vec<Local>,
}

impl Model for Linear {
    ghost use Rattle.affine_expr.specs.Forms.{LinearForm};

    ghost Value = { LinearForm };

    ghost view = { λ f. record { coefs = f.coefs.items; constant = f.constant; locals = f.locals.items } };
}

/// A form over the first variables of a space: a coefficient for each, and a constant.
#[derive(Drop)]
pub struct Combination {
    pub coefs: Vec<i128>,
    pub constant: i128,
}

impl Model for Combination {
    ghost use Rattle.affine_expr.specs.Forms.{Form};

    ghost Value = { Form };

    ghost view = { λ f. record { coefs = f.coefs.items; constant = f.constant } };
}

/// The two ways to join forms.
#[derive(Clone, Copy)]
pub enum Join {
    Sum,
    Difference,
}

fn exact_sub(left: i128, right: i128) -> Option<i128>
    ensures { result ≡ narrowed (left -ℤ right) }
{
    left.checked_sub(right)
}

fn joined(way: Join, left: i128, right: i128) -> Option<i128>
    ensures { result ≡ narrowed (joined way left right) }
{
    match way {
        Join::Sum => exact_add(left, right),
        Join::Difference => exact_sub(left, right),
    }
}

fn coef(coefs: &[i128], place: usize) -> i128
    ensures { result ≡ slice_index_or coefs.now place (pos 0) }
{
    if place < coefs.len() { coefs[place] } else { 0 }
}

#[tactic(auto, using(crate::proofs::Joins::turn, crate::proofs::Joins::stop, crate::proofs::Joins::ended))]
fn join_coefs(alloc: Global, way: Join, xs: &[i128], ys: &[i128]) -> Result<Vec<i128>, LinearFault>
    ensures { Meets (join_coefs way xs.now ys.now) (λ v. v.items) result }
{
    let mut coefs = Vec::new(alloc);
    for (place, y) in ys.iter().enumerate() {
        let Some(number) = joined(way, coef(xs, place), *y) else {
            return Err(LinearFault::Wide);
        };
        coefs.push(number)?;
    }
    Ok(coefs)
}

#[tactic(auto, using(crate::proofs::Scales::turn, crate::proofs::Scales::stop, crate::proofs::Scales::ended))]
fn scale_coefs(alloc: Global, factor: i128, xs: &[i128]) -> Result<Vec<i128>, LinearFault>
    ensures { Meets (scale_coefs factor xs.now) (λ v. v.items) result }
{
    let mut coefs = Vec::new(alloc);
    for x in xs {
        let Some(number) = exact_mul(factor, *x) else {
            return Err(LinearFault::Wide);
        };
        coefs.push(number)?;
    }
    Ok(coefs)
}

#[tactic(auto, unfolding(crate::specs::Linear::join_forms))]
fn join_forms(
    alloc: Global,
    way: Join,
    f: &Combination,
    g: &Combination,
) -> Result<Combination, LinearFault>
    ensures { Meets (join_forms way f.now g.now) (λ h. h) result }
{
    let coefs = join_coefs(alloc, way, &f.coefs, &g.coefs)?;
    let Some(constant) = joined(way, f.constant, g.constant) else {
        return Err(LinearFault::Wide);
    };
    Ok(Combination { coefs, constant })
}

#[tactic(auto, unfolding(crate::specs::Linear::scale_form))]
fn scale_form(alloc: Global, factor: i128, f: &Combination) -> Result<Combination, LinearFault>
    ensures { Meets (scale_form factor f.now) (λ h. h) result }
{
    let coefs = scale_coefs(alloc, factor, &f.coefs)?;
    let Some(constant) = exact_mul(factor, f.constant) else {
        return Err(LinearFault::Wide);
    };
    Ok(Combination { coefs, constant })
}

#[tactic(auto, unfolding(crate::specs::Linear::number_form))]
fn number_form(alloc: Global, width: usize, constant: i128) -> Result<Combination, LinearFault>
    ensures { Meets {A = Form} (Ok (number_form width constant)) (λ f. f) result }
{
    let coefs = vec![in alloc; 0; width]?;
    Ok(Combination { coefs, constant })
}

#[tactic(auto, unfolding(crate::specs::Linear::variable_form), using(crate::proofs::Units::past))]
fn variable_form(alloc: Global, width: usize, place: usize) -> Result<Combination, LinearFault>
    ensures { Meets {A = Form} (Ok (variable_form width place)) (λ f. f) result }
{
    let mut coefs: Vec<i128> = vec![in alloc; 0; width]?;
    if place < width {
        coefs[place] = 1;
    }
    Ok(Combination { coefs, constant: 0 })
}

/// The form with coefficients for at least so many variables.
#[tactic(auto, unfolding(crate::specs::Linear::padded))]
fn padded(alloc: Global, f: &Combination, width: usize) -> Result<Combination, LinearFault>
    ensures { Meets {A = Form} (Ok (padded width f.now)) (λ h. h) result }
{
    let mut coefs = f.coefs.clone()?;
    let more: Vec<i128> = vec![in alloc; 0; width.saturating_sub(f.coefs.len())]?;
    coefs.extend_from_slice(&more)?;
    Ok(Combination {
        coefs,
        constant: f.constant,
    })
}

fn combined(
    alloc: Global,
    way: Join,
    f: &Combination,
    g: &Combination,
) -> Result<Combination, LinearFault>
    ensures { Meets (combined way f.now g.now) (λ h. h) result }
{
    let g = padded(alloc, g, f.coefs.len())?;
    join_forms(alloc, way, f, &g)
}

/// The forms of so many variables, from the one at a place on.
#[tactic(auto, using(crate::proofs::Variables::turn, crate::proofs::Variables::ended))]
fn variable_forms(
    alloc: Global,
    width: usize,
    place: usize,
    count: usize,
) -> Result<Vec<Combination>, LinearFault>
    requires { place + count ≤ width }
    ensures { Meets {A = List Form} (Ok (variable_forms width place count)) (λ forms. forms.items) result }
{
    let mut forms = Vec::new(alloc);
    for number in 0..count {
        forms.push(variable_form(alloc, width, place + number)?)?;
    }
    Ok(forms)
}

impl Combination {
    /// The form of a number.
    pub fn of_number(
        alloc: Global,
        width: usize,
        constant: i128,
    ) -> Result<Combination, LinearFault>
        ensures { Meets {A = Form} (Ok (number_form width constant)) (λ f. f) result }
    {
        number_form(alloc, width, constant)
    }

    /// The form of the variable at a place.
    pub fn of_variable(
        alloc: Global,
        width: usize,
        place: usize,
    ) -> Result<Combination, LinearFault>
        ensures { Meets {A = Form} (Ok (variable_form width place)) (λ f. f) result }
    {
        variable_form(alloc, width, place)
    }

    /// The form with coefficients for at least so many variables.
    pub fn padded(&self, alloc: Global, width: usize) -> Result<Combination, LinearFault>
        ensures { Meets {A = Form} (Ok (padded width self.now)) (λ f. f) result }
    {
        padded(alloc, self, width)
    }

    /// This form less another: `Wide` where a number of the difference isn't in 128 bits.
    #[tactic(auto, unfolding(crate::specs::Linear::minus))]
    pub fn minus(&self, alloc: Global, other: &Combination) -> Result<Combination, LinearFault>
        ensures { Meets (minus self.now other.now) (λ f. f) result }
    {
        combined(alloc, Join::Difference, self, other)
    }
}

/// The forms of an expression's dimensions and symbols, over so many variables before its locals.
#[derive(Drop)]
pub struct Leaves<'a> {
    pub width: usize,
    pub dims: &'a [Combination],
    pub syms: &'a [Combination],
    pub ghost counted: { width < 2 ^ 33 },
}

impl Leaves<'_> {
    fn width(&self, locals: &[Local]) -> usize
        ensures { result ≡ self.now.width + length locals.now }
    {
        self.width + locals.len()
    }

    fn factor(&self, part: &Expr) -> Option<i64>
        ensures { result ≡ (part_of self.now.width self.now.dims.now self.now.syms.now part.now).known }
    {
        part.known()
    }

    fn divisor(&self, part: &Expr) -> Option<i64>
        ensures { result ≡ divisor (part_of self.now.width self.now.dims.now self.now.syms.now part.now).known }
    {
        positive(self.factor(part))
    }

    /// One of the forms, behind the locals so far.
    fn leaf(
        &self,
        alloc: Global,
        forms: &[Combination],
        number: u32,
        locals: &[Local],
    ) -> Result<Combination, LinearFault>
        ensures { GivesForm (leaf self.now.width (slice_get forms.now number) locals.now) locals.now result }
    {
        match forms.get(number as usize) {
            Some(form) => padded(alloc, form, self.width(locals)),
            None => Err(LinearFault::Wide),
        }
    }
}

#[tactic(auto, unfolding(crate::specs::Linear::raised))]
fn raised(f: Combination, divisor: i64) -> Result<Combination, LinearFault>
    ensures { Meets (raised f divisor) (λ h. h) result }
{
    let Combination { coefs, constant } = f;
    let Some(constant) = exact_add(constant, divisor as i128 - 1) else {
        return Err(LinearFault::Wide);
    };
    Ok(Combination { coefs, constant })
}

#[tactic(auto, unfolding(crate::specs::Linear::floored_form))]
fn push_floor(
    alloc: Global,
    f: Combination,
    divisor: i64,
    locals: &mut Vec<Local>,
) -> Result<Combination, LinearFault>
    ensures { GivesForm (Ok (floored_form f divisor locals.old.items)) locals.new.items result }
{
    let Combination { coefs, constant } = f;
    let mut unit: Vec<i128> = vec![in alloc; 0; coefs.len()]?;
    unit.push(1)?;
    locals.push(Local {
        coefs,
        constant,
        divisor,
    })?;
    Ok(Combination {
        coefs: unit,
        constant: 0,
    })
}

#[tactic(auto, unfolding(crate::specs::Linear::rest_form))]
fn push_rest(
    f: Combination,
    divisor: i64,
    locals: &mut Vec<Local>,
) -> Result<Combination, LinearFault>
    ensures { GivesForm (Ok (rest_form f divisor locals.old.items)) locals.new.items result }
{
    let Combination { coefs, constant } = f;
    let mut rest = coefs.clone()?;
    rest.push(minus(divisor))?;
    locals.push(Local {
        coefs,
        constant,
        divisor,
    })?;
    Ok(Combination {
        coefs: rest,
        constant,
    })
}

impl Expr {
    fn found(
        &self,
        alloc: Global,
        leaves: &Leaves<'_>,
        locals: &mut Vec<Local>,
    ) -> Result<Combination, LinearFault>
        ensures { GivesForm (formed leaves.now.width leaves.now.dims.now leaves.now.syms.now self.now locals.old.items) locals.new.items result }
    {
        match self {
            Expr::Dim(number) => leaves.leaf(alloc, leaves.dims, *number, locals),
            Expr::Sym(number) => leaves.leaf(alloc, leaves.syms, *number, locals),
            Expr::Const(value) => number_form(alloc, leaves.width(locals), *value as i128),
            Expr::Neg(part) => scale_form(alloc, -1, &part.get().found(alloc, leaves, locals)?),
            Expr::Add(left, right) => {
                let left = left.get().found(alloc, leaves, locals)?;
                let right = right.get().found(alloc, leaves, locals)?;
                combined(alloc, Join::Sum, &left, &right)
            }
            Expr::Sub(left, right) => {
                let left = left.get().found(alloc, leaves, locals)?;
                let right = right.get().found(alloc, leaves, locals)?;
                combined(alloc, Join::Difference, &left, &right)
            }
            Expr::Mul(left, right) => match (
                leaves.factor(left.get()),
                leaves.factor(right.get()),
            ) {
                (_, Some(factor)) => scale_form(
                    alloc,
                    factor as i128,
                    &left.get().found(alloc, leaves, locals)?,
                ),
                (Some(factor), None) => scale_form(
                    alloc,
                    factor as i128,
                    &right.get().found(alloc, leaves, locals)?,
                ),
                (None, None) => Err(LinearFault::Wide),
            },
            Expr::FloorDiv(left, right) => match leaves.divisor(right.get()) {
                Some(divisor) => push_floor(
                    alloc,
                    left.get().found(alloc, leaves, locals)?,
                    divisor,
                    locals,
                ),
                None => Err(LinearFault::Wide),
            },
            Expr::CeilDiv(left, right) => match leaves.divisor(right.get()) {
                Some(divisor) => {
                    let left = raised(left.get().found(alloc, leaves, locals)?, divisor)?;
                    push_floor(alloc, left, divisor, locals)
                }
                None => Err(LinearFault::Wide),
            },
            Expr::Mod(left, right) => match leaves.divisor(right.get()) {
                Some(divisor) => push_rest(
                    left.get().found(alloc, leaves, locals)?,
                    divisor,
                    locals,
                ),
                None => Err(LinearFault::Wide),
            },
        }
    }

    /// The form of the expression over the forms of its dimensions and symbols, behind the locals so far; its own locals are
    /// put behind them.
    ///
    /// `floordiv` by c of a form f is a local, the floor of f over c; `ceildiv` is the `floordiv` of f + c - 1, and `mod`
    /// is f - c * q, where the local q is the `floordiv`. Each division gives one local, in the order of the text, and a
    /// side that has no dimension and no symbol counts by its value and gives none: the right one of a product where
    /// both are such. A refusal as `Wide` comes exactly where a coefficient or constant that is formed on the way, from
    /// the leaves upward, isn't in 128 bits, or where the expression names a leaf that has no form.
    pub fn formed(
        &self,
        alloc: Global,
        leaves: &Leaves<'_>,
        locals: &mut Vec<Local>,
    ) -> Result<Combination, LinearFault>
        requires pure { is_pure self.now ≡ true }
        requires small { has_small_numbers self.now ≡ true }
        ensures { GivesForm ((over leaves.now.width leaves.now.dims.now leaves.now.syms.now self.now).form locals.old.items) locals.new.items result }
    {
        self.found(alloc, leaves, locals)
    }

    /// The linear form of the expression over so many dimensions and symbols, by `formed` over the forms of the variables.
    #[tactic(auto, unfolding(crate::specs::Linear::linear_of))]
    pub fn linear(&self, alloc: Global, dims: u32, syms: u32) -> Result<Linear, LinearFault>
        requires pure { is_pure self.now ≡ true }
        requires leaves { has_leaves_below dims syms self.now ≡ true }
        requires small { has_small_numbers self.now ≡ true }
        ensures exact { Meets (linear_of dims syms self.now) (λ f. f) result }
        ensures shaped { IfOk result (λ f. IsShaped (dims + syms) f) }
        ensures means { IfOk result (λ f. (ds ss : List ℤ) → length ds ≡ dims → length ss ≡ syms → linear_value f (ds ++ ss) ≡ value ds ss self.now) }
    {
        let width = dims as usize + syms as usize;
        let dim_forms = variable_forms(alloc, width, 0, dims as usize)?;
        let sym_forms = variable_forms(alloc, width, dims as usize, syms as usize)?;
        let leaves = Leaves {
            width,
            dims: dim_forms.as_slice(),
            syms: sym_forms.as_slice(),
        };
        let mut locals = Vec::new(alloc);
        let Combination { coefs, constant } = self.formed(alloc, &leaves, &mut locals)?;
        Ok(Linear {
            coefs,
            constant,
            locals,
        })
    }
}
