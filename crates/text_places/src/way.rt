// Ways, copied.
ghost use Rattle.std.specs.Prelude.{◌≡◌, map, IfOk};
ghost use Rattle.nest_domain.specs.Steps.{header_of};

use nest_domain::Step;
use std::alloc::{AllocError, Global};

/// The same step.
fn copied<'a>(step: &Step<'a>) -> Step<'a>
    ensures { header_of result ≡ header_of step.now }
{
    match step {
        Step::Round {
            var,
            lower,
            upper,
            step,
        } => Step::Round {
            var: *var,
            lower: *lower,
            upper: *upper,
            step: *step,
        },
        Step::Given { set, operands } => Step::Given {
            set: *set,
            operands: *operands,
        },
        Step::Except {
            set,
            operands,
            first,
        } => Step::Except {
            set: *set,
            operands: *operands,
            first: *first,
        },
        Step::Behind { what } => Step::Behind { what: *what },
        Step::Past { body } => Step::Past { body: *body },
    }
}

/// The same way.
#[tactic(auto, using(crate::proofs::Lists::copy_begins, crate::proofs::Lists::copy_goes_on, crate::proofs::Lists::copy_ends))]
pub fn copied_way<'a>(alloc: Global, way: &[Step<'a>]) -> Result<Vec<Step<'a>>, AllocError>
    ensures { IfOk result (λ out. map header_of out.items ≡ map header_of way.now) }
{
    let mut out = Vec::new(alloc);
    for step in way {
        let same = copied(step);
        out.push(same)?;
    }
    Ok(out)
}
