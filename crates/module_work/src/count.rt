// Works and turns as numbers, where works stay at 2^127 once they reach it.
ghost use Rattle.std.specs.Prelude.{◌≡◌, ◌+◌, ◌*◌, max, pos, ◌<ℤ◌, ◌-ℤ◌};
ghost use Rattle.affine_expr.specs.Value.{ceil_div};
ghost use Rattle.direct_meaning.specs.Turns.{gap};
ghost use Rattle.direct_meaning.specs.Work.{turn_count};
ghost use Rattle.module_work.specs.Saturated.{saturated};

use num_row::ceil_div;

/// 2^127.
const MOST: u128 = 170_141_183_460_469_231_731_687_303_715_884_105_728;

/// The work of two texts, one after the other.
pub(crate) fn sum(left: u128, right: u128) -> u128
    ensures { result ≡ saturated (left + right) }
{
    left.saturating_add(right).min(MOST)
}

/// The work of so many turns of a body. A turn of an empty body counts one.
pub(crate) fn product(turns: u128, body: u128) -> u128
    ensures { result ≡ saturated (turns * max 1 body) }
{
    turns.saturating_mul(body.max(1)).min(MOST)
}

/// How far a number lies above zero.
pub(crate) fn above_zero(value: i128) -> u128
    ensures { result ≡ gap value }
{
    if value < 0 { 0 } else { value as u128 }
}

/// The work of a start of so many elements.
pub(crate) fn start_work(count: i64) -> u128
    ensures { result ≡ gap count + 3 }
{
    above_zero(count as i128) + 3
}

fn difference(left: i64, right: i64) -> i128
    ensures { result ≡ left -ℤ right }
{
    left as i128 - right as i128
}

/// The steps from one number to another, rounded up.
#[tactic(auto, using(affine_expr::proofs::Divisions::ceil_is))]
fn steps(first: i64, end: i64, step: i64) -> i128
    requires { pos 0 <ℤ step }
    ensures { result ≡ ceil_div (end -ℤ first) step }
{
    ceil_div(difference(end, first), step as i128)
}

/// How many turns a loop between these bounds has.
pub(crate) fn turn_count(first: i64, end: i64, step: i64) -> u128
    requires { pos 0 <ℤ step }
    ensures { result ≡ turn_count first end step }
{
    above_zero(steps(first, end, step))
}
