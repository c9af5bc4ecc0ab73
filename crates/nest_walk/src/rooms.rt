// How many frames a walk over statements needs.

ghost use Rattle.std.specs.Prelude.{◌≡◌, ◌+◌, ℕ, max, IfSome};
ghost use Rattle.walk_program.specs.Tree.{Tree, put_form};
ghost use Rattle.nest_walk.specs.Ready.{room, room_of};

use walk_program::{Form, Statement};

/// The frames for a plain statement, before others.
fn plain_room(rest: usize) -> Option<usize>
    ensures { IfSome result (λ n. n ≡ 1 + rest) }
{
    rest.checked_add(1)
}

/// The frames for a loop whose body needs so many, before others.
fn loop_room(body: usize, rest: usize) -> Option<usize>
    ensures { IfSome result (λ n. n ≡ max (2 + body) rest) }
{
    Some(body.checked_add(2)?.max(rest))
}

/// The frames for a condition whose regions need so many, before others.
fn condition_room(first: usize, other: usize, rest: usize) -> Option<usize>
    ensures { IfSome result (λ n. n ≡ max (1 + max first other) rest) }
{
    Some(first.max(other).checked_add(1)?.max(rest))
}

/// The frames for a statement before others that need so many. Nothing where they leave the machine's numbers.
#[cycle(rooms)]
fn room_with(form: &Form, rest: usize) -> Option<usize>
    ensures { IfSome result (λ n. (line : ℕ) (t : Tree) → rest ≡ room_of t → n ≡ room_of (put_form form.now line t)) }
{
    match form {
        Form::For { body, .. } => loop_room(room_needed(body.as_slice())?, rest),
        Form::If { first, other, .. } => {
            let first = room_needed(first.as_slice())?;
            match other {
                None => condition_room(first, 0, rest),
                Some(other) => condition_room(first, room_needed(other.as_slice())?, rest),
            }
        }
        Form::Plain(_) => plain_room(rest),
    }
}

/// The frames for statements. Nothing where they leave the machine's numbers.
#[cycle(rooms)]
pub fn room_needed(statements: &[Statement]) -> Option<usize>
    ensures { IfSome result (λ n. n ≡ room statements.now) }
{
    let mut need = 0usize;
    let mut i = statements.len();
    while i > 0 {
        i -= 1;
        need = room_with(&statements[i].form, need)?;
    }
    Some(need)
}
