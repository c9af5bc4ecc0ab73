// Elements that values subscript.
ghost use Rattle.std.specs.Prelude.{◌≡◌, ◌<◌, ◌≤◌, ◌^◌, length, All, IfSome};
ghost use Rattle.affine_ast.specs.Sizes.{product};
ghost use Rattle.direct_meaning.specs.Static.{cell_in, half_place, place_at};
ghost use Rattle.walk_actions.specs.Looked.{homes_meant};
ghost use Rattle.walk_actions.specs.Meant.{place_meant};
ghost use Rattle.run_parts.specs.Settled.{HomeFits};

use walk_actions::{Home, Place, within};

/// The number of an element, row-major; none where a subscript is outside its size.
fn element(sizes: &[u32], subscripts: &[i64]) -> Option<u32>
    requires rank { length subscripts.now ≡ length sizes.now }
    requires sizes { All (λ n. 1 ≤ n) sizes.now }
    requires few { product sizes.now < 2 ^ 32 }
    ensures value { result ≡ cell_in sizes.now subscripts.now }
    ensures below { IfSome result (λ cell. cell < product sizes.now) }
{
    let mut cell = 0u32;
    for place in 0..sizes.len() {
        let number = within(subscripts[place], sizes[place])?;
        cell = cell * sizes[place] + number;
    }
    Some(cell)
}

/// An element of a fast memref: its first subscript is the half, the others give the cell in it.
fn fast_element(number: u32, sizes: &[u32], subscripts: &[i64]) -> Place
    requires rank { length subscripts.now ≡ length sizes.now }
    requires sizes { All (λ n. 1 ≤ n) sizes.now }
    requires has_halves { 1 ≤ length sizes.now }
    requires few { product sizes.now < 2 ^ 32 }
    ensures value { place_meant result ≡ half_place number sizes.now subscripts.now }
{
    let Some(half) = within(subscripts[0], sizes[0]) else {
        return Place::Outside;
    };
    match element(&sizes[1..], &subscripts[1..]) {
        Some(cell) => Place::Fast { number, half, cell },
        None => Place::Outside,
    }
}

/// Where an access by values goes.
pub(crate) fn element_place(home: Option<Home>, sizes: &[u32], subscripts: &[i64]) -> Place
    requires rank { length subscripts.now ≡ length sizes.now }
    requires sizes { All (λ n. 1 ≤ n) sizes.now }
    requires home { HomeFits (homes_meant home) sizes.now }
    ensures value { place_meant result ≡ place_at (homes_meant home) sizes.now subscripts.now }
{
    match home {
        Some(Home::Slow { number: _, first }) => match element(sizes, subscripts) {
            Some(cell) => Place::Slow(first + cell),
            None => Place::Outside,
        },
        Some(Home::Fast(number)) => fast_element(number, sizes, subscripts),
        Some(Home::Tags(_)) => Place::Outside,
        None => Place::Outside,
    }
}
