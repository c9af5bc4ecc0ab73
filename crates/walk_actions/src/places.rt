// Where accesses go.

ghost use Rattle.std.specs.Prelude.{◌≡◌, ◌<◌, ◌≤◌, ◌^◌, ℕ, length, map, vec_capacity, All, IfSome};
ghost use Rattle.affine_ast.specs.Sizes.{product};
ghost use Rattle.direct_meaning.specs.Action as meaning;
ghost use Rattle.direct_meaning.specs.Static.{within, cell_in, place_of, tag_of, half_place, results_of};
ghost use Rattle.valid_laws.specs.Safe.{SafeAccess, SafePlace, IsFast};
ghost use Rattle.walk_program.specs.Names.{name_at};
ghost use Rattle.walk_program.specs.Numbered.{Operands};
ghost use Rattle.walk_actions.specs.Looked.{env_of};
ghost use Rattle.walk_actions.specs.Meant.{place_meant};
ghost use Rattle.walk_actions.specs.Values.{value_in, use_of, HasValue, HasRoom};

use crate::action::{Home, Place};
use crate::environment::Environment;
use affine_ast::MemrefType;
use affine_expr::Expr;
use walk_program::Subscripts;

/// A subscript that lies from 0 up to, and not including, a size; none for another one.
#[tactic(auto, using(crate::proofs::Cells::withins))]
pub fn within(subscript: i64, size: u32) -> Option<u32>
    ensures value { result ≡ within subscript size }
    ensures below { IfSome result (λ number. number < size) }
{
    if subscript < 0 {
        return None;
    }
    if subscript >= size as i64 {
        return None;
    }
    Some(subscript as u32)
}

impl<'p> Environment<'p> {
    /// The number of an element, row-major; none where a subscript is outside its size.
    #[inline(always)]
    fn cell(
        &self,
        sizes: &[u32],
        results: &[Expr],
        at: &Subscripts,
        room: &mut Vec<i64>,
    ) -> Option<u32>
        requires room { HasRoom self.now (vec_capacity room.old) at.now }
        requires rank { length results.now ≡ length sizes.now }
        requires sizes { All (λ n. 1 ≤ n) sizes.now }
        requires few { product sizes.now < 2 ^ 32 }
        requires safe { All (HasValue (env_of self.now) (use_of self.now at.now)) results.now }
        ensures value { result ≡ cell_in sizes.now (map
            (value_in (env_of self.now) (use_of self.now at.now)) results.now) }
        ensures below { IfSome result (λ cell. cell < product sizes.now) }
        ensures capacity { vec_capacity room.new ≡ vec_capacity room.old }
    {
        let mut cell = 0u32;
        for place in 0..sizes.len() {
            let subscript = self.value(&results[place], at, room);
            let number = within(subscript, sizes[place])?;
            cell = cell * sizes[place] + number;
        }
        Some(cell)
    }

    /// The number of an element of a memref, row-major; none where a subscript is outside its size.
    #[tactic(auto, using(crate::proofs::Elements::cells), unfolding(direct_meaning::specs::Static::results_of))]
    fn element(&self, at: &Subscripts, ty: &MemrefType, room: &mut Vec<i64>) -> Option<u32>
        requires operands { Operands (length self.now.names) (vec_capacity room.old) at.now.operands }
        requires safe { SafeAccess (env_of self.now) (use_of self.now at.now) }
        requires rank { length at.now.map.results ≡ length ty.now.sizes }
        requires sizes { All (λ n. 1 ≤ n) ty.now.sizes }
        requires few { product ty.now.sizes < 2 ^ 32 }
        ensures value { result ≡ cell_in ty.now.sizes (results_of (env_of self.now) (use_of self.now at.now)) }
        ensures below { IfSome result (λ cell. cell < product ty.now.sizes) }
        ensures capacity { vec_capacity room.new ≡ vec_capacity room.old }
    {
        self.cell(ty.sizes.as_slice(), at.map.results.as_slice(), at, room)
    }

    /// An element of a fast memref: its first subscript is the half, the others give the cell in it.
    #[tactic(auto, using(crate::proofs::Values::room_is))]
    fn half_place(
        &self,
        number: u32,
        at: &Subscripts,
        ty: &MemrefType,
        room: &mut Vec<i64>,
    ) -> Place
        requires operands { Operands (length self.now.names) (vec_capacity room.old) at.now.operands }
        requires safe { SafeAccess (env_of self.now) (use_of self.now at.now) }
        requires rank { length at.now.map.results ≡ length ty.now.sizes }
        requires sizes { All (λ n. 1 ≤ n) ty.now.sizes }
        requires fast { IsFast number ty.now }
        ensures value { place_meant result ≡ half_place number ty.now.sizes
            (results_of (env_of self.now) (use_of self.now at.now)) }
        ensures capacity { vec_capacity room.new ≡ vec_capacity room.old }
    {
        let sizes = ty.sizes.as_slice();
        let results = at.map.results.as_slice();
        let subscript = self.value(&results[0], at, room);
        let Some(half) = within(subscript, sizes[0]) else {
            return Place::Outside;
        };
        match self.cell(&sizes[1..], &results[1..], at, room) {
            Some(cell) => Place::Fast { number, half, cell },
            None => Place::Outside,
        }
    }

    /// Where an access of a memref goes.
    #[tactic(auto, using(crate::proofs::Elements::places))]
    pub fn place(&self, memref: u32, at: &Subscripts, ty: &MemrefType, room: &mut Vec<i64>) -> Place
        requires memref { memref < length self.now.names }
        requires operands { Operands (length self.now.names) (vec_capacity room.old) at.now.operands }
        requires safe { SafePlace (env_of self.now) (name_at self.now.names memref) (use_of self.now at.now) ty.now }
        ensures value { place_meant result ≡ place_of (env_of self.now) (name_at self.now.names memref)
            (use_of self.now at.now) ty.now }
        ensures capacity { vec_capacity room.new ≡ vec_capacity room.old }
    {
        match self.home(memref) {
            Some(Home::Slow { number: _, first }) => match self.element(at, ty, room) {
                Some(cell) => Place::Slow(first + cell),
                None => Place::Outside,
            },
            Some(Home::Fast(number)) => self.half_place(number, at, ty, room),
            Some(Home::Tags(_)) => Place::Outside,
            None => Place::Outside,
        }
    }

    /// The number of a tag; none where a subscript is outside its size or the name stands for no tags.
    #[tactic(auto, using(crate::proofs::Elements::tags))]
    pub fn tag(
        &self,
        memref: u32,
        at: &Subscripts,
        ty: &MemrefType,
        room: &mut Vec<i64>,
    ) -> Option<u32>
        requires memref { memref < length self.now.names }
        requires operands { Operands (length self.now.names) (vec_capacity room.old) at.now.operands }
        requires safe { SafePlace (env_of self.now) (name_at self.now.names memref) (use_of self.now at.now) ty.now }
        ensures value { result ≡ tag_of (env_of self.now) (name_at self.now.names memref)
            (use_of self.now at.now) ty.now }
        ensures capacity { vec_capacity room.new ≡ vec_capacity room.old }
    {
        match self.home(memref) {
            Some(Home::Tags(first)) => match self.element(at, ty, room) {
                Some(cell) => Some(first + cell),
                None => None,
            },
            Some(
                Home::Slow {
                    number: _,
                    first: _,
                },
            ) => None,
            Some(Home::Fast(_)) => None,
            None => None,
        }
    }
}
