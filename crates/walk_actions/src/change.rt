// What plain statements make known.

ghost use Rattle.std.specs.Prelude.{◌≡◌, ◌<◌, ◌≤◌, ℕ, length, vec_capacity};
ghost use Rattle.std.specs.Prelude.{List, Option, None, Some};
ghost use Rattle.affine_ast.specs.declared.name.Name.{Name as TheName};
ghost use Rattle.direct_meaning.specs.Action.{Home as TheHome};
ghost use Rattle.direct_meaning.specs.Static.{Env};
ghost use Rattle.walk_actions.specs.declared.change.Change.TheVariants.{Known};
ghost use Rattle.direct_meaning.specs.Actions.{after_alloc, after_constant, after_plain};
ghost use Rattle.valid_laws.specs.Safe.{SafePlain, IsMemref, new_home};
ghost use Rattle.walk_program.specs.Names.{name_at};
ghost use Rattle.walk_program.specs.Numbered.{PlainFits};
ghost use Rattle.walk_program.specs.Reading.{plain_of};
ghost use Rattle.walk_actions.specs.Looked.{env_of};
ghost use Rattle.walk_actions.specs.Changed.{changed, ChangesIn};

use crate::environment::Environment;
use crate::statements::elements;
use affine_ast::{MemrefType, Scalar};
use walk_program::Plain;

/// What a plain statement changes of what stands round the next one.
#[derive(Clone, Copy)]
pub enum Change {
    Nothing,
    /// A name has this number from here on, or none.
    Known { name: u32, number: Option<i64> },
    /// A name stands for the next allocation in space 1.
    Fast { name: u32 },
    /// A name stands for the next tags, so many.
    Tags { name: u32, count: u32 },
}

/// A name that holds data.
fn data(name: u32) -> Change
    ensures { result ≡ Known name None }
{
    Change::Known { name, number: None }
}

/// The change of an allocation.
#[tactic(auto, using(crate::proofs::Elements::few_memref))]
fn allocated(name: u32, ty: &MemrefType) -> Change
    requires { (home : Option TheHome) × IsMemref home ty.now }
    ensures value { (names : List TheName) (e : Env) → changed names result e
        ≡ after_alloc (name_at names name) ty.now e }
    ensures inside { (count : ℕ) → name < count → ChangesIn count result }
{
    if ty.space == 1 {
        Change::Fast { name }
    } else {
        Change::Tags {
            name,
            count: elements(ty.sizes.as_slice()),
        }
    }
}

/// The change of a constant: of index type it is known.
fn constant(name: u32, value: i64, ty: Scalar) -> Change
    ensures value { (names : List TheName) (e : Env) → changed names result e
        ≡ after_constant (name_at names name) value ty e }
    ensures inside { (count : ℕ) → name < count → ChangesIn count result }
{
    match ty {
        Scalar::Int(_) => data(name),
        Scalar::Index => Change::Known {
            name,
            number: Some(value),
        },
    }
}

impl<'p> Environment<'p> {
    /// What a statement changes of what stands round the next one.
    #[tactic(auto, unfolding(walk_program::specs::Reading::plain_of, direct_meaning::specs::Actions::after_plain))]
    pub fn change(&self, plain: &Plain, room: &mut Vec<i64>) -> Change
        requires names { PlainFits (length self.now.names) (vec_capacity room.old) plain.now }
        requires safe { SafePlain (env_of self.now) (plain_of self.now.names plain.now) }
        ensures value { changed self.now.names result (env_of self.now)
            ≡ after_plain (plain_of self.now.names plain.now) (env_of self.now) }
        ensures inside { ChangesIn (length self.now.names) result }
        ensures room { vec_capacity room.new ≡ vec_capacity room.old }
    {
        match plain {
            Plain::Value { result, pick, at } => Change::Known {
                name: *result,
                number: Some(self.picked(*pick, at, room)),
            },
            Plain::Load { result, .. } => data(*result),
            Plain::RawLoad { result, .. } => data(*result),
            Plain::Constant { result, value, ty } => constant(*result, *value, *ty),
            Plain::Binary { result, .. } => data(*result),
            Plain::Cast { result, .. } => data(*result),
            Plain::Alloc { result, ty } => allocated(*result, ty),
            Plain::Store { .. } => Change::Nothing,
            Plain::RawStore { .. } => Change::Nothing,
            Plain::Dealloc { .. } => Change::Nothing,
            Plain::Start { .. } => Change::Nothing,
            Plain::Wait { .. } => Change::Nothing,
            Plain::Return => Change::Nothing,
        }
    }
}
