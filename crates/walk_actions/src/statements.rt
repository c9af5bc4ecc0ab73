// The actions of plain statements.

ghost use Rattle.std.specs.Prelude.{◌≡◌, ◌<◌, ◌≤◌, ◌^◌, ℕ, List, length, map, vec_capacity, All, Some};
ghost use Rattle.affine_ast.specs.declared.name.Name.{Name as TheName};
ghost use Rattle.walk_actions.specs.declared.action.Operand.{Operand as TheOperand};
ghost use Rattle.affine_ast.specs.Sizes.{product};
ghost use Rattle.direct_meaning.specs.Action.{RawLoads, RawStores};
ghost use Rattle.direct_meaning.specs.Static.{operand, tag_of, number};
ghost use Rattle.direct_meaning.specs.Turns.{gap};
ghost use Rattle.direct_meaning.specs.Actions.{constant_of, alloc_of, dealloc_of, wait_of, action_of};
ghost use Rattle.valid_laws.specs.Safe.{SafePlace, SafePlain, IsMemref, IsCount, new_home};
ghost use Rattle.walk_program.specs.Names.{name_at};
ghost use Rattle.walk_program.specs.Numbered.{Operands, PlainFits};
ghost use Rattle.walk_program.specs.Reading.{names_at, plain_of};
ghost use Rattle.walk_actions.specs.Looked.{env_of, known_of, home_of};
ghost use Rattle.walk_actions.specs.Meant.{meant, operand_meant, OperandIn, NamesIn, NamesNone, MeansAlone};
ghost use Rattle.walk_actions.specs.Values.{use_of};

use crate::action::{Action, Home, Operand};
use crate::environment::Environment;
use affine_ast::{MemrefType, Scalar};
use bus_model::FaultKind;
use walk_program::{Plain, Subscripts};

/// The elements of a memref of these sizes.
pub(crate) fn elements(sizes: &[u32]) -> u32
    requires sizes { All (λ n. 1 ≤ n) sizes.now }
    requires few { product sizes.now < 2 ^ 32 }
    ensures { result ≡ product sizes.now }
{
    let mut count = 1u32;
    for size in sizes {
        count *= *size;
    }
    count
}

/// A constant: of index type its value is known where it is used.
#[tactic(auto, unfolding(crate::specs::Meant::meant))]
fn constant<'q>(into: u32, value: i64, ty: Scalar) -> Action<'q>
    ensures value { (names : List TheName) (subscripts : List TheOperand)
        → meant names subscripts result ≡ constant_of (name_at names into) value ty }
    ensures inside { (count : ℕ) (subscripts : List TheOperand) → into < count → NamesIn count subscripts result }
{
    match ty {
        Scalar::Int(_) => Action::Sets { into, value },
        Scalar::Index => Action::Known,
    }
}

impl<'p> Environment<'p> {
    /// What uses of names are, in order, in a list that has room for them.
    fn operands(&self, names: &[u32], uses: &mut Vec<Operand>)
        requires names { Operands (length self.now.names) (vec_capacity uses.old) names.now }
        ensures values { map (operand_meant self.now.names) uses.new.items
            ≡ map (operand (env_of self.now)) (names_at self.now.names names.now) }
        ensures inside { All (OperandIn (length self.now.names)) uses.new.items }
        ensures capacity { vec_capacity uses.new ≡ vec_capacity uses.old }
    {
        uses.clear();
        for name in names {
            uses.push_reserved(self.operand(*name));
        }
    }

    /// An allocation, which has the next number.
    #[tactic(auto, unfolding(crate::specs::Meant::meant), using(crate::proofs::Elements::few_memref))]
    fn alloc<'q>(&self, ty: &'q MemrefType) -> Action<'q>
        requires { IsMemref (Some (new_home (env_of self.now) ty.now)) ty.now }
        ensures value { MeansAlone result (alloc_of (env_of self.now) ty.now) }
        ensures inside { NamesNone result }
    {
        if ty.space == 1 {
            Action::Allocates {
                number: self.fasts(),
                element: ty.element,
                sizes: ty.sizes.as_slice(),
            }
        } else {
            Action::AllocatesTags {
                first: self.tags(),
                count: elements(ty.sizes.as_slice()),
            }
        }
    }

    /// A dealloc of what a name stands for.
    #[tactic(auto, unfolding(crate::specs::Meant::meant), using(crate::proofs::Elements::few_memref))]
    fn dealloc<'q>(&self, memref: u32, ty: &'q MemrefType) -> Action<'q>
        requires memref { memref < length self.now.names }
        requires safe { IsMemref (home_of self.now memref) ty.now }
        ensures value { MeansAlone result (dealloc_of (home_of self.now memref) ty.now) }
        ensures inside { NamesNone result }
    {
        match self.home(memref) {
            Some(Home::Fast(number)) => Action::Releases {
                number,
                element: ty.element,
                sizes: ty.sizes.as_slice(),
            },
            Some(Home::Tags(first)) => Action::ReleasesTags {
                first,
                count: elements(ty.sizes.as_slice()),
            },
            Some(
                Home::Slow {
                    number: _,
                    first: _,
                },
            ) => Action::Known,
            None => Action::Known,
        }
    }

    /// The count of a transfer.
    pub(crate) fn count(&self, name: u32) -> u64
        requires name { name < length self.now.names }
        requires safe { IsCount (known_of self.now name) }
        ensures value { result ≡ gap (number (known_of self.now name)) }
        ensures least { 1 ≤ result }
        ensures fits { result < 2 ^ 63 }
    {
        self.number(name) as u64
    }

    /// A wait for a tag.
    #[tactic(auto, unfolding(crate::specs::Meant::meant))]
    fn wait<'q>(
        &self,
        tag: u32,
        at: &Subscripts,
        count: u32,
        ty: &MemrefType,
        room: &mut Vec<i64>,
    ) -> Action<'q>
        requires tag { tag < length self.now.names }
        requires operands { Operands (length self.now.names) (vec_capacity room.old) at.now.operands }
        requires safe { SafePlace (env_of self.now) (name_at self.now.names tag) (use_of self.now at.now) ty.now }
        requires count { count < length self.now.names }
        requires counts { IsCount (known_of self.now count) }
        ensures value { MeansAlone result (wait_of (tag_of (env_of self.now) (name_at self.now.names tag)
            (use_of self.now at.now) ty.now) (gap (number (known_of self.now count)))) }
        ensures inside { NamesNone result }
        ensures capacity { vec_capacity room.new ≡ vec_capacity room.old }
    {
        match self.tag(tag, at, ty, room) {
            Some(tag) => Action::Waits {
                tag,
                count: self.count(count),
            },
            None => Action::Faults(FaultKind::Bounds),
        }
    }

    /// A load whose subscripts are values.
    #[tactic(auto, unfolding(crate::specs::Meant::meant))]
    fn raw_load<'q>(
        &self,
        into: u32,
        memref: u32,
        at: &[u32],
        ty: &'q MemrefType,
        uses: &mut Vec<Operand>,
    ) -> Action<'q>
        requires into { into < length self.now.names }
        requires memref { memref < length self.now.names }
        requires names { Operands (length self.now.names) (vec_capacity uses.old) at.now }
        ensures value { meant self.now.names uses.new.items result
            ≡ RawLoads (name_at self.now.names into) (home_of self.now memref) ty.entry.now.sizes
            (map (operand (env_of self.now)) (names_at self.now.names at.now)) }
        ensures inside { NamesIn (length self.now.names) uses.new.items result }
        ensures stays { vec_capacity uses.new ≡ vec_capacity uses.old }
    {
        self.operands(at, uses);
        Action::RawLoads {
            into,
            home: self.home(memref),
            sizes: ty.sizes.as_slice(),
        }
    }

    /// A store whose subscripts are values.
    #[tactic(auto, unfolding(crate::specs::Meant::meant))]
    fn raw_store<'q>(
        &self,
        value: u32,
        memref: u32,
        at: &[u32],
        ty: &'q MemrefType,
        uses: &mut Vec<Operand>,
    ) -> Action<'q>
        requires value { value < length self.now.names }
        requires memref { memref < length self.now.names }
        requires names { Operands (length self.now.names) (vec_capacity uses.old) at.now }
        ensures value { meant self.now.names uses.new.items result
            ≡ RawStores (operand (env_of self.now) (name_at self.now.names value))
            (home_of self.now memref) ty.entry.now.sizes
            (map (operand (env_of self.now)) (names_at self.now.names at.now)) }
        ensures inside { NamesIn (length self.now.names) uses.new.items result }
        ensures stays { vec_capacity uses.new ≡ vec_capacity uses.old }
    {
        self.operands(at, uses);
        Action::RawStores {
            value: self.operand(value),
            home: self.home(memref),
            sizes: ty.sizes.as_slice(),
        }
    }

    /// The action of a statement, where this is known. The subscripts of a raw access stand in `uses` then.
    #[tactic(auto, unfolding(crate::specs::Meant::meant, walk_program::specs::Reading::plain_of, direct_meaning::specs::Actions::action_of))]
    pub fn action<'q>(
        &self,
        plain: &'q Plain,
        room: &mut Vec<i64>,
        uses: &mut Vec<Operand>,
    ) -> Action<'q>
        requires names { PlainFits (length self.now.names) (vec_capacity room.old) plain.now }
        requires uses { vec_capacity room.old ≤ vec_capacity uses.old }
        requires safe { SafePlain (env_of self.now) (plain_of self.now.names plain.now) }
        ensures value { meant self.now.names uses.new.items result
            ≡ action_of (plain_of self.now.names plain.entry.now) (env_of self.now) }
        ensures inside { NamesIn (length self.now.names) uses.new.items result }
        ensures room { vec_capacity room.new ≡ vec_capacity room.old }
        ensures stays { vec_capacity uses.new ≡ vec_capacity uses.old }
    {
        match plain {
            Plain::Value { .. } => Action::Known,
            Plain::Load {
                result,
                memref,
                at,
                ty,
            } => Action::Loads {
                into: *result,
                place: self.place(*memref, at, ty, room),
            },
            Plain::Store {
                value,
                memref,
                at,
                ty,
            } => Action::Stores {
                value: self.operand(*value),
                place: self.place(*memref, at, ty, room),
            },
            Plain::RawLoad {
                result,
                memref,
                at,
                ty,
            } => self.raw_load(*result, *memref, at.as_slice(), ty, uses),
            Plain::RawStore {
                value,
                memref,
                at,
                ty,
            } => self.raw_store(*value, *memref, at.as_slice(), ty, uses),
            Plain::Constant { result, value, ty } => constant(*result, *value, *ty),
            Plain::Binary {
                result,
                op,
                left,
                right,
                ty,
            } => Action::Operates {
                into: *result,
                op: *op,
                ty: *ty,
                left: self.operand(*left),
                right: self.operand(*right),
            },
            Plain::Cast {
                result,
                kind,
                value,
                from,
                to,
            } => Action::Converts {
                into: *result,
                kind: *kind,
                from: *from,
                to: *to,
                value: self.operand(*value),
            },
            Plain::Alloc { result: _, ty } => self.alloc(ty),
            Plain::Dealloc { memref, ty } => self.dealloc(*memref, ty),
            Plain::Start {
                from,
                from_at,
                to,
                to_at,
                tag,
                tag_at,
                count,
                stride,
                types,
            } => self.start(
                (*from, from_at),
                (*to, to_at),
                (*tag, tag_at),
                *count,
                *stride,
                types,
                room,
            ),
            Plain::Wait {
                tag,
                tag_at,
                count,
                ty,
            } => self.wait(*tag, tag_at, *count, ty, room),
            Plain::Return => Action::Returns,
        }
    }
}
