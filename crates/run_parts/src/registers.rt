// The values of names, and what actions come to over them.
ghost use Rattle.std.specs.Prelude.{◌≡◌, ◌<◌, ◌≤◌, pos, map, length, All, IfOk};
ghost use Rattle.affine_ast.specs.Sizes.{scalar_bits};
ghost use Rattle.int_ops.specs.Cast.{CanCast, cast_value};
ghost use Rattle.int_ops.specs.Operation.{operation};
ghost use Rattle.int_ops.specs.Wrapped.{InRange};
ghost use Rattle.direct_meaning.specs.Action as meaning;
ghost use Rattle.direct_meaning.specs.Direct.{read, raw_place};
ghost use Rattle.walk_program.specs.Names.{name_at, AreDistinct};
ghost use Rattle.walk_actions.specs.Looked.{homes_meant};
ghost use Rattle.walk_actions.specs.Meant.{meant, operand_meant, place_meant, NamesIn, OperandIn};
ghost use Rattle.run_parts.specs.Effects.{effect_meant, EffectIn};
ghost use Rattle.affine_ast.specs.Names.{put};
ghost use Rattle.run_parts.specs.Registered.{values_of, number_of};
ghost use Rattle.run_parts.specs.Settled.{settled, settled_result, CanSettle, RawFits};

use crate::effect::Effect;
use crate::elements::element_place;
use crate::operations::{apply, bits};
use affine_ast::{Name, Scalar};
use bus_model::FaultKind;
use int_ops::{CastKind, Op, cast};
use smallvec::SmallVec;
use std::alloc::{AllocError, Global};
use std::marker::Model;
use walk_actions::{Action, Home, Operand, Place};

/// What the names of data hold, by the number of the name. The subscripts of an access by values stand in a list with seven places,
/// filled anew for each. A clause sees the names and what each holds.
#[derive(Drop)]
pub struct Registers<'p> {
    names: &'p [Name],
    values: Vec<i64>,
    subscripts: SmallVec<i64, 7>,
}

impl<'p> Model for Registers<'p> {
    ghost use Rattle.run_parts.specs.Registered.{Registered, HasRegisters};

    ghost Value = { Registered };

    ghost view = { λ r. record { names = r.names.now; numbers = r.values.items } };

    ghost invariant = { λ r. HasRegisters r.names.now r.values.items r.subscripts.capacity };
}

/// The value of an operand.
fn value_of(values: &[i64], operand: Operand) -> i64
    requires { OperandIn (length values.now) operand }
    ensures { result ≡ number_of values.now operand }
{
    match operand {
        Operand::Number(number) => number,
        Operand::Register(name) => values[name as usize],
    }
}

impl<'p> Registers<'p> {
    /// No name holds data yet: each register is 0.
    pub fn new(alloc: Global, names: &'p [Name]) -> Result<Registers<'p>, AllocError>
        requires { AreDistinct names.now }
        ensures names { IfOk result (λ registers. registers.names ≡ names.entry.now) }
        ensures values { IfOk result (λ registers. values_of registers ≡ (λ n. pos 0)) }
    {
        Ok(Registers {
            names,
            values: Vec::from_elem(alloc, 0, names.len())?,
            subscripts: SmallVec::new(alloc),
        })
    }

    /// The value of an operand.
    pub fn read(&self, operand: Operand) -> i64
        requires { OperandIn (length self.now.names) operand }
        ensures { result ≡ read (values_of self.now) (operand_meant self.now.names operand) }
    {
        value_of(self.values.as_slice(), operand)
    }

    /// Gives a name a new value.
    pub fn keep(&mut self, into: u32, value: i64)
        requires { into < length self.old.names }
        ensures names { self.new.names ≡ self.old.names }
        ensures values { values_of self.new ≡ put (values_of self.old) (name_at self.old.names into) value }
    {
        self.values[into as usize] = value;
    }

    /// Where an access by values goes.
    fn place(&mut self, home: Option<Home>, sizes: &[u32], operands: &[Operand]) -> Place
        requires inside { All (OperandIn (length self.old.names)) operands.now }
        requires fits { RawFits (homes_meant home) sizes.now (map (operand_meant self.old.names) operands.now) }
        ensures place { place_meant result ≡ raw_place (values_of self.old) (homes_meant home) sizes.now (map (operand_meant self.old.names) operands.now) }
        ensures same { self.new ≡ self.old }
    {
        self.subscripts.clear();
        for operand in operands {
            let value = value_of(self.values.as_slice(), *operand);
            self.subscripts.push_reserved(value);
        }
        element_place(home, sizes, self.subscripts.as_slice())
    }

    /// The result of an operation on two operands, for a name.
    fn operate<'a>(
        &self,
        into: u32,
        op: Op,
        ty: Scalar,
        left: Operand,
        right: Operand,
    ) -> Effect<'a>
        requires into { into < length self.now.names }
        requires first { OperandIn (length self.now.names) left }
        requires second { OperandIn (length self.now.names) right }
        requires left { InRange (scalar_bits ty) (read (values_of self.now) (operand_meant self.now.names left)) }
        requires right { InRange (scalar_bits ty) (read (values_of self.now) (operand_meant self.now.names right)) }
        ensures effect { effect_meant self.now.names result ≡ settled_result (name_at self.now.names into) (operation op (scalar_bits ty) (read (values_of self.now) (operand_meant self.now.names left)) (read (values_of self.now) (operand_meant self.now.names right))) }
        ensures inside { EffectIn (length self.now.names) result }
    {
        let left = self.read(left);
        let right = self.read(right);
        match apply(op, ty, left, right) {
            Some(value) => Effect::Sets { into, value },
            None => Effect::Faults(FaultKind::Divide),
        }
    }

    /// What an action comes to once its operands are read. The registers stay as they are.
    #[tactic(auto, unfolding(walk_actions::specs::Meant::meant))]
    pub fn settle<'a>(&mut self, action: Action<'a>, subscripts: &[Operand]) -> Effect<'a>
        requires names { NamesIn (length self.old.names) subscripts.now action }
        requires can { CanSettle (meant self.old.names subscripts.now action) (values_of self.old) }
        ensures effect { effect_meant self.old.names result ≡ settled (values_of self.old) (meant self.old.names subscripts.now action.entry) }
        ensures inside { EffectIn (length self.old.names) result }
        ensures same { self.new ≡ self.old }
    {
        match action {
            Action::Known | Action::Returns | Action::AllocatesTags { .. } => Effect::Nothing,
            Action::Sets { into, value } => Effect::Sets { into, value },
            Action::Loads { into, place } => Effect::Loads { into, place },
            Action::Stores { value, place } => {
                let value = self.read(value);
                Effect::Stores { value, place }
            }
            Action::RawLoads { into, home, sizes } => {
                let place = self.place(home, sizes, subscripts);
                Effect::Loads { into, place }
            }
            Action::RawStores { value, home, sizes } => {
                let value = self.read(value);
                let place = self.place(home, sizes, subscripts);
                Effect::Stores { value, place }
            }
            Action::Operates {
                into,
                op,
                ty,
                left,
                right,
            } => self.operate(into, op, ty, left, right),
            Action::Converts {
                into,
                kind,
                from,
                to,
                value,
            } => {
                let value = cast(kind, bits(from), bits(to), self.read(value));
                Effect::Sets { into, value }
            }
            Action::Allocates {
                number,
                element,
                sizes,
            } => Effect::Allocates {
                number,
                element,
                sizes,
            },
            Action::Releases {
                number,
                element,
                sizes,
            } => Effect::Releases {
                number,
                element,
                sizes,
            },
            Action::ReleasesTags { first, count } => Effect::ReleasesTags { first, count },
            Action::Starts(transfer) => Effect::Starts(transfer),
            Action::Waits { tag, count } => Effect::Waits { tag, count },
            Action::Faults(kind) => Effect::Faults(kind),
        }
    }
}
