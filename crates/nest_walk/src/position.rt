// Where a walk stands, and the moves from there.

ghost use Rattle.std.specs.Prelude.{◌≡◌, ◌+◌, ◌<◌, ◌≤◌, ◌^◌, ℕ, List, [], ◌∷◌, ◌++◌, length, vec_capacity, Option};
ghost use Rattle.std.specs.Prelude.{None, IfNone, option_to_list, IfOk};
ghost use Rattle.direct_meaning.specs.Static.{lower_of, upper_of, holds_at};
ghost use Rattle.direct_meaning.specs.Actions.{action_of, after_plain};
ghost use Rattle.valid_laws.specs.Safe.{SafeBound, SafeCondition, SafePlain};
ghost use Rattle.walk_program.specs.Names.{name_at};
ghost use Rattle.walk_program.specs.Numbered.{Operands, LimitFits, PlainFits};
ghost use Rattle.walk_program.specs.Reading.{names_at, bound_of, plain_of};
ghost use Rattle.walk_actions.specs.Changed.{changed, ChangesIn};
ghost use Rattle.walk_actions.specs.Meant.{meant, NamesIn};
ghost use Rattle.walk_actions.specs.Looked.{env_of, known_of, home_of, with_known, with_home, homes_meant};
ghost use Rattle.nest_walk.specs.Ready.{Under};

use crate::frame::Frame;
use affine_ast::Name;
use affine_expr::Set;
use std::alloc::{AllocError, Global};
use std::marker::Model;
use walk_actions::{Action, Change, Environment, Home, Operand};
use walk_program::{Counts, Limit, Plain, Statement};

/// The statements in hand, what stands round them, what is open below, and room for the operands of one map and the
/// subscripts of one raw access.
#[derive(Drop)]
pub struct Position<'p> {
    frames: Vec<Frame<'p>>,
    rest: &'p [Statement],
    environment: Environment<'p>,
    numbers: Vec<i64>,
    subscripts: Vec<Operand>,
}

impl<'p> Model for Position<'p> {
    ghost use Rattle.std.specs.Prelude.{reverse, vec_capacity};
    ghost use Rattle.nest_walk.specs.Standing.{Standing};
    ghost use Rattle.std.specs.Coded.{codes};
    ghost use Rattle.walk_program.specs.contracts.statement.Form as form;

    ghost Value = { Standing };

    ghost coded = { Prim.hlevel (codes, form.the_row.coded) };

    ghost view = { λ p. record {
      frames = reverse p.frames.items;
      rest = p.rest.now;
      bindings = p.environment;
      subscripts = p.subscripts.items;
      width = vec_capacity p.numbers;
      uses = vec_capacity p.subscripts;
      capacity = vec_capacity p.frames;
    } };
}

impl<'p> Position<'p> {
    /// A position before statements, with room for so many operands of a map and subscripts, and for so many frames.
    pub fn new(
        alloc: Global,
        statements: &'p [Statement],
        environment: Environment<'p>,
        width: usize,
        room: usize,
    ) -> Result<Position<'p>, AllocError>
        ensures { IfOk result (λ p. p ≡ record {
          frames = [];
          rest = statements.entry.now;
          bindings = environment.entry;
          subscripts = [];
          width = width;
          uses = width;
          capacity = room;
        }) }
    {
        Ok(Position {
            frames: Vec::with_capacity(alloc, room)?,
            rest: statements,
            environment,
            numbers: Vec::with_capacity(alloc, width)?,
            subscripts: Vec::with_capacity(alloc, width)?,
        })
    }

    /// The names of the module, by number.
    pub fn names(&self) -> &'p [Name]
        ensures { result.now ≡ self.now.bindings.names }
    {
        self.environment.names()
    }

    /// The subscripts of the last action where it is a raw access.
    pub fn subscripts(&self) -> &[Operand]
        ensures { result.now ≡ self.now.subscripts }
    {
        &self.subscripts
    }

    /// The statements in hand.
    pub fn rest(&self) -> &'p [Statement]
        ensures { result.now ≡ self.now.rest }
    {
        self.rest
    }

    /// What is allocated before in the text.
    pub fn counts(&self) -> Counts
        ensures fasts { result.fasts ≡ self.now.bindings.fasts }
        ensures tags { result.tags ≡ self.now.bindings.tags }
    {
        Counts {
            fasts: self.environment.fasts(),
            tags: self.environment.tags(),
        }
    }

    /// Puts a frame on the others.
    pub fn push(&mut self, frame: Frame<'p>)
        requires room { length self.old.frames < self.old.capacity }
        ensures { self.new ≡ record self.old { frames = frame.entry ∷ self.old.frames } }
    {
        self.frames.push_reserved(frame);
    }

    /// Takes the highest frame.
    pub fn pop(&mut self) -> Option<Frame<'p>>
        ensures frame { self.old.frames ≡ option_to_list result ++ self.new.frames }
        ensures others { self.new ≡ record self.old { frames = self.new.frames } }
        ensures none { IfNone result (self.new.frames ≡ []) }
    {
        self.frames.pop()
    }

    /// Takes statements in hand.
    pub fn take(&mut self, statements: &'p [Statement])
        ensures { self.new ≡ record self.old { rest = statements.entry.now } }
    {
        self.rest = statements;
    }

    /// Gives a name a number, or none, and answers what it had.
    pub fn know(&mut self, name: u32, number: Option<i64>) -> Option<i64>
        requires name { name < length self.old.bindings.names }
        ensures at { Under self.old self.new (with_known (name_at self.old.bindings.names name) number
            (env_of self.old.bindings)) }
        ensures before { result ≡ known_of self.old.bindings name }
    {
        self.environment.know(name, number)
    }

    /// Lets a name stand for a memref, or for none, and answers what it stood for.
    pub fn stand(&mut self, name: u32, home: Option<Home>) -> Option<Home>
        requires name { name < length self.old.bindings.names }
        ensures at { Under self.old self.new (with_home (name_at self.old.bindings.names name) (homes_meant home)
            (env_of self.old.bindings)) }
        ensures before { homes_meant result ≡ home_of self.old.bindings name }
    {
        self.environment.stand(name, home)
    }

    /// Goes where so many allocations stand before in the text.
    pub fn count(&mut self, fasts: u32, tags: u32)
        ensures { self.new ≡ record self.old { bindings = record self.old.bindings { fasts = fasts; tags = tags } } }
    {
        self.environment.set_counts(fasts, tags);
    }

    /// The number that a name has.
    pub fn known(&self, name: u32) -> Option<i64>
        requires name { name < length self.now.bindings.names }
        ensures { result ≡ known_of self.now.bindings name }
    {
        self.environment.known(name)
    }

    /// The first turn of a loop with this lower bound.
    pub fn lower(&mut self, limit: &Limit) -> i64
        requires limit { LimitFits (length self.old.bindings.names) self.old.width limit.now }
        requires safe { SafeBound (env_of self.old.bindings) (bound_of self.old.bindings.names limit.now) }
        ensures value { result ≡ lower_of (env_of self.old.bindings) (bound_of self.old.bindings.names limit.now) }
        ensures at { self.new ≡ self.old }
    {
        self.environment.lower(limit, &mut self.numbers)
    }

    /// The number that every turn of a loop with this upper bound is less than.
    pub fn upper(&mut self, limit: &Limit) -> i64
        requires limit { LimitFits (length self.old.bindings.names) self.old.width limit.now }
        requires safe { SafeBound (env_of self.old.bindings) (bound_of self.old.bindings.names limit.now) }
        ensures value { result ≡ upper_of (env_of self.old.bindings) (bound_of self.old.bindings.names limit.now) }
        ensures at { self.new ≡ self.old }
    {
        self.environment.upper(limit, &mut self.numbers)
    }

    /// Whether a condition is true.
    pub fn holds(&mut self, set: &Set, operands: &[u32]) -> bool
        requires operands { Operands (length self.old.bindings.names) self.old.width operands.now }
        requires safe { SafeCondition (env_of self.old.bindings) set.now (names_at self.old.bindings.names operands.now) }
        ensures value { result ≡ holds_at (env_of self.old.bindings) set.now (names_at self.old.bindings.names operands.now) }
        ensures at { self.new ≡ self.old }
    {
        self.environment.holds(set, operands, &mut self.numbers)
    }

    /// The action of a statement.
    pub fn action(&mut self, plain: &'p Plain) -> Action<'p>
        requires names { PlainFits (length self.old.bindings.names) self.old.width plain.now }
        requires uses { self.old.width ≤ self.old.uses }
        requires safe { SafePlain (env_of self.old.bindings) (plain_of self.old.bindings.names plain.now) }
        ensures value { meant self.old.bindings.names self.new.subscripts result
            ≡ action_of (plain_of self.old.bindings.names plain.entry.now) (env_of self.old.bindings) }
        ensures inside { NamesIn (length self.old.bindings.names) self.new.subscripts result }
        ensures at { self.new ≡ record self.old { subscripts = self.new.subscripts } }
    {
        self.environment
            .action(plain, &mut self.numbers, &mut self.subscripts)
    }

    /// What a statement changes of what is known.
    pub fn change_of(&mut self, plain: &Plain) -> Change
        requires names { PlainFits (length self.old.bindings.names) self.old.width plain.now }
        requires safe { SafePlain (env_of self.old.bindings) (plain_of self.old.bindings.names plain.now) }
        ensures value { changed self.old.bindings.names result (env_of self.old.bindings)
            ≡ after_plain (plain_of self.old.bindings.names plain.now) (env_of self.old.bindings) }
        ensures inside { ChangesIn (length self.old.bindings.names) result }
        ensures at { self.new ≡ self.old }
    {
        self.environment.change(plain, &mut self.numbers)
    }
}
