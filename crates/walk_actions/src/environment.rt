// What names stand for at one point of a walk, in tables by number.

ghost use Rattle.std.specs.Prelude.{◌≡◌, ◌<◌, ◌≤◌, ℕ, length, replicate, vec_capacity, IfOk, None};
ghost use Rattle.affine_ast.specs.Names.{put};
ghost use Rattle.direct_meaning.specs.Static.{number, numbers, operand};
ghost use Rattle.direct_meaning.specs.Memory.{empty_env};
ghost use Rattle.walk_program.specs.Names.{name_at, AreDistinct};
ghost use Rattle.walk_program.specs.Numbered.{Operands};
ghost use Rattle.walk_program.specs.Reading.{names_at};
ghost use Rattle.walk_actions.specs.Looked.{env_of, known_of, home_of, homes_meant, with_known, with_home};
ghost use Rattle.walk_actions.specs.Meant.{operand_meant, OperandIn};

use crate::action::{Home, Operand};
use affine_ast::Name;
use std::alloc::{AllocError, Global};
use std::marker::Model;

/// What stands round the next statement: of each name, by its number, the number that it has and the memref that it
/// stands for, and how many allocations stand before in the text. A clause sees these bindings as lists; each name has
/// an entry in both.
#[derive(Drop)]
pub struct Environment<'p> {
    names: &'p [Name],
    known: Vec<Option<i64>>,
    homes: Vec<Option<Home>>,
    fasts: u32,
    tags: u32,
}

impl<'p> Model for Environment<'p> {
    ghost use Rattle.walk_actions.specs.Bindings.{Bindings, HasEntries};

    ghost Value = { Bindings };

    ghost view = { λ s. record {
      names = s.names.now;
      known = s.known.items;
      homes = s.homes.items;
      fasts = s.fasts;
      tags = s.tags;
    } };

    ghost invariant = { λ s. HasEntries (record {
      names = s.names.now;
      known = s.known.items;
      homes = s.homes.items;
      fasts = s.fasts;
      tags = s.tags;
    }) };
}

/// So many times nothing.
#[tactic(auto, using(crate::proofs::Tables::none_more))]
fn nones<T: Drop>(alloc: Global, count: usize) -> Result<Vec<Option<T>>, AllocError>
    ensures { IfOk result (λ entries. entries.items ≡ replicate count None) }
{
    let mut entries = Vec::new(alloc);
    for _ in 0..count {
        entries.push(None)?;
    }
    Ok(entries)
}

impl<'p> Environment<'p> {
    /// Nothing is known, and nothing allocated.
    pub fn new(alloc: Global, names: &'p [Name]) -> Result<Environment<'p>, AllocError>
        requires { AreDistinct names.now }
        ensures names { IfOk result (λ e. e.names ≡ names.entry.now) }
        ensures empty { IfOk result (λ e. env_of e ≡ empty_env) }
    {
        Ok(Environment {
            names,
            known: nones(alloc, names.len())?,
            homes: nones(alloc, names.len())?,
            fasts: 0,
            tags: 0,
        })
    }

    /// The names of the module, by number.
    pub fn names(&self) -> &'p [Name]
        ensures { result.now ≡ self.now.names }
    {
        self.names
    }

    /// How many allocations in space 1 stand before in the text.
    pub fn fasts(&self) -> u32
        ensures { result ≡ self.now.fasts }
    {
        self.fasts
    }

    /// How many elements the allocations in space 2 have that stand before in the text.
    pub fn tags(&self) -> u32
        ensures { result ≡ self.now.tags }
    {
        self.tags
    }

    /// Goes where so many allocations stand before in the text.
    pub fn set_counts(&mut self, fasts: u32, tags: u32)
        ensures { self.new ≡ record self.old { fasts = fasts; tags = tags } }
    {
        self.fasts = fasts;
        self.tags = tags;
    }

    /// The number of a name, where it has one.
    #[tactic(auto, using(crate::proofs::Tables::known_at))]
    pub fn known(&self, name: u32) -> Option<i64>
        requires name { name < length self.now.names }
        ensures { result ≡ known_of self.now name }
    {
        self.known[name as usize]
    }

    /// The number of a name that has one, or 0.
    pub fn number(&self, name: u32) -> i64
        requires name { name < length self.now.names }
        ensures { result ≡ number (known_of self.now name) }
    {
        match self.known(name) {
            Some(number) => number,
            None => 0,
        }
    }

    /// What a use of a name is: its number where it has one.
    pub fn operand(&self, name: u32) -> Operand
        requires name { name < length self.now.names }
        ensures value { operand_meant self.now.names result ≡ operand (env_of self.now) (name_at self.now.names name) }
        ensures inside { OperandIn (length self.now.names) result }
    {
        match self.known(name) {
            Some(number) => Operand::Number(number),
            None => Operand::Register(name),
        }
    }

    /// What a memref's name stands for.
    #[tactic(auto, using(crate::proofs::Tables::home_at))]
    pub fn home(&self, name: u32) -> Option<Home>
        requires name { name < length self.now.names }
        ensures { homes_meant result ≡ home_of self.now name }
    {
        self.homes[name as usize]
    }

    /// The numbers of names, in order, in a list that has room for them.
    pub fn numbers(&self, names: &[u32], room: &mut Vec<i64>)
        requires names { Operands (length self.now.names) (vec_capacity room.old) names.now }
        ensures values { room.new.items ≡ numbers (env_of self.now) (names_at self.now.names names.now) }
        ensures capacity { vec_capacity room.new ≡ vec_capacity room.old }
    {
        room.clear();
        for name in names {
            room.push_reserved(self.number(*name));
        }
    }

    /// Gives a name a number, or none, and answers what it had.
    #[tactic(auto, using(crate::proofs::Tables::writes))]
    pub fn know(&mut self, name: u32, number: Option<i64>) -> Option<i64>
        requires name { name < length self.old.names }
        ensures env { env_of self.new ≡ with_known (name_at self.old.names name) number (env_of self.old) }
        ensures before { result ≡ known_of self.old name }
        ensures names { self.new.names ≡ self.old.names }
    {
        let before = self.known[name as usize];
        self.known[name as usize] = number;
        before
    }

    /// Lets a name stand for a memref, or for none, and answers what it stood for.
    #[tactic(auto, using(crate::proofs::Tables::writes))]
    pub fn stand(&mut self, name: u32, home: Option<Home>) -> Option<Home>
        requires name { name < length self.old.names }
        ensures env { env_of self.new ≡ with_home (name_at self.old.names name) (homes_meant home) (env_of self.old) }
        ensures before { homes_meant result ≡ home_of self.old name }
        ensures names { self.new.names ≡ self.old.names }
    {
        let before = self.homes[name as usize];
        self.homes[name as usize] = home;
        before
    }
}
