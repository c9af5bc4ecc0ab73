// The new names of a module.
ghost use Rattle.std.specs.Prelude.{◌≡◌, ◌++◌, IfOk, string_bytes, false};
ghost use Rattle.std.specs.Fmt.{decimal};
ghost use Rattle.numbered_names.specs.Numbers.{value_names, made_of, prefix};
ghost use Rattle.number_names.specs.Underscores.{most};
ghost use Rattle.number_names.specs.Renaming.{place_by_text, new_name};

use crate::prefix::underscores;
use crate::value_names::value_names;
use affine_ast::{Module, Name, Text};
use name_hash::NameHashing;
use name_table::Names;
use std::alloc::{AllocError, Global};
use std::marker::Model;

/// The made names of a module in the order of their definitions, and how many underscores stand behind `copy`.
#[derive(Drop)]
pub(crate) struct Numbering {
    made: Names,
    underscores: usize,
}

impl Model for Numbering {
    ghost use Rattle.number_names.specs.Renaming.{Numbers};

    ghost Value = { Numbers };

    ghost view = { λ n. record { made = n.made; underscores = n.underscores } };
}

/// The made ones of these names, each found by its text.
fn made_names(alloc: Global, hashing: NameHashing, names: &[Name]) -> Result<Names, AllocError>
    ensures { IfOk result (λ made. made ≡ made_of names.now) }
{
    let mut made = Names::new(alloc, hashing);
    for name in names {
        if name.made {
            made.push(alloc, name.copy(alloc)?)?;
        }
    }
    Ok(made)
}

/// `copy` with so many underscores.
#[tactic(auto, using(crate::proofs::Places::prefix_more))]
fn prefix(alloc: Global, underscores: usize) -> Result<String, AllocError>
    ensures { IfOk result (λ text. string_bytes text ≡ prefix underscores) }
{
    let mut text = String::from_str(alloc, "copy")?;
    for _underscore in 0..underscores {
        text.push('_')?;
    }
    Ok(text)
}

/// The name with a number.
fn numbered(alloc: Global, underscores: usize, number: usize) -> Result<Name, AllocError>
    ensures { IfOk result (λ name. name ≡ record { text = prefix underscores ++ decimal number; made = false }) }
{
    let mut text = prefix(alloc, underscores)?;
    text.push_str(number.to_string(alloc)?.as_str())?;
    Ok(Name {
        text: Text::from_string(text),
        made: false,
    })
}

impl Numbering {
    /// That of a module.
    pub(crate) fn of(alloc: Global, module: &Module) -> Result<Numbering, AllocError>
        ensures { IfOk result (λ numbering. numbering ≡ record { made = made_of (value_names «module».now); underscores = most (value_names «module».now) }) }
    {
        let names = value_names(alloc, module)?;
        Ok(Numbering {
            made: made_names(alloc, NameHashing::of_module(module), names.as_slice())?,
            underscores: underscores(names.as_slice()),
        })
    }

    /// How many made names are defined before the one of this text.
    #[tactic(auto, using(crate::proofs::Places::found, crate::proofs::Places::missing))]
    fn number(&self, text: &[u8]) -> usize
        ensures { result ≡ place_by_text text.now self.now.made }
    {
        match self.made.place_of(text) {
            Some(place) => place,
            None => self.made.len(),
        }
    }

    /// The new name of a name: a made one's number, a text's own name as it is.
    pub(crate) fn name(&self, alloc: Global, name: &Name) -> Result<Name, AllocError>
        ensures { IfOk result (λ new. new ≡ new_name self.now name.now) }
    {
        if !name.made {
            return name.copy(alloc);
        }
        let number = self.number(name.text.as_str().as_bytes());
        numbered(alloc, self.underscores, number)
    }
}
