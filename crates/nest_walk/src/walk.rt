// The walk of a module.

ghost use Rattle.std.specs.Prelude.{◌≡◌, IfOk};
ghost use Rattle.direct_meaning.specs.Actions.{actions};
ghost use Rattle.direct_meaning.specs.Memory.{start_env};
ghost use Rattle.valid_laws.specs.Safe.{SafeNest};
ghost use Rattle.walk_program.specs.Reading.{nest_of, arguments_of};
ghost use Rattle.walk_program.specs.Tree.{tree};
ghost use Rattle.walk_program.specs.WellMade.{WellMade};
ghost use Rattle.nest_walk.specs.Walked.{Next, Begins};

use crate::arguments::placed;
use crate::position::Position;
use crate::rooms::room_needed;
use affine_ast::Name;
use std::alloc::{AllocError, Global};
use std::marker::Model;
use walk_actions::{Action, Operand};
use walk_program::Program;

/// A walk over a module. A clause sees the names of the module, the actions that are left, and the subscripts that
/// stand beside the last action.
#[derive(Drop)]
pub struct Walk<'p> {
    position: Position<'p>,
}

impl<'p> Model for Walk<'p> {
    ghost use Rattle.nest_walk.specs.Walked.{Walked};

    ghost Value = { Walked };

    ghost use Rattle.nest_walk.specs.Jobs.{actions_left};
    ghost use Rattle.nest_walk.specs.Ready.{IsReady};

    ghost view = { λ w. record {
      names = w.position.bindings.names;
      left = actions_left w.position;
      subscripts = w.position.subscripts;
    } };

    ghost invariant = { λ w. IsReady w.position };
}

impl<'p> Walk<'p> {
    /// The names of the module. An action's numbers are places in this list.
    pub fn names(&self) -> &'p [Name]
        ensures { result.now ≡ self.now.names }
    {
        self.position.names()
    }

    /// The subscripts of the last action where it is a raw access, in the order of its memref's dimensions.
    pub fn subscripts(&self) -> &[Operand]
        ensures { result.now ≡ self.now.subscripts }
    {
        self.position.subscripts()
    }

    /// A walk over a program for these index arguments. It takes all the memory that the walk needs.
    ///
    /// # Errors
    ///
    /// Out of memory, and so too where the elements of the arguments or the frames of the walk leave the machine's
    /// numbers. No valid module has so many.
    pub fn new(alloc: Global, program: &'p Program, symbols: &[i64]) -> Result<Walk<'p>, AllocError>
        requires made { WellMade program.now }
        requires safe { SafeNest (nest_of program.now.names (tree program.now.body))
            (start_env (arguments_of program.now.names program.now.arguments) symbols.now) }
        ensures { IfOk result (Begins program.entry.now symbols.now) }
    {
        let Some(room) = room_needed(program.body.as_slice()) else {
            return Err(AllocError);
        };
        let environment = placed(
            alloc,
            program.names.as_slice(),
            program.arguments.as_slice(),
            symbols,
        )?;
        let width = program.width as usize;
        Ok(Walk {
            position: Position::new(alloc, program.body.as_slice(), environment, width, room)?,
        })
    }

    /// The next action, and nothing where none is left. It takes no memory. Where the action is a raw access, its
    /// subscripts are those of `subscripts` then.
    pub fn next(&mut self) -> Option<Action<'p>>
        ensures { Next result self.old self.new }
    {
        self.position.advance()
    }
}
