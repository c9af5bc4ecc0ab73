// Programs.

use crate::statement::{Counts, Statement};
use affine_ast::{ArgKind, Name};
use sqlite_items::Items;

/// An argument of the function, with the line of its first token.
#[derive(Drop)]
pub struct Argument {
    pub name: u32,
    pub kind: ArgKind,
    pub line: u32,
}

/// A module with a number in place of each name.
#[derive(Drop)]
pub struct Program {
    /// The names of the module, each once, in the order of first use: the arguments first. A name's number is its place
    /// here.
    pub names: Items<Name>,
    /// The arguments, in order.
    pub arguments: Items<Argument>,
    /// The statements of the function, the `return` last.
    pub body: Items<Statement>,
    /// What is allocated in the body.
    pub inside: Counts,
    /// How many operands the longest list of them has: of a map, of a set, or of the subscripts of `memref.load` and
    /// `store`.
    pub width: u32,
}
