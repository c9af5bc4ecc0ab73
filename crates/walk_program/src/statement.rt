// Statements.

use crate::plain::{Limit, Plain};
use affine_expr::Set;
use sqlite_items::Items;

/// What is allocated in the text of a region, also in the regions inside it.
#[derive(Clone, Copy)]
pub struct Counts {
    /// How many allocations in space 1.
    pub fasts: u32,
    /// How many elements the allocations in space 2 have.
    pub tags: u32,
}

/// What a statement is.
#[cycle(statements)]
#[derive(Drop)]
pub enum Form {
    /// `affine.for`, with what is allocated in its body.
    For {
        var: u32,
        lower: Limit,
        upper: Limit,
        step: i64,
        inside: Counts,
        body: Items<Statement>,
    },
    /// `affine.if`, with what is allocated in each of its regions: nothing in the other one where there is none.
    If {
        set: Set,
        operands: Items<u32>,
        first: Items<Statement>,
        first_inside: Counts,
        other: Option<Items<Statement>>,
        other_inside: Counts,
    },
    /// Every other statement.
    Plain(Plain),
}

/// A statement with the line of its first token, counted from 1.
#[cycle(statements)]
#[derive(Drop)]
pub struct Statement {
    pub line: u32,
    pub form: Form,
}
