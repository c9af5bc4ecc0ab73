// What is open while a module is walked.

use walk_actions::Home;
use walk_program::{Counts, Statement};

/// What is to be done when the statements in hand are done.
#[derive(Drop)]
pub enum Frame<'p> {
    /// The statements behind a loop or a condition, with what is allocated in the text of the `else` region where the
    /// first region was taken; nothing elsewhere.
    Rest {
        statements: &'p [Statement],
        passed: Counts,
    },
    /// The number that a name had before the region gave it another one.
    Known {
        name: u32,
        before: Option<i64>,
    },
    /// What a memref's name stood for before the region gave it to an allocation.
    Memref {
        name: u32,
        before: Option<Home>,
    },
    /// The turns that are left of a loop: the number that its variable had before it, the next turn, what is allocated
    /// before the loop and in its body.
    Turns {
        var: u32,
        before: Option<i64>,
        at: i64,
        upper: i64,
        step: i64,
        start: Counts,
        inside: Counts,
        body: &'p [Statement],
    },
}
