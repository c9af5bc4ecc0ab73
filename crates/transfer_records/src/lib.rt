//! What an executor with transfers asks of the records of those that are outstanding.
//!
//! Each test is `prompt_semantics`'s, told exactly: which slow place races with which transfer, which half is away, which tag
//! is started. Whether a transfer has a place is told by its base, its stride and its chunk, and not by going over its
//! elements; two transfers whose places lie apart as a whole are told apart at once. The crate takes no memory.
#![tactic(auto)]

mod meeting;
mod records;

pub use records::{
    find, has_away, has_started, is_away, is_started, load_races, start_races, store_races,
};
