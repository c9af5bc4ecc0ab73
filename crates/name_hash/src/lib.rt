//! Hashes of names that no text can be made against.
//!
//! A hash with a fixed and public seed lets a text be written whose names all fall together, so that a table of `n` names takes
//! a time of `n * n`. Here a table hashes by SipHash behind a key of its own: the SHA-256 digest of the text, or, where there is
//! a module and no text, of its names. Whoever changes a name to make it collide changes the key by which all are hashed, and to
//! find a text whose own digest is a key chosen before is to break SHA-256. So names collide as chance has it, whatever they are:
//! `n` of them cost about `n`. The same text has the same key in each run, so a run takes the same time again. No answer of a
//! table depends on its key. The crate stands on `sha2`, and on `affine_ast` for modules.
#![tactic(auto)]

mod hashing;
mod module_names;

pub use hashing::NameHashing;
