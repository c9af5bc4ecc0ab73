//! Valid modules that may be written.
//!
//! One law: a valid module that keeps to the limits of the grammar, has the names of a text and is formed as the grammar has it
//! may be written, so its printed text spells it. A pass whose modules are valid shows no more than this of them.
#![tactic(auto)]

ghost use Rattle.writable_modules.specs.Law.{ValidMayBeWritten, WrittenIsFormed, WrittenIsSpelled};

/// A valid module that keeps to the limits and is formed so may be written, and its printed text spells it behind any comments.
pub fn valid_may_be_written()
    ensures written { ValidMayBeWritten }
    ensures spelled { WrittenIsSpelled }
{}

/// Each module that may be written is formed so.
pub fn written_is_formed()
    ensures { WrittenIsFormed }
{}
