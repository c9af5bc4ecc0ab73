// The limits of a call.

/// The most bytes of a source.
pub const SOURCE_LIMIT: usize = 4_194_304;

/// The most work of a module that is run.
pub const WORK_LIMIT: u128 = 281_474_976_710_656;
