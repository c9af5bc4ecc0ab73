// The options of a command, and their values.
ghost use Rattle.std.specs.Prelude.{◌≡◌};
ghost use Rattle.command_words.specs.Options as spec;

/// Whether the program has an option yet. Words that give one which it doesn't have are refused, and it has its default.
#[derive(Clone, Copy)]
pub enum Standing {
    Built,
    Unbuilt,
}

/// What an option takes.
#[derive(Clone, Copy)]
pub enum Takes {
    /// Nothing: it is given or not.
    Flag,
    /// A number in a range, both ends counted, and the default where it isn't given.
    Number { least: i64, most: i64, default: i64 },
}

/// An option of a command. Its name stands behind `--`; it isn't empty and has no `=`.
#[derive(Clone, Copy)]
pub struct CommandOption<'a> {
    pub name: &'a str,
    pub takes: Takes,
    /// The flag without which the option isn't given.
    pub needs: Option<&'a str>,
    pub standing: Standing,
}

/// The value of an option.
#[derive(Clone, Copy)]
pub enum Value {
    /// Whether a flag is given.
    Flag(bool),
    /// The number that is given, or the default.
    Number(i64),
}

impl CommandOption<'_> {
    /// Whether the program has the option.
    pub(crate) fn is_built(&self) -> bool
        ensures { result ≡ spec.is_built (spec.as_rule self.now) }
    {
        matches!(self.standing, Standing::Built)
    }
}

impl Takes {
    /// The value of an option that isn't given.
    pub(crate) fn default(self) -> Value
        ensures { result ≡ spec.default_of self }
    {
        match self {
            Takes::Flag => Value::Flag(false),
            Takes::Number { default, .. } => Value::Number(default),
        }
    }
}
