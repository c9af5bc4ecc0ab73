// Names of values.
ghost use Rattle.std.specs.Prelude.{◌≡◌, ◌↔◌, IsTrue, IfOk, string_bytes};

use std::alloc::{AllocError, Global};
use std::marker::Model;

/// A text that contracts see as its bytes.
#[derive(Drop)]
pub struct Text {
    inner: String,
}

impl Model for Text {
    ghost use Rattle.std.specs.Prelude.{List, ℕ, string_bytes};

    ghost Value = { List ℕ };

    ghost view = { λ t. string_bytes t.inner };
}

impl Text {
    pub fn from_string(inner: String) -> Text
        ensures { result ≡ string_bytes inner }
    {
        Text { inner }
    }

    pub fn as_str(&self) -> &str
        ensures { result.now ≡ self.now }
    {
        self.inner.as_str()
    }

    /// An equal text.
    pub fn copy(&self, alloc: Global) -> Result<Text, AllocError>
        ensures { IfOk result (λ t. t ≡ self.now) }
    {
        Ok(Text {
            inner: String::from_str(alloc, self.inner.as_str())?,
        })
    }
}

/// The name of a value without its `%`, and whether a template made it. A made name is never equal to one of a text.
#[derive(Drop)]
pub struct Name {
    pub text: Text,
    pub made: bool,
}

impl Name {
    /// An equal name.
    pub fn copy(&self, alloc: Global) -> Result<Name, AllocError>
        ensures { IfOk result (λ n. n ≡ self.now) }
    {
        Ok(Name {
            text: self.text.copy(alloc)?,
            made: self.made,
        })
    }

    /// Whether both are one name.
    pub fn is(&self, other: &Name) -> bool
        ensures { IsTrue result ↔ (self.now ≡ other.now) }
    {
        self.made == other.made && self.text.as_str() == other.text.as_str()
    }
}

/// Copies of names, in order.
pub(crate) fn copy_names(
    alloc: Global,
    names: &[Name],
) -> Result<sqlite_items::Items<Name>, AllocError>
    ensures { IfOk result (λ copies. copies ≡ names.now) }
{
    let mut copies = sqlite_items::Items::new(alloc);
    for name in names {
        copies.push(name.copy(alloc)?)?;
    }
    Ok(copies)
}
