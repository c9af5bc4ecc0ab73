// The key of a hash.
ghost use Rattle.std.specs.Prelude.{◌≡◌};
ghost use Rattle.sha2.specs.Sha256.{sha256};
ghost use Rattle.name_hash.specs.Keyed.{keyed};

use crate::module_names::digest_of;
use affine_ast::Module;
use sha2::{Digest, Sha256};
use std::hash::{BuildHasher, DefaultHasher, Hasher};

/// How a table of names hashes: by SipHash behind a key of 32 bytes.
#[derive(Clone, Copy)]
pub struct NameHashing {
    /// A hasher that has read the key.
    initial: DefaultHasher,
}

impl BuildHasher for NameHashing {
    type Hasher = DefaultHasher;

    ghost build_hasher = { λ h. h.initial };

    fn build_hasher(&self) -> DefaultHasher {
        self.initial
    }
}

impl NameHashing {
    /// The hashing of this key.
    fn of_key(key: [u8; 32]) -> NameHashing
        ensures { result ≡ keyed key }
    {
        let mut initial = DefaultHasher::new();
        initial.write(&key);
        NameHashing { initial }
    }

    /// The hashing of the names of a text.
    pub fn of_text(text: &[u8]) -> NameHashing
        ensures { result ≡ keyed (sha256 text.now) }
    {
        NameHashing::of_key(Sha256::digest(text))
    }

    /// The hashing of the names of a module, by a digest of them all. Which it is stays open: every one gives the same tables.
    pub fn of_module(module: &Module) -> NameHashing {
        NameHashing::of_key(digest_of(module))
    }
}
