//! The hasher of the names of a module's exports.

ghost use Rattle.validator.specs.Exports.{HashesFor};

use sha2::{Digest, Sha256};
use std::hash::{BuildHasher, DefaultHasher, Hasher};

/// Hands out std's `DefaultHasher` (SipHash-1-3) into which the first 16 bytes of the SHA-256 of a module's own bytes
/// were written. A name's hash hangs on all bytes of the module, the names among them, so nobody can choose names that
/// collide. It is a function of the bytes, and needs no random number.
#[derive(Clone, Copy)]
pub(crate) struct NameHasher {
    begun: DefaultHasher,
}

impl NameHasher {
    /// The hasher of the module with these bytes. It takes no memory.
    pub(crate) fn of(source: &[u8]) -> NameHasher
        ensures { HashesFor source.now result }
    {
        let digest = Sha256::digest(source);
        let mut begun = DefaultHasher::new();
        begun.write(&digest[..16]);
        NameHasher { begun }
    }
}

impl BuildHasher for NameHasher {
    type Hasher = DefaultHasher;

    ghost build_hasher = { λ s. s.begun };

    fn build_hasher(&self) -> DefaultHasher {
        self.begun
    }
}
