//! Hashes of 16 bytes.

ghost use Rattle.std.specs.Prelude.{◌≡◌, ℕ, List};
ghost use Rattle.doll_digest.specs.Hashes.{first_byte};
ghost use Rattle.md5.specs.Md5.{md5};

use md5::{Digest, Md5};

/// A function from texts to 16 bytes.
pub trait Hash16 {
    /// The hash of a text.
    ghost hash_of: { List ℕ → List ℕ };

    /// The hash of a text.
    fn hash(&self, text: &[u8]) -> [u8; 16]
        ensures { result ≡ hash_of text.now };
}

/// MD5, after RFC 1321. It tells templates apart, and is no defence against one who looks for two texts with the same hash: a
/// registry finds these.
#[derive(Clone, Copy)]
pub struct Md5Hash;

impl Hash16 for Md5Hash {
    ghost hash_of = { md5 };

    fn hash(&self, text: &[u8]) -> [u8; 16] {
        Md5::digest(text)
    }
}

/// The first byte of a text and zeros after it, for tests of what happens where two texts have the same hash.
#[derive(Clone, Copy)]
pub struct WeakHash;

impl Hash16 for WeakHash {
    ghost hash_of = { first_byte };

    fn hash(&self, text: &[u8]) -> [u8; 16] {
        let mut hash = [0; 16];
        if let [first, ..] = text {
            hash[0] = *first;
        }
        hash
    }
}
