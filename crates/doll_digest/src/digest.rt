//! Digests.

ghost use Rattle.std.specs.Prelude.{◌≡◌, ◌++◌, OnOk, OnErr};
ghost use Rattle.doll_digest.specs.Framing.{IsDigest, hex_digits};

use doll_text::Memory;
use std::marker::Model;

/// How many hexadecimal digits a digest has.
const DIGITS: usize = 32;

/// A digest of 16 bytes, which contracts see as the list of these.
#[derive(Clone, Copy, PartialEq, Eq, Hash)]
pub struct Digest {
    bytes: [u8; 16],
}

impl Model for Digest {
    ghost use Rattle.std.specs.Prelude.{List, ℕ};

    ghost Value = { List ℕ };

    ghost view = { λ d. d.bytes };

    ghost inverse = { λ bytes. record { bytes = bytes } };
}

impl Digest {
    /// The digest with these bytes.
    pub fn from_bytes(bytes: [u8; 16]) -> Digest
        ensures bytes { result ≡ bytes }
        ensures digest { IsDigest result }
    {
        Digest { bytes }
    }

    /// Its bytes.
    pub fn bytes(self) -> [u8; 16]
        ensures bytes { result ≡ self }
        ensures digest { IsDigest self }
    {
        self.bytes
    }

    /// Appends the digest as 32 lower-case hexadecimal digits, of each byte the high one first. A refusal changes nothing.
    pub fn write_hex(self, out: &mut Vec<u8>) -> Result<(), Memory>
        ensures ok { OnOk result (out.new.items ≡ out.old.items ++ hex_digits self) }
        ensures err { OnErr result (out.new.items ≡ out.old.items) }
    {
        out.extend_from_slice(&self.hex())?;
        Ok(())
    }

    /// The digest as 32 lower-case hexadecimal digits, of each byte the high one first.
    pub fn hex(self) -> [u8; DIGITS]
        ensures { result ≡ hex_digits self }
    {
        let mut digits = [0; DIGITS];
        hex::encode_to_slice(self.bytes, &mut digits).unwrap();
        digits
    }
}
