//! Key texts and versions, which contracts see as the lists of what they hold.

ghost use Rattle.std.specs.Prelude.{◌≡◌, ◌∷◌, ◌++◌, [], nat_eq, IfOk, OnOk, OnErr};
ghost use Rattle.std.proofs.Common.{rules};
ghost use Rattle.std.specs.Cmp.{partial_equiv_from_equiv};
ghost use Rattle.std.specs.Cmp.Lexicographic.{nat_list_eq_equiv, pointwise};
ghost use Rattle.std.specs.Cmp.Rules.{hashing};
ghost use Rattle.std.specs.Hash as fed;

use doll_text::{Copied, Memory};
use std::alloc::Global;
use std::hash::{Hash, Hasher};
use std::marker::Model;

/// The text of a key, as its bytes.
#[derive(Drop)]
pub struct KeyText {
    bytes: Vec<u8>,
}

impl Model for KeyText {
    ghost use Rattle.std.specs.Prelude.{List, ℕ};

    ghost Value = { List ℕ };

    ghost view = { λ t. t.bytes.items };
}

impl KeyText {
    /// A key text with the bytes of this vector, which is moved.
    pub fn from_vec(bytes: Vec<u8>) -> KeyText
        ensures { result ≡ bytes.items }
    {
        KeyText { bytes }
    }

    pub fn as_bytes(&self) -> &[u8]
        ensures { result.now ≡ self.now }
    {
        self.bytes.as_slice()
    }

    pub fn copy(&self, alloc: Global) -> Result<KeyText, Memory>
        ensures { IfOk result (λ t. t ≡ self.now) }
    {
        let bytes = Vec::from_slice(alloc, self.bytes.as_slice())?;
        Ok(KeyText { bytes })
    }
}

impl Copied for KeyText {
    fn copy(&self, alloc: Global) -> Result<KeyText, Memory> {
        self.copy(alloc)
    }
}

impl PartialEq for KeyText {
    ghost eq = { pointwise nat_eq };

    ghost laws = { partial_equiv_from_equiv nat_list_eq_equiv };

    fn eq(&self, other: &KeyText) -> bool {
        self.as_bytes() == other.as_bytes()
    }
}

impl Eq for KeyText {
    ghost laws = { nat_list_eq_equiv };
}

impl Hash for KeyText {
    ghost hash_input = { fed.slice fed.u8 };

    ghost respects_eq = { Prim.search (hashing, rules) };

    fn hash<H: Hasher>(&self, state: &mut H) {
        self.as_bytes().hash(state);
    }
}

/// The moments of the last changes of a key's records, in the order in which they stand in the key; 0 for no record.
#[derive(Drop)]
pub struct Versions {
    moments: Vec<u64>,
}

impl Model for Versions {
    ghost use Rattle.std.specs.Prelude.{List, ℕ};

    ghost Value = { List ℕ };

    ghost view = { λ v. v.moments.items };
}

impl Versions {
    /// No moments.
    pub fn new(alloc: Global) -> Versions
        ensures { result ≡ [] }
    {
        Versions {
            moments: Vec::new(alloc),
        }
    }

    /// A list with these moments, in this order.
    pub fn from_slice(alloc: Global, moments: &[u64]) -> Result<Versions, Memory>
        ensures { IfOk result (λ v. v ≡ moments.now) }
    {
        let moments = Vec::from_slice(alloc, moments)?;
        Ok(Versions { moments })
    }

    /// Adds a moment at the end. A refusal changes nothing.
    pub fn push(&mut self, moment: u64) -> Result<(), Memory>
        ensures ok { OnOk result (self.new ≡ self.old ++ moment ∷ []) }
        ensures err { OnErr result (self.new ≡ self.old) }
    {
        self.moments.push(moment)?;
        Ok(())
    }

    pub fn as_slice(&self) -> &[u64]
        ensures { result.now ≡ self.now }
    {
        self.moments.as_slice()
    }

    pub fn copy(&self, alloc: Global) -> Result<Versions, Memory>
        ensures { IfOk result (λ v. v ≡ self.now) }
    {
        Versions::from_slice(alloc, self.moments.as_slice())
    }
}

impl Copied for Versions {
    fn copy(&self, alloc: Global) -> Result<Versions, Memory> {
        self.copy(alloc)
    }
}
