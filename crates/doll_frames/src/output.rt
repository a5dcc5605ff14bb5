//! Bytes that are written one after another.

ghost use Rattle.std.specs.Prelude.{◌≡◌, ◌++◌, [], OnOk};
ghost use Rattle.doll_eval.specs.Operations.{written};

use doll_eval::print;
use doll_schema::Val;
use doll_text::{Bytes, Memory};
use std::alloc::Global;
use std::marker::Model;

/// What is written so far of a page or of a block.
#[derive(Drop)]
pub struct Output {
    bytes: Vec<u8>,
}

impl Model for Output {
    ghost use Rattle.std.specs.Prelude.{List, ℕ};

    ghost Value = { List ℕ };

    ghost view = { λ o. o.bytes.items };
}

impl Output {
    /// Nothing so far.
    pub fn new(alloc: Global) -> Output
        ensures { result ≡ [] }
    {
        Output {
            bytes: Vec::new(alloc),
        }
    }

    pub fn as_slice(&self) -> &[u8]
        ensures { result.now ≡ self.now }
    {
        self.bytes.as_slice()
    }

    /// Writes bytes behind all others. After a refusal some of them may stand there.
    pub fn append(&mut self, bytes: &[u8]) -> Result<(), Memory>
        ensures { OnOk result (self.new ≡ self.old ++ bytes.now) }
    {
        self.bytes.extend_from_slice(bytes)?;
        Ok(())
    }

    /// Writes a value, escaped unless it is written raw.
    pub fn print(&mut self, value: &Val, raw: bool) -> Result<(), Memory>
        ensures { OnOk result (self.new ≡ self.old ++ written raw value.now) }
    {
        print(value, raw, &mut self.bytes)
    }

    /// All that was written.
    pub fn into_bytes(self) -> Bytes
        ensures { result ≡ self }
    {
        let Output { bytes } = self;
        Bytes::from_vec(bytes)
    }
}
