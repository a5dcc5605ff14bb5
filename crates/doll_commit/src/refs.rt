//! Records in the order found, each once, with a set beside them so that a look for one is short.

ghost use Rattle.std.specs.Prelude.{◌≡◌, ◌<◌, ◌^◌, [], OnOk, OnErr, length, slice_get, is_some};
ghost use Rattle.std.specs.List.{IsDistinct};
ghost use Rattle.doll_table.specs.Tables.{row_of};
ghost use Rattle.doll_commit.specs.Refs.{has, is_ref, with_ref, with_refs};

use doll_table::Table;
use doll_text::Memory;
use std::alloc::Global;
use std::collections::BTreeSet;
use std::marker::Model;

/// A record: the number of its model, and its id.
pub type Ref = (u16, u32);

/// Whether a record lives.
pub fn lives(table: &Table, one: Ref) -> bool
    ensures { result ≡ is_some (row_of table.now one.0 one.1) }
{
    table.row(one.0, one.1).is_some()
}

/// A list of records, each once.
#[derive(Drop)]
pub struct Refs {
    list: Vec<Ref>,
    members: BTreeSet<Ref>,
}

impl Model for Refs {
    ghost use Rattle.std.specs.Prelude.{List};
    ghost use Rattle.doll_commit.specs.Refs.{Ref, AreBeside};

    ghost Value = { List Ref };

    ghost view = { λ w. w.list.items };

    ghost invariant = { λ w. AreBeside w.members w.list.items };
}

impl Refs {
    /// No records.
    pub fn new(alloc: Global) -> Refs
        ensures { result ≡ [] }
    {
        Refs {
            list: Vec::new(alloc),
            members: BTreeSet::new(alloc),
        }
    }

    /// How many records.
    pub fn len(&self) -> usize
        ensures { result ≡ length self.now }
    {
        self.list.len()
    }

    /// The record at an index, counted from 0.
    pub fn get(&self, at: usize) -> Option<Ref>
        ensures value { result ≡ slice_get self.now at }
        ensures short { length self.now < 2 ^ 64 }
    {
        self.list.get(at).copied()
    }

    /// The records in the order found.
    pub fn as_slice(&self) -> &[Ref]
        ensures items { result.now ≡ self.now }
        ensures apart { IsDistinct is_ref self.now }
    {
        self.list.as_slice()
    }

    /// Whether a record is among these.
    pub fn contains(&self, item: Ref) -> bool
        ensures { result ≡ has self.now item }
    {
        self.members.contains(&item)
    }

    /// Adds a record at the end, unless it is there. A refusal changes nothing.
    pub fn add(&mut self, item: Ref) -> Result<(), Memory>
        ensures ok { OnOk result (self.new ≡ with_ref self.old item) }
        ensures err { OnErr result (self.new ≡ self.old) }
    {
        if self.contains(item) {
            return Ok(());
        }
        self.list.reserve(1)?;
        self.members.insert(item)?;
        let _ = self.list.push(item);
        Ok(())
    }

    /// Adds records, each once.
    pub fn add_all(&mut self, items: &[Ref]) -> Result<(), Memory>
        ensures { OnOk result (self.new ≡ with_refs self.old items.now) }
    {
        for item in items {
            self.add(*item)?;
        }
        Ok(())
    }
}
