//! What a commit changes.

use doll_schema::Value;
use doll_text::{Copied, Items, Memory, Name, copy_list};
use std::alloc::Global;

/// Attributes and foreign keys by name, with their values, in ascending order of the names where they were read from JSON.
pub type Given = Items<(Name, Value)>;

/// A change of one record. A model is meant by its name.
#[derive(Drop)]
pub enum Change {
    Create { model: Name, values: Given },
    Update { model: Name, id: u32, values: Given },
    Destroy { model: Name, id: u32 },
    Touch { model: Name, id: u32 },
}

/// Changes in the order in which they are made.
pub type Changes = Items<Change>;

/// Changes that are made together.
#[derive(Drop)]
pub struct Commit {
    /// The number of who made it.
    pub author: u32,
    /// The author's own count.
    pub serial: u64,
    /// When it was made, in microseconds; it rises from commit to commit.
    pub moment: u64,
    pub changes: Changes,
}

impl Copied for Change {
    fn copy(&self, alloc: Global) -> Result<Change, Memory> {
        match self {
            Change::Create { model, values } => Ok(Change::Create {
                model: model.copy(alloc)?,
                values: copy_list(alloc, values.as_slice())?,
            }),
            Change::Update { model, id, values } => Ok(Change::Update {
                model: model.copy(alloc)?,
                id: *id,
                values: copy_list(alloc, values.as_slice())?,
            }),
            Change::Destroy { model, id } => Ok(Change::Destroy {
                model: model.copy(alloc)?,
                id: *id,
            }),
            Change::Touch { model, id } => Ok(Change::Touch {
                model: model.copy(alloc)?,
                id: *id,
            }),
        }
    }
}

impl Copied for Commit {
    fn copy(&self, alloc: Global) -> Result<Commit, Memory> {
        Ok(Commit {
            author: self.author,
            serial: self.serial,
            moment: self.moment,
            changes: copy_list(alloc, self.changes.as_slice())?,
        })
    }
}
