//! Values, records and what a variable of a template may hold.

use doll_text::{Copied, Ids, Items, Memory, Name, Shared, Text};
use std::alloc::Global;

/// A single value.
#[derive(Drop)]
pub enum Value {
    Nil,
    Bool(bool),
    Int(i64),
    Text(Text),
}

pub type Values = Items<Value>;

/// The foreign keys of a record, nil where it has no such parent.
pub type ParentIds = Items<Option<u32>>;

/// A record, without its model and its id.
#[derive(Drop)]
pub struct Row {
    /// In the order of the model's attributes. A copy of the record shares them.
    pub values: Shared<Values>,
    /// In the order of the model's associations to a parent.
    pub parents: ParentIds,
    /// The moment of the last commit that changed or touched the record, in microseconds.
    pub updated_at: u64,
}

/// What a variable or an expression of a template may be.
#[derive(Drop)]
pub enum Val {
    Plain(Value),
    Record { model: u16, id: u32 },
    List { model: u16, ids: Ids },
}

/// Variables with their values. Of one name the last stands. `copy` makes an equal list.
pub type Vars = Items<(Name, Val)>;

impl Copied for Value {
    fn copy(&self, alloc: Global) -> Result<Value, Memory> {
        match self {
            Value::Nil => Ok(Value::Nil),
            Value::Bool(value) => Ok(Value::Bool(*value)),
            Value::Int(value) => Ok(Value::Int(*value)),
            Value::Text(text) => Ok(Value::Text(text.copy(alloc)?)),
        }
    }
}

impl Copied for Row {
    fn copy(&self, alloc: Global) -> Result<Row, Memory> {
        Ok(Row {
            values: self.values.copy(alloc)?,
            parents: Items::from_slice(alloc, self.parents.as_slice())?,
            updated_at: self.updated_at,
        })
    }
}

impl Copied for Val {
    fn copy(&self, alloc: Global) -> Result<Val, Memory> {
        match self {
            Val::Plain(value) => Ok(Val::Plain(value.copy(alloc)?)),
            Val::Record { model, id } => Ok(Val::Record {
                model: *model,
                id: *id,
            }),
            Val::List { model, ids } => Ok(Val::List {
                model: *model,
                ids: ids.copy(alloc)?,
            }),
        }
    }
}
