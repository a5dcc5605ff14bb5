//! Models, their attributes and associations, and the values of their records.
#![tactic(auto)]

mod draft;
mod drafting;
pub mod escaping;
pub mod fault;
pub mod json;
pub mod limits;
mod linking;
pub mod model;
pub mod value;

pub use escaping::{escape, escape_bytes};
pub use fault::{Part, Place, SchemaFault};
pub use model::{
    Attribute, Attributes, BelongsTo, HasMany, Kind, Manys, Model, Models, Parents, Schema,
};
pub use value::{ParentIds, Row, Val, Value, Values, Vars};
