//! How much a schema may hold.

/// How many models.
pub const MOST_MODELS: u32 = 32;

/// How many attributes of a model.
pub const MOST_ATTRIBUTES: u32 = 32;

/// How many associations of a model to parents.
pub const MOST_PARENTS: u32 = 8;

/// How many associations of a model to children.
pub const MOST_MANYS: u32 = 8;
