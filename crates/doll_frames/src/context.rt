//! What the parts of a template are rendered in.

use doll_schema::Schema;
use doll_set::TemplateSet;

/// What the parts of a template are rendered in.
#[derive(Drop)]
pub struct Context<'a> {
    /// The templates, among which are the partials.
    pub set: &'a TemplateSet,
    pub schema: &'a Schema,
    /// The moment of the last commit before the table, which is the origin of what is written.
    pub moment: u64,
    /// The number of the set.
    pub tree: u32,
    /// The number of the template.
    pub number: usize,
    /// How many levels of partials may follow.
    pub levels: usize,
}
