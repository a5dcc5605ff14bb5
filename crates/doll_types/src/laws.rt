//! What types promise of values: laws that later layers use.

ghost use Rattle.doll_types.specs.Reachings.{CallsAreDependencies};
ghost use Rattle.doll_types.specs.Sound.{BoundHaveTypes, ItemsHaveTypes, LocalsHaveTypes, PrintedAreSingle, ValuesHaveTypes, WalkedAreLists};

/// In a table that fits the schema, where the variables have their types, the value of a typed expression has its type.
pub fn values_have_types()
    ensures { ValuesHaveTypes }
{}

/// What a render hands on has the types of the partial's typing.
pub fn locals_have_types()
    ensures { LocalsHaveTypes }
{}

/// A variable that is bound with a value of its type leaves the others theirs.
pub fn bound_have_types()
    ensures { BoundHaveTypes }
{}

/// The items of a list have the type of its items.
pub fn items_have_types()
    ensures { ItemsHaveTypes }
{}

/// What has a type whose items have one is a list or nil.
pub fn walked_are_lists()
    ensures { WalkedAreLists }
{}

/// What has a type that prints is neither a record nor a list.
pub fn printed_are_single()
    ensures { PrintedAreSingle }
{}

/// Each partial that a template renders is one of those that it depends on.
pub fn calls_are_dependencies()
    ensures { CallsAreDependencies }
{}
