//! What is known of the entities of a program before its declarations are checked.

use f3_scopes::outline::EntityKind;
use f3_type_rules::definition::Holder;

/// What never changes along the declarations of a program, by entity.
#[derive(Clone, Copy)]
pub struct Scenery<'a> {
    /// What each entity was declared as.
    pub kinds: &'a [EntityKind],
    /// What the rules on definitions ask of it: its scope among others.
    pub holders: &'a [Holder],
}
