//! What is known of names before what their entities are.

use f3_access::table::Tables;
use f3_kinds::things::Intrinsic;
use f3_scopes::outline::EntityKind;

/// What is known of the names of a program before what each entity is.
#[derive(Drop)]
pub struct Names<'a> {
    /// What each scope sees.
    pub tables: &'a Tables,
    /// What each entity was declared as, by its number.
    pub kinds: Vec<EntityKind>,
    /// The intrinsic procedure of each name, by the number of the name.
    pub intrinsics: Vec<Option<Intrinsic>>,
    /// The names of the dummies FROM and TO of MOVE_ALLOC.
    pub moving: (usize, usize),
}
