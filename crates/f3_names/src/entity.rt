//! Entities.

use f3_places::source::Place;
use f3_scopes::outline::EntityKind;

/// An entity: a name that a scope declares (ISO/IEC 1539-1:2004, 16.4.1). Names are the numbers that they have among those
/// of the program.
#[derive(Clone, Copy, PartialEq, Eq, Debug)]
pub struct Entity {
    /// The place of its name in its declaration.
    pub place: Place,
    pub kind: EntityKind,
    /// The number of the scope that declares it.
    pub scope: usize,
    /// The number of the scope of the module or main program that holds it.
    pub unit: usize,
    /// The name of that unit.
    pub home: usize,
    /// Its name in its declaration.
    pub original: usize,
    /// Whether a PROTECTED, attribute or statement, names it (5.1.2.12, 5.2.11).
    pub is_protected: bool,
}
