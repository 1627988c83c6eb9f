//! Laws on the parts of a program and on what its tables of names find.

ghost use Rattle.f3_distinct_laws.specs.Laws.{LookedUpIsEntity, PartsAreDistinct};

/// In a program that breaks no rule on names no two components of a type have one name, nor two dummies of a procedure.
pub fn parts_are_distinct()
    ensures { PartsAreDistinct }
{}

/// What the tables of names find alone under a name is an entity of the program, by its number.
pub fn looked_up_is_entity()
    ensures { LookedUpIsEntity }
{}
