//! Laws of what the calls on objects do to a store.

ghost use Rattle.f3_room_objects.specs.Changes.{EqualTreesAreEqual, PartsAreReady, CopiesArePut, FreedPartsAreCleared, ClearedPartsAreBlank, MovesAreMoves};

/// A tree tells the value of a part.
pub fn equal_trees_are_equal()
    ensures { EqualTreesAreEqual }
{}

/// A copy of a part has its value.
pub fn copies_are_put()
    ensures ready { PartsAreReady }
    ensures copied { CopiesArePut }
{}

/// Where the blocks beneath a part are given back, nothing is allocated in it (ISO/IEC 1539-1:2004, 6.3.3.1).
pub fn freed_parts_are_cleared()
    ensures { FreedPartsAreCleared }
{}

/// Zeros at a part in which nothing is held are its blank value.
pub fn cleared_parts_are_blank()
    ensures { ClearedPartsAreBlank }
{}

/// What an allocatable holds goes over to another that stands apart (13.7.82).
pub fn moves_are_moves()
    ensures { MovesAreMoves }
{}
