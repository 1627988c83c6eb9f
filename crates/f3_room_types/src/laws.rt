//! Laws of layouts of types.

ghost use Rattle.f3_room_types.specs.Laws.{LayoutsHaveTheirWords};

/// An object has as many words by the layout of its type as by its table.
pub fn layouts_have_their_words()
    ensures { LayoutsHaveTheirWords }
{}
