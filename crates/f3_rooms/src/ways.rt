//! Laws of ways to parts.

ghost use Rattle.f3_rooms.specs.Ways.{PartsHaveParts, OtherVariablesStand, OtherPartsStand, StaticsStand, LocalsStand};

/// A way goes on from the part that stands at its front.
pub fn parts_have_parts()
    ensures { PartsHaveParts }
{}

/// Where something else is held in a part, all others stand where they stood.
pub fn others_stand()
    ensures variables { OtherVariablesStand }
    ensures parts { OtherPartsStand }
{}

/// Each variable stands in the block of its room, behind those before it.
pub fn variables_stand()
    ensures statics { StaticsStand }
    ensures locals { LocalsStand }
{}
