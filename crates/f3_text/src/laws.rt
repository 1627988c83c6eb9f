//! Laws on cuts.

ghost use Rattle.f3_text.specs.Laws.{NoneIsLong, StandInOrder};

/// Where no text has a fault, no source is past the limit on sources.
pub fn none_is_long()
    ensures { NoneIsLong }
{}

/// The bytes of statements stand in order of place, and a fault behind all that stand before it: the first fault is
/// the least.
pub fn stand_in_order()
    ensures { StandInOrder }
{}
