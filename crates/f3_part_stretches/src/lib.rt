//! Stretches that assign to scalar parts of objects to which acts refer, at any depth of what allocatable components hold.
#![tactic(auto)]

ghost use Rattle.f3_part_stretches.specs.Laws.{PartsTakeOn};

/// A scalar part of an object to which a reference leads takes a value (ISO/IEC 1539-1:2004, 7.4.1.3).
pub fn parts_take_on()
    ensures { PartsTakeOn }
{}
