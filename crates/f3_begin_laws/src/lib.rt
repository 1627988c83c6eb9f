//! Laws of beginnings: what a procedure does with its dummies before its first statement.
#![tactic(auto)]

ghost use Rattle.f3_begin_laws.specs.Laws.{DummiesAreLaid, DummiesArePassed, DummiesBegin};

/// The objects of dummies are laid on top, and one that asks for nothing is passed by.
pub fn dummies_are_passed()
    ensures laid { DummiesAreLaid }
    ensures passed { DummiesArePassed }
{}

/// A dummy that is INTENT(OUT) takes the value with which objects of its type begin.
pub fn dummies_begin()
    ensures { DummiesBegin }
{}
