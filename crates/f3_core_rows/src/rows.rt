//! Programs, and what their Core prints and how it ends, computed from the meaning of Core: nothing here is called by f3.
//! The expected answers are those of the language's rules, as for the meaning of the source.

ghost use Rattle.f3_core_rows.specs.Control.{ControlShows};
ghost use Rattle.f3_core_rows.specs.Destroying.{DestroyingShows};
ghost use Rattle.f3_core_rows.specs.Shape.{CoreStands, ObjectsStand};

/// Objects that are destroyed, deallocated, assigned and moved: these programs print this and end so.
pub fn destroying_shows()
    ensures { DestroyingShows }
{}

/// Constructs, calls, STAT and refusals of the heap: these programs print this and end so.
pub fn control_shows()
    ensures { ControlShows }
{}

/// What the Core of a program is.
pub fn core_stands()
    ensures { CoreStands }
{}

/// What is done to objects that go, by what their types have.
pub fn objects_stand()
    ensures { ObjectsStand }
{}
