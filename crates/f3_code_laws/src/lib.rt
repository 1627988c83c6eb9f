//! The laws that code does what its program means.
#![tactic(auto)]

ghost use Rattle.f3_code_laws.specs.Laws.{Compiles, Translates};

/// The code of every Core program does what the program means, both ways: the same bytes, changes of objects, stages, levels
/// and requests in one order, and the same end, whatever the bound on turns of loops and whatever the heap answers (own rule).
pub fn compiles()
    ensures { Compiles }
{}

/// The code of the Core of every program does what the program itself means, in the same way (own rule).
pub fn translates()
    ensures { Translates }
{}
