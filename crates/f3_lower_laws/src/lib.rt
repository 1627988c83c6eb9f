//! The law that Core keeps what a program means.
#![tactic(auto)]

ghost use Rattle.f3_lower_laws.specs.Lowers.{Lowers};

/// The Core of every program has the very run of the program, with all that happens in it and its end, whatever the
/// bound on turns of loops and whatever the heap answers.
pub fn lowers()
    ensures { Lowers }
{}
