//! What is known of a whole program.

ghost use Rattle.std.specs.Prelude.{◌≡◌};
ghost use Rattle.f3_declaration_nodes.specs.Tables.{place};

use f3_declared::scenery::Scenery;
use f3_numbers::numbers::Numbers;
use f3_typed_parts::known::{Known, Position};

/// What is known of a whole program behind its specification parts: what its names mean, the values of its named constants, and the
/// numbers of its entities.
#[derive(Clone, Copy)]
pub struct Whole<'a> {
    pub known: &'a Known<'a>,
    pub scenery: Scenery<'a>,
    pub numbers: &'a Numbers,
}

/// A place in a scope of a unit, where all named constants have their values.
pub fn place(unit: usize, scope: usize) -> Position
    ensures { result ≡ place unit scope }
{
    Position {
        scope,
        unit,
        phase: 6,
    }
}
