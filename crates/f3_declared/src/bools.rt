//! Tests that are joined.

ghost use Rattle.std.specs.Prelude.{◌≡◌, ◌&&◌, ◌||◌};

/// Whether one of two tests holds.
pub fn either(a: bool, b: bool) -> bool
    ensures { result ≡ a || b }
{
    a || b
}

/// Whether both of two tests hold.
pub fn both(a: bool, b: bool) -> bool
    ensures { result ≡ a && b }
{
    a && b
}
