//! What is told of types, settled.

ghost use Rattle.std.specs.Prelude.{◌≡◌, map, length, OnOk};
ghost use Rattle.f3_typed_parts.specs.Known.{nature_of};
ghost use Rattle.f3_type_rules.specs.Natures.{marked, settled};
ghost use Rattle.f3_finalizable.specs.Inner.Marks.{with_flag};

use crate::marks::marks;
use f3_kinds::things::Thing;
use std::alloc::{AllocError, Global};

/// Writes whether a type is finalizable.
fn tell(thing: &mut Thing, is_finalizable: bool)
    ensures { nature_of thing.new ≡ with_flag is_finalizable (nature_of thing.old) }
{
    match thing {
        Thing::Type(table) => table.is_finalizable = is_finalizable,
        Thing::Constant(_) => (),
        Thing::Variable(_) => (),
        Thing::Subroutine(_) => (),
        Thing::Function(_, _) => (),
    }
}

/// Writes of each type whether it is finalizable.
fn tell_all(things: &mut Vec<Thing>, marks: &[bool])
    requires { length marks.now ≡ length things.old.items }
    ensures { map nature_of things.new.items ≡ marked marks.now (map nature_of things.old.items) }
{
    for entity in 0..marks.len() {
        tell(&mut things[entity], marks[entity]);
    }
}

/// Tells of each type whether a value of it is finalized somewhere, where so far it is told whether it has a final
/// subroutine of its own (own rule). Memory: a growth of the host's memory was refused.
pub fn settle(alloc: Global, things: &mut Vec<Thing>) -> Result<(), AllocError>
    ensures { OnOk result (map nature_of things.new.items ≡ settled (map nature_of things.old.items)) }
{
    let marks = marks(alloc, things)?;
    tell_all(things, &marks);
    Ok(())
}
