//! Lists of objects.

ghost use Rattle.std.specs.Prelude.{◌≡◌, IfOk, reverse};
ghost use Rattle.f3_data.specs.References.{references_of};
ghost use Rattle.f3_control_steps.specs.Inner.Nexts.{TakenNext};

use f3_data::copies;
use f3_data::reference::Reference;
use std::alloc::{AllocError, Global};

/// Copies of references, the first at the end.
pub(crate) fn reversed(alloc: Global, objects: &[Reference]) -> Result<Vec<Reference>, AllocError>
    ensures { IfOk result (λ rs. references_of (reverse rs.items) ≡ references_of objects.now) }
{
    let mut all = copies::references(alloc, objects)?;
    all.reverse();
    Ok(all)
}

/// The next of some objects, the first at the end, which is taken.
pub(crate) fn next_of(objects: &mut Vec<Reference>) -> Option<Reference>
    ensures { TakenNext result objects.old.items objects.new.items }
{
    objects.pop()
}
