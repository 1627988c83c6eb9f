//! What the entities of a program were declared as.

ghost use Rattle.std.specs.Prelude.{◌≡◌, ◌++◌, map, IfOk, OnOk};
ghost use Rattle.f3_access.specs.Access.{entities_of};
ghost use Rattle.f3_scopes.specs.Outlines.{own_view, scope_view};

use f3_scopes::outline::{Declared, EntityKind, Outline};
use std::alloc::{AllocError, Global};

fn add_kinds(found: &mut Vec<EntityKind>, list: &[Declared]) -> Result<(), AllocError>
    ensures { OnOk result (found.new.items ≡ found.old.items ++ map (λ d. d.kind) (map own_view list.now)) }
{
    for declared in list {
        found.push(declared.kind)?;
    }
    Ok(())
}

/// What each entity was declared as, by its number.
pub fn kinds(alloc: Global, outlines: &[Outline]) -> Result<Vec<EntityKind>, AllocError>
    ensures { IfOk result (λ v. v.items ≡ map (λ d. d.kind) (entities_of (map scope_view outlines.now))) }
{
    let mut found = Vec::new(alloc);
    for outline in outlines {
        add_kinds(&mut found, &outline.declared)?;
    }
    Ok(found)
}
