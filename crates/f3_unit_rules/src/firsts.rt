//! The first entity of each scope.

ghost use Rattle.std.specs.Prelude.{◌≡◌, ◌<◌, ◌^◌, map, length, IfOk};
ghost use Rattle.f3_access.specs.Access.{entities_of};
ghost use Rattle.f3_scopes.specs.Outlines.{scope_view};
ghost use Rattle.f3_part_rules.specs.Members.{AreFirsts};

use f3_scopes::outline::Outline;
use std::alloc::{AllocError, Global};

/// The entity that each scope declares first, by the numbers of the scopes: entities are numbered from 0, scope by scope.
///
/// # Errors
///
/// Where memory runs out.
pub fn firsts(alloc: Global, outlines: &[Outline]) -> Result<Vec<usize>, AllocError>
    requires { length (entities_of (map scope_view outlines.now)) < 2 ^ 64 }
    ensures each { IfOk result (λ v. AreFirsts (map scope_view outlines.now) v.items) }
    ensures count { IfOk result (λ v. length v.items ≡ length outlines.now) }
{
    let mut found = Vec::new(alloc);
    let mut next = 0;
    for outline in outlines {
        found.push(next)?;
        next += outline.declared.len();
    }
    Ok(found)
}
