//! Modules by name.

ghost use Rattle.std.specs.Prelude.{◌≡◌, ℕ, IfOk, map, nat_eq, None};
ghost use Rattle.indexmap.specs.IndexMap.{get};
ghost use Rattle.f3_scopes.specs.Outlines.{scope_view};
ghost use Rattle.f3_selecting.specs.Sources.{module_from};

use f3_scopes::outline::{Outline, ScopeKind};
use indexmap::IndexMap;
use std::alloc::{AllocError, Global};

/// The number of each module, by its name.
pub fn modules_by_name(
    alloc: Global,
    outlines: &[Outline],
) -> Result<IndexMap<usize, usize>, AllocError>
    ensures { IfOk result (λ m. (s : ℕ) → get nat_eq m s ≡ module_from None 0 (map scope_view outlines.now) s) }
{
    let mut modules = IndexMap::new(alloc);
    for (number, outline) in outlines.iter().enumerate() {
        match outline.kind {
            ScopeKind::Module => {
                modules.insert(outline.name.symbol, number)?;
            }
            ScopeKind::Program => {}
            ScopeKind::Subroutine => {}
            ScopeKind::Function => {}
            ScopeKind::Associate => {}
        }
    }
    Ok(modules)
}
