//! The rules on what one scope declares: names declared twice, access, PROTECTED, INTENT, dummies and results.
#![tactic(auto)]

ghost use Rattle.std.specs.Prelude.{map, IfOk};
ghost use Rattle.f3_rules.specs.Least.{Least};
ghost use Rattle.f3_scopes.specs.Outlines.{scope_view};
ghost use Rattle.f3_scope_rules.specs.ScopeBreaks.{BreaksOf, ScopeBreaks};

mod access;
mod again;
mod at;
mod intent;
pub mod laws;
mod names;
mod protected;
mod undeclared;

use crate::access::{first_access_outside, first_access_twice};
use crate::again::first_declared_twice;
use crate::intent::first_intent_misplaced;
use crate::names::declared_names;
use crate::protected::first_protected_misplaced;
use crate::undeclared::first_undeclared;
use f3_rules::breaks::{Break, earlier};
use f3_scopes::outline::Outline;
use std::alloc::{AllocError, Global};

/// The first break of one scope.
fn first_of_scope(alloc: Global, outline: &Outline) -> Result<Option<Break>, AllocError>
    ensures { IfOk result (λ first. Least first (BreaksOf (scope_view outline.now))) }
{
    let declared = declared_names(alloc, &outline.declared)?;
    let twice = first_declared_twice(alloc, outline, &declared)?;
    let access = earlier(
        first_access_outside(outline),
        first_access_twice(alloc, outline)?,
    );
    let protected = first_protected_misplaced(alloc, outline)?;
    let intent = first_intent_misplaced(alloc, outline)?;
    let undeclared = first_undeclared(alloc, outline, &declared)?;
    let attributes = earlier(earlier(access, protected), intent);
    Ok(earlier(earlier(twice, attributes), undeclared))
}

/// The first break of the rules on what each scope declares by itself (phase 4): a name declared twice (N3), PUBLIC or
/// PRIVATE outside a module (N5) or given twice (N6), PROTECTED (N8) and INTENT (N9) out of place, and a dummy argument
/// or a result that is not declared (N10).
///
/// AllocError: a growth of the host's memory was refused.
pub fn first_scope_break(alloc: Global, outlines: &[Outline]) -> Result<Option<Break>, AllocError>
    ensures { IfOk result (λ first. Least first (ScopeBreaks (map scope_view outlines.now))) }
{
    let mut first = None;
    for outline in outlines {
        first = earlier(first, first_of_scope(alloc, outline)?);
    }
    Ok(first)
}
