//! What a scope exports of what it has.

ghost use Rattle.std.specs.Prelude.{◌≡◌, [], not, IfOk, filter, if◌then◌else◌};
ghost use Rattle.f3_scopes.specs.Kinds.{is_module};
ghost use Rattle.f3_selecting.specs.Private.{makes_private};

use f3_lookups::lookup::Visible;
use f3_scopes::outline::ScopeKind;
use f3_selecting::choosing::{Accesses, is_private};
use std::alloc::{AllocError, Global};

/// Those of the pairs whose names are not private.
fn public_pairs(
    alloc: Global,
    accesses: &Accesses,
    own: &[Visible],
) -> Result<Vec<Visible>, AllocError>
    ensures { IfOk result (λ v. v.items ≡ filter (λ w. not (makes_private accesses.now w.symbol)) own.now) }
{
    let mut exports = Vec::new(alloc);
    for pair in own {
        if !is_private(accesses, pair.symbol) {
            exports.push(*pair)?;
        }
    }
    Ok(exports)
}

/// What a scope that has these pairs of its own exports: nothing if it is no module.
pub fn exported(
    alloc: Global,
    kind: ScopeKind,
    accesses: &Accesses,
    own: &[Visible],
) -> Result<Vec<Visible>, AllocError>
    ensures { IfOk result (λ v. v.items ≡ (if is_module kind then filter (λ w. not (makes_private accesses.now w.symbol)) own.now else [])) }
{
    match kind {
        ScopeKind::Module => public_pairs(alloc, accesses, own),
        ScopeKind::Program => Ok(Vec::new(alloc)),
        ScopeKind::Subroutine => Ok(Vec::new(alloc)),
        ScopeKind::Function => Ok(Vec::new(alloc)),
        ScopeKind::Associate => Ok(Vec::new(alloc)),
    }
}
