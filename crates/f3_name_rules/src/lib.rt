//! The rules on names: what USE may name, what may be declared, and what names may be referred to.
#![tactic(auto)]

mod attributes;
mod mentions;
mod uses;

ghost use Rattle.std.specs.Prelude.{◌≡◌, map, string_bytes, IfOk};
ghost use Rattle.f3_rules.specs.Least.{first_of, Least};
ghost use Rattle.f3_scopes.specs.Outlines.{scope_view};
ghost use Rattle.f3_access.specs.Tables.{AreTables};
ghost use Rattle.f3_name_rules.specs.Intrinsics.{is_intrinsic};
ghost use Rattle.f3_name_rules.specs.NameBreaks.{NameBreaks};
ghost use Rattle.f3_name_rules.specs.Inner.Rows.{scope_row, scopes_row};

use attributes::first_in_attributes;
use f3_access::table::Tables;
use f3_rules::breaks::{Break, earlier};
use f3_scope_rules::first_scope_break;
use f3_scopes::outline::Outline;
use indexmap::IndexSet;
use mentions::first_in_mentions;
use std::alloc::{AllocError, Global};
use uses::first_in_uses;

/// Whether a name in lower case is that of an intrinsic procedure (13.7).
#[tactic(auto, unfolding(crate::specs::Intrinsics::is_intrinsic))]
pub fn is_intrinsic(name: &str) -> bool
    ensures { result ≡ is_intrinsic name.now }
{
    name == "abs"
        || name == "mod"
        || name == "modulo"
        || name == "max"
        || name == "min"
        || name == "size"
        || name == "lbound"
        || name == "ubound"
        || name == "allocated"
        || name == "move_alloc"
}

/// The first break in one scope of the rules on what is visible there.
fn first_in_scope(
    tables: &Tables,
    names: &IndexSet<String>,
    number: usize,
    outline: &Outline,
) -> Option<Break>
    ensures { result ≡ first_of (scope_row tables.now (map string_bytes names.now.keys) number outline.now) }
{
    let uses = first_in_uses(tables, &outline.uses);
    let attributes = first_in_attributes(tables, number, outline);
    let mentions = first_in_mentions(tables, names, number, outline);
    earlier(uses, earlier(attributes, mentions))
}

/// The first break of the rules on what is visible in the scopes.
fn first_access_break(
    outlines: &[Outline],
    tables: &Tables,
    names: &IndexSet<String>,
) -> Option<Break>
    ensures { result ≡ first_of (scopes_row tables.now (map string_bytes names.now.keys) 0 outlines.now) }
{
    let mut first = None;
    for (number, outline) in outlines.iter().enumerate() {
        first = earlier(first, first_in_scope(tables, names, number, outline));
    }
    first
}

/// The first break of the rules on names (phases 3 and 4), from the outlines of all scopes, their tables, and the texts of
/// the names in lower case: a use-name that its module does not have (N1) or keeps private (N2); a declaration or
/// PROTECTED of a name that a USE brings (N4); an access to no entity (N7); a reference to a name that nothing has (N10) or
/// that several entities have (N11); and what each scope breaks by itself (N3, N5, N6, N8, N9, N10).
///
/// AllocError: a growth of the host's memory was refused.
pub fn first_name_break(
    alloc: Global,
    outlines: &[Outline],
    tables: &Tables,
    names: &IndexSet<String>,
) -> Result<Option<Break>, AllocError>
    requires { AreTables (map scope_view outlines.now) tables.now }
    ensures { IfOk result (λ first. Least first (NameBreaks (map scope_view outlines.now) (map string_bytes names.now.keys))) }
{
    let in_scopes = first_scope_break(alloc, outlines)?;
    Ok(earlier(in_scopes, first_access_break(outlines, tables, names)))
}
