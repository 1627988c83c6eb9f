//! Dummy arguments and results that are not declared.

ghost use Rattle.std.specs.Prelude.{◌≡◌, ◌++◌, IfOk, option_to_list};
ghost use Rattle.f3_rules.specs.Least.{Least};
ghost use Rattle.f3_scopes.specs.Outlines.{scope_view};
ghost use Rattle.f3_scope_rules.specs.ScopeBreaks.{declared_names, Undeclared};
ghost use Rattle.f3_breaks.specs.Among.{Among};
ghost use Rattle.f3_scope_rules.specs.Inner.Rows.{Missing};

use crate::at::break_at;
use crate::names::{is_known, symbols};
use f3_breaks::first_among;
use f3_rules::breaks::Break;
use f3_rules::rule::Rule;
use f3_scopes::outline::Outline;
use f3_tree::expression::Name;
use indexmap::IndexSet;
use std::alloc::{AllocError, Global};

/// The first of these names that is not in the set.
fn first_missing(declared: &IndexSet<usize>, names: &[Name]) -> Option<Break>
    ensures { Least result (Among (Missing declared.now.keys) names.now) }
{
    first_among(
        names,
        |name| break_at(!is_known(declared, name), Rule::N10, name),
    )
}

/// The names of a header that are to be declared: the dummy arguments and the result.
fn expected(alloc: Global, outline: &Outline) -> Result<Vec<Name>, AllocError>
    ensures { IfOk result (λ v. v.items ≡ outline.now.dummies.items ++ option_to_list outline.now.result) }
{
    let mut names = Vec::new(alloc);
    names.extend_from_slice(&outline.dummies)?;
    if let Some(name) = outline.result {
        names.push(name)?;
    }
    Ok(names)
}

/// The first dummy argument or result that its procedure does not declare.
pub fn first_undeclared(
    alloc: Global,
    outline: &Outline,
    declared: &[Name],
) -> Result<Option<Break>, AllocError>
    requires names { declared.now ≡ declared_names (scope_view outline.now) }
    ensures { IfOk result (λ first. Least first (Undeclared (scope_view outline.now))) }
{
    let names = expected(alloc, outline)?;
    let declared = symbols(alloc, declared)?;
    Ok(first_missing(&declared, &names))
}
