//! The rules on names that a scope refers to or gives an access.

ghost use Rattle.std.specs.Prelude.{◌≡◌, map, string_bytes};
ghost use Rattle.std.specs.List.{flat_map};
ghost use Rattle.f3_rules.specs.Least.{first_of};
ghost use Rattle.f3_scopes.specs.Kinds.{is_module};
ghost use Rattle.f3_name_rules.specs.Intrinsics.{is_intrinsic};
ghost use Rattle.f3_name_rules.specs.NameBreaks.{text_of};
ghost use Rattle.f3_name_rules.specs.Inner.Rows.{listed_row, access_row, accesses_row, reference_row, mentions_row};

use crate::is_intrinsic;
use f3_access::lookup;
use f3_access::table::Tables;
use f3_breaks::{at, first_among};
use f3_lookups::lookup::Lookup;
use f3_rules::breaks::{Break, earlier};
use f3_rules::rule::Rule;
use f3_scopes::outline::{AccessOutline, Outline, ScopeKind};
use f3_tree::expression::Name;
use indexmap::IndexSet;

/// The break at a name in the list of a PUBLIC or PRIVATE.
fn at_listed(tables: &Tables, number: usize, name: &Name) -> Option<Break>
    ensures { result ≡ first_of (listed_row tables.now number name.now) }
{
    match lookup(tables, number, name.symbol) {
        Lookup::Nothing => Some(at(4, Rule::N7, *name)),
        Lookup::One(_) | Lookup::Several => None,
    }
}

/// The first break in the list of a PUBLIC or PRIVATE.
fn first_in_list(tables: &Tables, number: usize, names: &[Name]) -> Option<Break>
    ensures { result ≡ first_of (flat_map (listed_row tables.now number) names.now) }
{
    first_among(names, |name| at_listed(tables, number, name))
}

/// The first break in access statements.
fn first_in_accesses(tables: &Tables, number: usize, statements: &[AccessOutline]) -> Option<Break>
    ensures { result ≡ first_of (flat_map (access_row tables.now number) statements.now) }
{
    first_among(
        statements,
        |statement| first_in_list(tables, number, &statement.names),
    )
}

/// The first break in the access statements of a module; elsewhere they have none of this rule.
fn first_in_module(tables: &Tables, number: usize, outline: &Outline) -> Option<Break>
    ensures { result ≡ first_of (accesses_row tables.now number (is_module outline.now.kind) outline.now.accesses.items) }
{
    match outline.kind {
        ScopeKind::Module => first_in_accesses(tables, number, &outline.accesses),
        ScopeKind::Program | ScopeKind::Subroutine | ScopeKind::Function | ScopeKind::Associate =>
            None,
    }
}

/// Whether the name of this number is that of an intrinsic procedure.
fn names_intrinsic(names: &IndexSet<String>, symbol: usize) -> bool
    ensures { result ≡ is_intrinsic (text_of (map string_bytes names.now.keys) symbol) }
{
    match names.get_index(symbol) {
        Some(name) => is_intrinsic(name.as_str()),
        None => false,
    }
}

/// The break at a reference.
fn at_reference(
    tables: &Tables,
    names: &IndexSet<String>,
    number: usize,
    name: &Name,
) -> Option<Break>
    ensures { result ≡ first_of (reference_row tables.now (map string_bytes names.now.keys) number name.now) }
{
    match lookup(tables, number, name.symbol) {
        Lookup::One(_) => None,
        Lookup::Several => Some(at(4, Rule::N11, *name)),
        Lookup::Nothing => {
            if names_intrinsic(names, name.symbol) {
                None
            } else {
                Some(at(4, Rule::N10, *name))
            }
        }
    }
}

/// The first break at a reference.
fn first_in_references(
    tables: &Tables,
    names: &IndexSet<String>,
    number: usize,
    references: &[Name],
) -> Option<Break>
    ensures { result ≡ first_of (flat_map (reference_row tables.now (map string_bytes names.now.keys) number) references.now) }
{
    first_among(references, |name| at_reference(tables, names, number, name))
}

/// The first name that the scope of this number gives an access although nothing has it there (N7), or refers to although
/// nothing has it (N10) or several entities have it (N11).
pub fn first_in_mentions(
    tables: &Tables,
    names: &IndexSet<String>,
    number: usize,
    outline: &Outline,
) -> Option<Break>
    ensures { result ≡ first_of (mentions_row tables.now (map string_bytes names.now.keys) number outline.now) }
{
    let accesses = first_in_module(tables, number, outline);
    let references = first_in_references(tables, names, number, &outline.references);
    earlier(accesses, references)
}
