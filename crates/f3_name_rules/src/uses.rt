//! The rules on what USE may name.

ghost use Rattle.std.specs.Prelude.{◌≡◌, ◌∷◌, [], if◌then◌else◌};
ghost use Rattle.std.specs.List.{flat_map};
ghost use Rattle.f3_rules.specs.Least.{first_of};
ghost use Rattle.f3_rules.specs.declared.rule.Rule.TheVariants.{N2};
ghost use Rattle.f3_access.specs.Tables.{private_of};
ghost use Rattle.f3_breaks.specs.At.{at};
ghost use Rattle.f3_name_rules.specs.Inner.Rows.{item_row, use_row};

use f3_access::table::Tables;
use f3_access::{is_private, lookup, module};
use f3_breaks::{at, first_among};
use f3_lookups::lookup::Lookup;
use f3_rules::breaks::Break;
use f3_rules::rule::Rule;
use f3_scopes::outline::{UseItem, UseOutline};
use f3_tree::expression::Name;

/// The break at a use-name that the module of this number has.
fn at_private(tables: &Tables, source: usize, name: Name) -> Option<Break>
    ensures { result ≡ first_of (if private_of tables.now source name.symbol then at 3 N2 name ∷ [] else []) }
{
    if is_private(tables, source, name.symbol) {
        Some(at(3, Rule::N2, name))
    } else {
        None
    }
}

/// The break at an item of a USE of the module of this number.
fn at_item(tables: &Tables, source: usize, item: &UseItem) -> Option<Break>
    ensures { result ≡ first_of (item_row tables.now source item.now) }
{
    match lookup(tables, source, item.original.symbol) {
        Lookup::Nothing => Some(at(3, Rule::N1, item.original)),
        Lookup::One(_) | Lookup::Several => at_private(tables, source, item.original),
    }
}

/// The first break in the items of a USE of the module of this number.
fn first_in_items(tables: &Tables, source: usize, items: &[UseItem]) -> Option<Break>
    ensures { result ≡ first_of (flat_map (item_row tables.now source) items.now) }
{
    first_among(items, |item| at_item(tables, source, item))
}

/// The first break in a USE.
fn first_in_use(tables: &Tables, outline: &UseOutline) -> Option<Break>
    ensures { result ≡ first_of (use_row tables.now outline.now) }
{
    match module(tables, outline.module.symbol) {
        Some(source) => first_in_items(tables, source, &outline.items),
        None => None,
    }
}

/// The first use-name that its module does not have (N1) or keeps private (N2).
pub fn first_in_uses(tables: &Tables, uses: &[UseOutline]) -> Option<Break>
    ensures { result ≡ first_of (flat_map (use_row tables.now) uses.now) }
{
    first_among(uses, |outline| first_in_use(tables, outline))
}
