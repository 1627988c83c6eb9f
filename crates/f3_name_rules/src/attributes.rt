//! The rule on attributes of names that a USE brings.

ghost use Rattle.std.specs.Prelude.{◌≡◌};
ghost use Rattle.std.specs.List.{flat_map};
ghost use Rattle.f3_rules.specs.Least.{first_of};
ghost use Rattle.f3_name_rules.specs.Inner.Rows.{attribute_row, declared_row, attributes_row};

use f3_access::table::Tables;
use f3_access::used;
use f3_breaks::{at, first_among};
use f3_rules::breaks::{Break, earlier};
use f3_rules::rule::Rule;
use f3_scopes::outline::{Declared, Outline};
use f3_tree::expression::Name;

/// The break at a name that the scope of this number gives an attribute.
fn at_attribute(tables: &Tables, number: usize, name: &Name) -> Option<Break>
    ensures { result ≡ first_of (attribute_row tables.now number name.now) }
{
    if used(tables, number, name.symbol) {
        Some(at(4, Rule::N4, *name))
    } else {
        None
    }
}

/// The first break at a declared name.
fn first_in_declared(tables: &Tables, number: usize, declared: &[Declared]) -> Option<Break>
    ensures { result ≡ first_of (flat_map (declared_row tables.now number) declared.now) }
{
    first_among(
        declared,
        |declaration| at_attribute(tables, number, &declaration.name),
    )
}

/// The first break at a name of a PROTECTED statement.
fn first_in_protects(tables: &Tables, number: usize, protects: &[Name]) -> Option<Break>
    ensures { result ≡ first_of (flat_map (attribute_row tables.now number) protects.now) }
{
    first_among(protects, |name| at_attribute(tables, number, name))
}

/// The first declaration or PROTECTED, in the scope of this number, of a name that a USE of the scope brings (N4).
pub fn first_in_attributes(tables: &Tables, number: usize, outline: &Outline) -> Option<Break>
    ensures { result ≡ first_of (attributes_row tables.now number outline.now) }
{
    let declared = first_in_declared(tables, number, &outline.declared);
    let protects = first_in_protects(tables, number, &outline.protects);
    earlier(declared, protects)
}
