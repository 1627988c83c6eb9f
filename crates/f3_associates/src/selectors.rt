//! The selectors of a construct, and what they make of its associate names.

ghost use Rattle.std.specs.Prelude.{◌≡◌, ◌++◌, map, IfOk, OnOk};
ghost use Rattle.std.specs.List.{flat_map};
ghost use Rattle.f3_tree.specs.Statements.{association_view};
ghost use Rattle.f3_type_rules.specs.Associates.{entities_at, associated};
ghost use Rattle.f3_type_rules.specs.Bodies.{selector_rows};
ghost use Rattle.f3_typed_parts.specs.Noted.{noted};
ghost use Rattle.f3_sites.specs.Sites.{site_of};
ghost use Rattle.f3_associates.specs.Known.{IsSettled, AreKnown};
ghost use Rattle.f3_associates.specs.Inner.Said.{with_said};

use f3_access::lookup;
use f3_kinds::said::Said;
use f3_lookups::lookup::Lookup;
use f3_rules::breaks::Break;
use f3_sites::site::Site;
use f3_tree::statement::Association;
use f3_typing::typing::expression;
use std::alloc::{AllocError, Global};

/// Adds the entity of an associate name, if it has one, with what is said of its selector.
fn add_said(names: &mut Vec<(usize, Said)>, found: Lookup, said: Said) -> Result<(), AllocError>
    ensures { OnOk result (names.new.items ≡ names.old.items ++ map (with_said said) (entities_at found)) }
{
    match found {
        Lookup::One(entity) => {
            names.push((entity, said))?;
            Ok(())
        }
        Lookup::Nothing => Ok(()),
        Lookup::Several => Ok(()),
    }
}

/// The associate names of the construct of this number, each by its entity with what is said of its selector, in the order
/// written; the first break of the selectors is noted. They are resolved outside of the construct (ISO/IEC 1539-1:2004, 16.3).
///
/// `AllocError` where memory runs out.
pub fn selectors(
    alloc: Global,
    site: &Site<'_>,
    first: &mut Option<Break>,
    number: usize,
    list: &[Association],
) -> Result<Vec<(usize, Said)>, AllocError>
    ensures names { IfOk result (λ v. v.items ≡ flat_map (associated (site_of site.now).context number) (map association_view list.now)) }
    ensures noted { OnOk result (first.new ≡ noted first.old (selector_rows (site_of site.now) (map association_view list.now))) }
    ensures known { IfOk result (λ v. IsSettled (site_of site.now) → AreKnown (site_of site.now) v.items) }
{
    let mut names = Vec::new(alloc);
    for association in list {
        let said = expression(alloc, &site.known, site.at, first, &association.selector)?;
        let found = lookup(site.known.tables, number, association.name.symbol);
        add_said(&mut names, found, said)?;
    }
    Ok(names)
}
