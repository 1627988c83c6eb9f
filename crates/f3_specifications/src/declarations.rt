//! Declarations, one name after the other (5.1).

ghost use Rattle.std.specs.Prelude.{◌≡◌, ◌+◌, ◌≤◌, false, map, length, option_map, vec_len, OnOk};
ghost use Rattle.f3_tree.specs.Declarations.{shape_view, entity_view, declaration_view};
ghost use Rattle.f3_typed_parts.specs.Known.{context_of};
ghost use Rattle.f3_typed_parts.specs.Noted.{noted};
ghost use Rattle.f3_type_rules.specs.Scene.{Scene};
ghost use Rattle.f3_type_rules.specs.Walks.{after, along, Known as Grown};
ghost use Rattle.f3_type_rules.specs.Declarations.{entity_rows, entity_next, declaration_rows};
ghost use Rattle.f3_declared.specs.Declarations.{IsRead, tree_of};
ghost use Rattle.f3_declared.specs.Spots.{spot_in};
ghost use Rattle.f3_extents.specs.Extents.{extents_of};
ghost use Rattle.f3_entities.specs.Growth.{Stands, position_of};

use f3_declared::attributes::{Reading, read};
use f3_declared::specifiers::specifier;
use f3_declared::spots::Spot;
use f3_entities::entities::entity;
use f3_entities::growing::declare;
use f3_entities::growth::Growth;
use f3_extents::bounds::dimensions;
use f3_extents::sizes::{Extents, shape_extents};
use f3_rules::breaks::Break;
use f3_tree::declaration::{Declaration, Entity};
use f3_typed_parts::known::Position;
use std::alloc::{AllocError, Global};

/// Where the expressions of a declaration stand.
pub fn position(spot: &Spot<'_>) -> Position
    ensures { result ≡ position_of spot.now }
{
    Position {
        scope: spot.scope,
        unit: spot.unit,
        phase: 5,
    }
}

/// What DIMENSION says behind a declared name: what it said before, unless a value became known.
fn dimension_behind(
    growth: &Growth<'_>,
    at: Position,
    reading: &Reading<'_>,
    changed: bool,
    before: Extents,
) -> Extents
    requires { changed ≡ false → before ≡ extents_of (context_of growth.now.known at) (option_map (λ s. shape_view s.now) reading.now.dimension) }
    ensures { result ≡ extents_of (context_of growth.now.known at) (option_map (λ s. shape_view s.now) reading.now.dimension) }
{
    if changed {
        return shape_extents(&growth.known, at, reading.dimension);
    }
    before
}

/// Notes what is wrong with the names of a declaration, in their order, and makes them known.
fn entities(
    alloc: Global,
    growth: &mut Growth<'_>,
    spot: &Spot<'_>,
    first: &mut Option<Break>,
    reading: &Reading<'_>,
    list: &[Entity],
) -> Result<(), AllocError>
    requires read { IsRead reading.now }
    requires room { growth.old.next + length list.now ≤ vec_len growth.old.known.values }
    ensures noted { OnOk result ((s : Scene) → (k : Grown) → Stands s growth.old k → first.new ≡ noted first.old (along (entity_rows (spot_in s spot.now) (tree_of reading.now)) (entity_next (spot_in s spot.now) (tree_of reading.now)) k (map entity_view list.now))) }
    ensures stands { OnOk result ((s : Scene) → (k : Grown) → Stands s growth.old k → Stands s growth.new (after (entity_next (spot_in s spot.now) (tree_of reading.now)) k (map entity_view list.now))) }
    ensures next { OnOk result (growth.new.next ≡ growth.old.next + length list.now) }
    ensures values { OnOk result (vec_len growth.new.known.values ≡ vec_len growth.old.known.values) }
    ensures cells { OnOk result (growth.new.cells ≡ growth.old.cells) }
{
    let at = position(spot);
    let mut dimension = shape_extents(&growth.known, at, reading.dimension);
    for declared in list {
        entity(alloc, growth, spot, first, reading, dimension, declared)?;
        let changed = declare(growth, spot, reading, declared);
        dimension = dimension_behind(growth, at, reading, changed, dimension);
    }
    Ok(())
}

/// Notes what is wrong with a declaration, and makes its names known (5.1). The tables of values have room for them.
///
/// # Errors
///
/// Where memory runs out.
pub fn declaration(
    alloc: Global,
    growth: &mut Growth<'_>,
    spot: &Spot<'_>,
    first: &mut Option<Break>,
    declaration: &Declaration,
) -> Result<(), AllocError>
    requires { growth.old.next + length declaration.now.entities.items ≤ vec_len growth.old.known.values }
    ensures noted { OnOk result ((s : Scene) → (k : Grown) → Stands s growth.old k → first.new ≡ noted first.old (declaration_rows (spot_in s spot.now) k (declaration_view declaration.now))) }
    ensures stands { OnOk result ((s : Scene) → (k : Grown) → Stands s growth.old k → Stands s growth.new (after (entity_next (spot_in s spot.now) (declaration_view declaration.now)) k (map entity_view declaration.now.entities.items))) }
    ensures next { OnOk result (growth.new.next ≡ growth.old.next + length declaration.now.entities.items) }
    ensures values { OnOk result (vec_len growth.new.known.values ≡ vec_len growth.old.known.values) }
    ensures cells { OnOk result (growth.new.cells ≡ growth.old.cells) }
{
    let at = position(spot);
    specifier(
        &growth.known,
        growth.scenery,
        spot,
        growth.next,
        first,
        declaration.specifier,
    );
    dimensions(alloc, &growth.known, at, first, &declaration.attributes)?;
    let reading = read(declaration);
    entities(alloc, growth, spot, first, &reading, &declaration.entities)?;
    Ok(())
}
