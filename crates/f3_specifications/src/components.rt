//! The components of derived types (4.5.3).

ghost use Rattle.std.specs.Prelude.{◌≡◌, ℕ, Option, Some, map, option_map, OnOk};
ghost use Rattle.std.specs.List.{flat_map};
ghost use Rattle.f3_tree.specs.Declarations.{shape_view, entity_view, declaration_view};
ghost use Rattle.f3_typed_parts.specs.Known.{context_of};
ghost use Rattle.f3_typed_parts.specs.Noted.{noted};
ghost use Rattle.f3_type_rules.specs.Scene.{Scene};
ghost use Rattle.f3_type_rules.specs.Shapes.{cells_in, summed as added};
ghost use Rattle.f3_type_rules.specs.Walks.{after, Known as Grown};
ghost use Rattle.f3_type_rules.specs.Declarations.{entity_rows, component_rows};
ghost use Rattle.f3_declared.specs.Declarations.{IsRead, tree_of};
ghost use Rattle.f3_declared.specs.Spots.{spot_in};
ghost use Rattle.f3_extents.specs.Counts.{counted};
ghost use Rattle.f3_extents.specs.Extents.{extents_of};
ghost use Rattle.f3_entities.specs.Growth.{Stands, position_of};

use crate::declarations::position;
use f3_declared::attributes::{Reading, read};
use f3_declared::specifiers::specifier;
use f3_declared::spots::Spot;
use f3_entities::entities::{cells_in, entity};
use f3_entities::growth::Growth;
use f3_extents::bounds::dimensions;
use f3_extents::counts::summed;
use f3_extents::sizes::{Extents, shape_extents};
use f3_rules::breaks::Break;
use f3_tree::declaration::{Declaration, Entity};
use std::alloc::{AllocError, Global};

fn entities(
    alloc: Global,
    growth: &Growth<'_>,
    spot: &Spot<'_>,
    first: &mut Option<Break>,
    reading: &Reading<'_>,
    dimension: Extents,
    list: &[Entity],
) -> Result<(), AllocError>
    requires read { IsRead reading.now }
    requires dimension { dimension ≡ extents_of (context_of growth.now.known (position_of spot.now)) (option_map (λ s. shape_view s.now) reading.now.dimension) }
    ensures { OnOk result ((s : Scene) → (k : Grown) → Stands s growth.now k → first.new ≡ noted first.old (flat_map (λ x. entity_rows (spot_in s spot.now) (tree_of reading.now) k (entity_view x)) list.now)) }
{
    for component in list {
        entity(alloc, growth, spot, first, reading, dimension, component)?;
    }
    Ok(())
}

fn component(
    alloc: Global,
    growth: &Growth<'_>,
    spot: &Spot<'_>,
    first: &mut Option<Break>,
    declaration: &Declaration,
) -> Result<(), AllocError>
    ensures { OnOk result ((s : Scene) → (k : Grown) → Stands s growth.now k → first.new ≡ noted first.old (component_rows (spot_in s spot.now) k (declaration_view declaration.now))) }
{
    let at = position(spot);
    let known = &growth.known;
    specifier(
        known,
        growth.scenery,
        spot,
        growth.next,
        first,
        declaration.specifier,
    );
    dimensions(alloc, known, at, first, &declaration.attributes)?;
    let reading = read(declaration);
    let dimension = shape_extents(known, at, reading.dimension);
    entities(
        alloc,
        growth,
        spot,
        first,
        &reading,
        dimension,
        &declaration.entities,
    )?;
    Ok(())
}

/// Notes what is wrong with the components of a type, where they stand.
///
/// # Errors
///
/// Where memory runs out.
pub fn components(
    alloc: Global,
    growth: &Growth<'_>,
    spot: &Spot<'_>,
    first: &mut Option<Break>,
    list: &[Declaration],
) -> Result<(), AllocError>
    ensures { OnOk result ((s : Scene) → (k : Grown) → Stands s growth.now k → first.new ≡ noted first.old (flat_map (λ d. component_rows (spot_in s spot.now) k (declaration_view d)) list.now)) }
{
    for declaration in list {
        component(alloc, growth, spot, first, declaration)?;
    }
    Ok(())
}

fn entity_cells(
    growth: &Growth<'_>,
    spot: &Spot<'_>,
    reading: &Reading<'_>,
    dimension: Extents,
    before: Option<u64>,
    list: &[Entity],
) -> Option<u64>
    requires read { IsRead reading.now }
    requires dimension { dimension ≡ extents_of (context_of growth.now.known (position_of spot.now)) (option_map (λ s. shape_view s.now) reading.now.dimension) }
    ensures { (s : Scene) → (k : Grown) → (n : Option ℕ) → Stands s growth.now k → before ≡ counted n → result ≡ counted (after added n (map (λ x. cells_in (spot_in s spot.now) k (tree_of reading.now, entity_view x)) list.now)) }
{
    let mut cells = before;
    for component in list {
        let own = cells_in(growth, spot, reading, dimension, component);
        cells = summed(cells, own);
    }
    cells
}

fn component_cells(
    growth: &Growth<'_>,
    spot: &Spot<'_>,
    before: Option<u64>,
    declaration: &Declaration,
) -> Option<u64>
    ensures { (s : Scene) → (k : Grown) → (n : Option ℕ) → Stands s growth.now k → before ≡ counted n → result ≡ counted (after added n (map (λ x. cells_in (spot_in s spot.now) k (declaration_view declaration.now, entity_view x)) declaration.now.entities.items)) }
{
    let reading = read(declaration);
    let at = position(spot);
    let dimension = shape_extents(&growth.known, at, reading.dimension);
    entity_cells(
        growth,
        spot,
        &reading,
        dimension,
        before,
        &declaration.entities,
    )
}

/// How many cells an object of a type with these components has, where that is known.
pub fn all_cells(growth: &Growth<'_>, spot: &Spot<'_>, list: &[Declaration]) -> Option<u64>
    ensures { (s : Scene) → (k : Grown) → Stands s growth.now k → result ≡ counted (after added (Some 0) (flat_map (λ d. map (λ x. cells_in (spot_in s spot.now) k (declaration_view d, entity_view x)) d.entities.items) list.now)) }
{
    let mut cells = Some(0);
    for declaration in list {
        cells = component_cells(growth, spot, cells, declaration);
    }
    cells
}
