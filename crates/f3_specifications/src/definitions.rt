//! The definitions of derived types (4.5).

ghost use Rattle.std.specs.Prelude.{◌≡◌, ◌+◌, ◌++◌, ◌<◌, ℕ, [], true, Option, vec_len, IfOk, OnOk};
ghost use Rattle.std.specs.List.{flat_map};
ghost use Rattle.f3_rules.specs.declared.rule.Rule.TheVariants.{T5};
ghost use Rattle.f3_tree.specs.Declarations.{type_view};
ghost use Rattle.f3_kinds.specs.Rows.{at_name, unless};
ghost use Rattle.f3_typed_parts.specs.Noted.{noted};
ghost use Rattle.f3_type_rules.specs.Scene.{Scene};
ghost use Rattle.f3_type_rules.specs.Shapes.{at_most};
ghost use Rattle.f3_type_rules.specs.Walks.{Known as Grown};
ghost use Rattle.f3_type_rules.specs.Declarations.{all_cells, component_rows, with_entry};
ghost use Rattle.f3_declared.specs.Spots.{spot_in};
ghost use Rattle.f3_extents.specs.Cells.{HasCells};
ghost use Rattle.f3_extents.specs.Counts.{counted};
ghost use Rattle.f3_entities.specs.Growth.{Stands};

use crate::components::{all_cells, components};
use f3_declared::spots::Spot;
use f3_entities::growth::Growth;
use f3_extents::counts::at_most;
use f3_rules::breaks::Break;
use f3_rules::rule::Rule;
use f3_tree::declaration::TypeDefinition;
use f3_typed_parts::noted::{at_name, unless};
use std::alloc::{AllocError, Global};

/// Notes what is wrong with the components of a type, and that an object of it has too many cells (T5). Answers how many it has,
/// where that is known.
///
/// # Errors
///
/// Where memory runs out.
pub fn definition(
    alloc: Global,
    growth: &Growth<'_>,
    spot: &Spot<'_>,
    first: &mut Option<Break>,
    definition: &TypeDefinition,
) -> Result<Option<u64>, AllocError>
    ensures noted { OnOk result ((s : Scene) → (k : Grown) → Stands s growth.now k → first.new ≡ noted first.old (flat_map (component_rows (record (spot_in s spot.now) { is_type = true; listed = [] }) k) (type_view definition.now).components ++ unless (at_most 16777216 (all_cells (spot_in s spot.now) k (type_view definition.now))) (at_name 5 T5 definition.now.name))) }
    ensures cells { IfOk result (λ cells. (s : Scene) → (k : Grown) → Stands s growth.now k → cells ≡ counted (all_cells (spot_in s spot.now) k (type_view definition.now))) }
{
    let inside = Spot {
        is_type: true,
        listed: None,
        ..*spot
    };
    components(alloc, growth, &inside, first, &definition.components)?;
    let cells = all_cells(growth, &inside, &definition.components);
    let small = at_most(16777216, cells);
    unless(first, small, at_name(5, Rule::T5, definition.name));
    Ok(cells)
}

fn put(cells: &mut Vec<Option<u64>>, number: usize, count: Option<u64>)
    requires { number < vec_len cells.old }
    ensures grown { (k : Grown) → (n : Option ℕ) → count ≡ counted n → HasCells cells.old.items k → HasCells cells.new.items (record k { cells = with_entry number n k.cells }) }
    ensures room { vec_len cells.new ≡ vec_len cells.old }
{
    match count {
        Some(count) => cells[number] = Some(count),
        None => {}
    }
}

/// Behind the definition of a type its cells are known, if all bounds have values, and the entity behind it is declared next.
pub fn define(growth: &mut Growth<'_>, count: Option<u64>)
    requires { growth.old.next < vec_len growth.old.cells }
    ensures stands { (s : Scene) → (k : Grown) → (n : Option ℕ) → Stands s growth.old k → count ≡ counted n → Stands s growth.new (record k { next = k.next + 1; cells = with_entry k.next n k.cells }) }
    ensures next { growth.new.next ≡ growth.old.next + 1 }
    ensures known { growth.new.known ≡ growth.old.known }
    ensures cells { vec_len growth.new.cells ≡ vec_len growth.old.cells }
{
    let number = growth.next;
    let cells = &mut growth.cells;
    put(cells, number, count);
    growth.next = number + 1;
}
