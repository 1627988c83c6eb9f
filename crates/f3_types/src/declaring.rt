//! What the specification parts of a program make known.

ghost use Rattle.std.specs.Prelude.{◌≡◌, None, length, replicate, IfOk, OnOk};
ghost use Rattle.f3_tree.specs.Tree.{view};
ghost use Rattle.f3_access.specs.Tables.{lookup_of};
ghost use Rattle.f3_graph.specs.Order.{numbers_of};
ghost use Rattle.f3_names.specs.Tables.{AreNames};
ghost use Rattle.f3_typed_parts.specs.Noted.{noted};
ghost use Rattle.f3_declared.specs.Scenery.{scene_in as standing};
ghost use Rattle.f3_entities.specs.Cells.{HasCells};
ghost use Rattle.f3_types.specs.Parts.{scene_in, declared_along};
ghost use Rattle.f3_types.specs.Inner.Rows.{part_rows};
ghost use Rattle.f3_types.specs.Scenes.{Knows};

use f3_declared::scenery::Scenery;
use f3_entities::growth::Growth;
use f3_graph::UnitOrder;
use f3_names::table::Names;
use f3_rules::breaks::Break;
use f3_tree::program::Program;
use f3_typed_parts::known::Known;
use f3_unit_rules::firsts::firsts;
use f3_unit_rules::units::units;
use std::alloc::{AllocError, Global};

/// What is known of a program behind its specification parts.
#[derive(Drop)]
pub struct Declared<'a> {
    /// What is known of its names, and the values of its named constants.
    pub known: Known<'a>,
    /// The cells of its types, by their entities.
    pub cells: Vec<Option<u64>>,
}

/// Notes the first break of the specification parts of a program, and makes known what they declare.
pub fn declare<'a>(
    alloc: Global,
    program: &Program,
    order: &UnitOrder,
    names: &Names,
    scenery: Scenery<'a>,
    known: Known<'a>,
    first: &mut Option<Break>,
) -> Result<Declared<'a>, AllocError>
    requires names { AreNames (view program.now) names.now }
    requires scene { standing known scenery ≡ scene_in (view program.now) (lookup_of names.now.tables) }
    requires values { known.values.items ≡ replicate (length known.things.items) None }
    ensures noted { OnOk result (first.new ≡ noted first.old (part_rows (view program.now) (lookup_of names.now.tables) (numbers_of order.now))) }
    ensures known { let t = view program.now in let look = lookup_of names.now.tables in IfOk result (λ d. Knows (scene_in t look) (declared_along t look (numbers_of order.now)).values d.known) }
    ensures cells { IfOk result (λ d. HasCells d.cells.items (declared_along (view program.now) (lookup_of names.now.tables) (numbers_of order.now))) }
{
    let firsts = firsts(alloc, names.outlines())?;
    let cells = vec![in alloc; None; known.things.len()]?;
    let mut growth = Growth {
        known,
        scenery,
        cells,
        next: 0,
    };
    units(
        alloc,
        &mut growth,
        names.unit_scopes(),
        &firsts,
        first,
        order,
        &program.units,
    )?;
    let Growth { known, cells, .. } = growth;
    Ok(Declared { known, cells })
}
