//! What the entities of a program are.

ghost use Rattle.std.specs.Prelude.{◌≡◌, ℕ, IfOk, OnOk};
ghost use Rattle.f3_rules.specs.declared.breaks.Break.{Break};
ghost use Rattle.f3_rules.specs.Least.{Least};
ghost use Rattle.f3_tree.specs.Tree.{view};
ghost use Rattle.f3_access.specs.Tables.{lookup_of};
ghost use Rattle.f3_graph.specs.Order.{IsOrder, numbers_of};
ghost use Rattle.f3_names.specs.Answers.{BreaksOfNames};
ghost use Rattle.f3_names.specs.Tables.{AreNames};
ghost use Rattle.f3_typed_parts.specs.Noted.{noted};
ghost use Rattle.f3_entities.specs.Cells.{HasCells};
ghost use Rattle.f3_types.specs.Answers.{TypesAnswer, DefinitionsAnswer};
ghost use Rattle.f3_types.specs.Breaks.{TypeBreaks};
ghost use Rattle.f3_types.specs.Inner.Phases.{of_types};
ghost use Rattle.f3_types.specs.Parts.{scene_in, declared_along};
ghost use Rattle.f3_types.specs.Types.{AreTypes, AreTypesAlong, HasDefinitions};
ghost use Rattle.f3_types.specs.Inner.Rows.{body_rows};
ghost use Rattle.f3_types.specs.Scenes.{Knows};

use crate::beginning::site;
use crate::declaring::{Declared, declare};
use crate::naming::{Start, begin};
use crate::table::Types;
use f3_declared::scenery::Scenery;
use f3_graph::{CheckFault, UnitOrder, refusal_of};
use f3_names::table::Names;
use f3_rules::breaks::Break;
use f3_sites::site::Site;
use f3_tree::program::Program;
use f3_type_rules::definition::Holder;
use f3_typed_parts::known::Known;
use f3_unit_bodies::bodies::bodies;
use std::alloc::{AllocError, Global};

/// The phase of the rules on definitions.
const DEFINITIONS: u32 = 7;

/// What the entities of a program are, and its first break.
#[derive(Drop)]
struct Found {
    types: Types,
    first: Option<Break>,
}

/// Notes the first break of the bodies of a program, of which this is known and asked.
fn define(
    alloc: Global,
    program: &Program,
    order: &UnitOrder,
    names: &Names,
    holders: &[Holder],
    declared: Declared<'_>,
    first: &mut Option<Break>,
) -> Result<Types, AllocError>
    requires names { AreNames (view program.now) names.now }
    requires order { IsOrder (view program.now) order.now }
    requires known { let t = view program.now in let look = lookup_of names.now.tables in Knows (scene_in t look) (declared_along t look (numbers_of order.now)).values declared.known }
    requires cells { HasCells declared.cells.items (declared_along (view program.now) (lookup_of names.now.tables) (numbers_of order.now)) }
    requires holders { holders.now ≡ (scene_in (view program.now) (lookup_of names.now.tables)).holders }
    ensures noted { OnOk result (first.new ≡ noted first.old (body_rows (view program.now) (lookup_of names.now.tables) (numbers_of order.now))) }
    ensures types { IfOk result (λ types. AreTypes (view program.now) types) }
    ensures along { IfOk result (λ types. AreTypesAlong (view program.now) (lookup_of names.now.tables) (numbers_of order.now) types) }
{
    let Declared { known, cells } = declared;
    let mut site = site(alloc, known, holders)?;
    bodies(alloc, &mut site, first, 0, &program.units)?;
    let Site { known, .. } = site;
    let Known { things, values, .. } = known;
    Ok(Types {
        things,
        values,
        cells,
        definition: None,
    })
}

/// What the entities of a program are, and the first break of its specification parts and bodies.
fn examine(
    alloc: Global,
    program: &Program,
    order: &UnitOrder,
    names: &Names,
) -> Result<Found, AllocError>
    requires names { AreNames (view program.now) names.now }
    requires order { IsOrder (view program.now) order.now }
    requires unbroken { (b : Break) → BreaksOfNames (view program.now) b → ⊥ }
    ensures types { IfOk result (λ found. AreTypes (view program.now) found.types) }
    ensures along { IfOk result (λ found. AreTypesAlong (view program.now) (lookup_of names.now.tables) (numbers_of order.now) found.types) }
    ensures first { IfOk result (λ found. Least found.first (TypeBreaks (view program.now))) }
{
    let Start {
        known,
        kinds,
        holders,
    } = begin(alloc, program, names)?;
    let scenery = Scenery {
        kinds: &kinds,
        holders: &holders,
    };
    let mut first = None;
    let declared = declare(alloc, program, order, names, scenery, known, &mut first)?;
    let types = define(alloc, program, order, names, &holders, declared, &mut first)?;
    Ok(Found { types, first })
}

/// A break, where it is of phase 5 or 6.
fn of_types(first: Option<Break>) -> Option<Break>
    ensures { result ≡ of_types first }
{
    match first {
        Some(found) if found.phase < DEFINITIONS => Some(found),
        _ => None,
    }
}

/// What the entities of a program are, the values of its named constants and the cells of its types, along an order of its units in
/// which used modules come first.
///
/// Refused: a rule on types, shapes or constants is broken (T1 to T12, N10 to N13 in expressions); it is the first such break by
/// phase, then place. Memory: a growth of the host's memory was refused.
pub fn typed(
    alloc: Global,
    program: &Program,
    order: &UnitOrder,
    names: &Names,
) -> Result<Types, CheckFault>
    requires names { AreNames (view program.now) names.now }
    requires order { IsOrder (view program.now) order.now }
    requires unbroken { (b : Break) → BreaksOfNames (view program.now) b → ⊥ }
    ensures answer { TypesAnswer (view program.now) result }
    ensures along { IfOk result (λ types. AreTypesAlong (view program.now) (lookup_of names.now.tables) (numbers_of order.now) types) }
    ensures definition { IfOk result (λ types. HasDefinitions (view program.now) types) }
{
    let Found { mut types, first } = examine(alloc, program, order, names)?;
    match of_types(first) {
        None => {
            types.definition = first;
            Ok(types)
        }
        Some(first) => {
            drop(types);
            let refusal = refusal_of(alloc, &program.names, first)?;
            Err(CheckFault::Refused(refusal))
        }
    }
}

/// Whether a program that breaks no rule on types, shapes or constants breaks none on definitions.
///
/// Refused: a rule on definitions is broken (D1 to D6, 16.5.5 and 16.5.6); it is the first such break by place. Memory: a growth of the
/// host's memory was refused.
pub fn definitions(alloc: Global, program: &Program, types: &Types) -> Result<(), CheckFault>
    requires { HasDefinitions (view program.now) types.now }
    ensures { DefinitionsAnswer (view program.now) result }
{
    match types.definition {
        None => Ok(()),
        Some(first) => {
            let refusal = refusal_of(alloc, &program.names, first)?;
            Err(CheckFault::Refused(refusal))
        }
    }
}
