//! Specification parts (2.2).

ghost use Rattle.std.specs.Prelude.{◌≡◌, ◌<◌, List, map, length, vec_len, OnOk};
ghost use Rattle.std.specs.List.{flat_map};
ghost use Rattle.f3_scopes.specs.Scopes.{declared_in};
ghost use Rattle.f3_tree.specs.Declarations.{type_view, specification_view, defines};
ghost use Rattle.f3_typed_parts.specs.Noted.{noted};
ghost use Rattle.f3_type_rules.specs.Members.{Member};
ghost use Rattle.f3_type_rules.specs.Scene.{Scene};
ghost use Rattle.f3_type_rules.specs.Walks.{after, along, Known as Grown};
ghost use Rattle.f3_type_rules.specs.Declarations.{type_definition_rows, specification_rows, specification_next};
ghost use Rattle.f3_declared.specs.Spots.{spot_in};
ghost use Rattle.f3_entities.specs.Growth.{Stands};
ghost use Rattle.f3_part_rules.specs.Finalizers.{Finalize};
ghost use Rattle.f3_part_rules.specs.Room.{HasRoom, IsBehind};

use crate::finalizers::Finalizers;
use f3_declared::spots::Spot;
use f3_entities::growth::Growth;
use f3_finals::finals::finals;
use f3_rules::breaks::Break;
use f3_specifications::declarations::declaration;
use f3_specifications::definitions::{define, definition};
use f3_tree::declaration::{Specification, TypeDefinition};
use std::alloc::{AllocError, Global};

/// Notes what is wrong with the definition of a type, and makes its cells known (4.5).
fn type_definition(
    alloc: Global,
    growth: &mut Growth<'_>,
    spot: &Spot<'_>,
    finalizers: Finalizers<'_>,
    first: &mut Option<Break>,
    given: &TypeDefinition,
) -> Result<(), AllocError>
    requires { growth.old.next < vec_len growth.old.cells }
    ensures noted { OnOk result ((s : Scene) → (k : Grown) → (ms : List Member) → Stands s growth.old k → Finalize s finalizers.entry ms → first.new ≡ noted first.old (type_definition_rows (spot_in s spot.now) ms k (type_view given.now))) }
    ensures stands { OnOk result ((s : Scene) → (k : Grown) → Stands s growth.old k → Stands s growth.new (specification_next (spot_in s spot.now) k (defines (type_view given.now)))) }
    ensures behind { OnOk result (IsBehind growth.old growth.new 1) }
{
    let cells = definition(alloc, growth, spot, first, given)?;
    finals(
        alloc,
        growth.known.tables,
        spot.scope,
        finalizers.first,
        finalizers.candidates,
        growth.next,
        first,
        &given.finals,
    )?;
    define(growth, cells);
    Ok(())
}

fn specification(
    alloc: Global,
    growth: &mut Growth<'_>,
    spot: &Spot<'_>,
    finalizers: Finalizers<'_>,
    first: &mut Option<Break>,
    given: &Specification,
) -> Result<(), AllocError>
    requires { HasRoom growth.old (length (declared_in (specification_view given.now))) }
    ensures noted { OnOk result ((s : Scene) → (k : Grown) → (ms : List Member) → Stands s growth.old k → Finalize s finalizers.entry ms → first.new ≡ noted first.old (specification_rows (spot_in s spot.now) ms k (specification_view given.now))) }
    ensures stands { OnOk result ((s : Scene) → (k : Grown) → Stands s growth.old k → Stands s growth.new (specification_next (spot_in s spot.now) k (specification_view given.now))) }
    ensures behind { OnOk result (IsBehind growth.old growth.new (length (declared_in (specification_view given.now)))) }
{
    match given {
        Specification::Declaration(given) => {
            declaration(alloc, growth, spot, first, given)?;
            Ok(())
        }
        Specification::Type(given) => {
            type_definition(alloc, growth, spot, finalizers, first, given)?;
            Ok(())
        }
        Specification::Access(_) => Ok(()),
        Specification::Protected(_, _) => Ok(()),
        Specification::Save(_) => Ok(()),
    }
}

/// Notes what is wrong with the statements of a specification part, in their order, and makes known what they declare. The tables
/// have room for it.
///
/// # Errors
///
/// Where memory runs out.
pub fn specifications(
    alloc: Global,
    growth: &mut Growth<'_>,
    spot: &Spot<'_>,
    finalizers: Finalizers<'_>,
    first: &mut Option<Break>,
    list: &[Specification],
) -> Result<(), AllocError>
    requires { HasRoom growth.old (length (flat_map declared_in (map specification_view list.now))) }
    ensures noted { OnOk result ((s : Scene) → (k : Grown) → (ms : List Member) → Stands s growth.old k → Finalize s finalizers.entry ms → first.new ≡ noted first.old (along (specification_rows (spot_in s spot.now) ms) (specification_next (spot_in s spot.now)) k (map specification_view list.now))) }
    ensures stands { OnOk result ((s : Scene) → (k : Grown) → Stands s growth.old k → Stands s growth.new (after (specification_next (spot_in s spot.now)) k (map specification_view list.now))) }
    ensures behind { OnOk result (IsBehind growth.old growth.new (length (flat_map declared_in (map specification_view list.now)))) }
{
    for given in list {
        specification(alloc, growth, spot, finalizers, first, given)?;
    }
    Ok(())
}
