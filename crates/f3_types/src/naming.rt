//! What is known of the names of a program, and what each of its entities is.

ghost use Rattle.std.specs.Prelude.{◌≡◌, ◌^◌, ◌<◌, ℕ, List, None, length, map, replicate, IfOk};
ghost use Rattle.f3_rules.specs.declared.breaks.Break.{Break};
ghost use Rattle.f3_tree.specs.Tree.{view};
ghost use Rattle.f3_scopes.specs.Scopes.{scopes_of};
ghost use Rattle.f3_access.specs.Access.{entities_of};
ghost use Rattle.f3_access.specs.Tables.{lookup_of};
ghost use Rattle.f3_names.specs.Answers.{BreaksOfNames};
ghost use Rattle.f3_names.specs.Tables.{AreNames};
ghost use Rattle.f3_typed_parts.specs.Known.{nature_of};
ghost use Rattle.f3_type_rules.specs.Natures.{settled};
ghost use Rattle.f3_type_rules.specs.Scene.{names_of};
ghost use Rattle.f3_natures.specs.Known.{names_view};
ghost use Rattle.f3_natures.specs.Natures.{natures_of, HasDistinctParts};
ghost use Rattle.f3_types.specs.Parts.{scene_in};
ghost use Rattle.f3_types.specs.Scenes.{scene_with};

use f3_finalizable::settle::settle;
use f3_kinds::things::Thing;
use f3_names::table::Names;
use f3_natures::names::Names as Namings;
use f3_natures::natures::natures;
use f3_scenes::holders::holders;
use f3_scenes::intrinsics::{intrinsics, symbol_of};
use f3_scenes::kinds::kinds;
use f3_scopes::outline::EntityKind;
use f3_tree::program::Program;
use f3_type_rules::definition::Holder;
use f3_typed_parts::known::Known;
use std::alloc::{AllocError, Global};

/// What is known of a program before its declarations are checked.
#[derive(Drop)]
pub struct Start<'a> {
    /// What is known of its names; of no named constant the value.
    pub known: Known<'a>,
    /// What each entity was declared as.
    pub kinds: Vec<EntityKind>,
    /// What the rules on definitions ask of each entity.
    pub holders: Vec<Holder>,
}

/// What is known of the names of a program before what its entities are.
pub fn namings<'a>(
    alloc: Global,
    program: &Program,
    names: &'a Names,
) -> Result<Namings<'a>, AllocError>
    requires { AreNames (view program.now) names.now }
    ensures { IfOk result (λ n. names_view n ≡ names_of (view program.now) (lookup_of names.now.tables)) }
{
    let kinds = kinds(alloc, names.outlines())?;
    let intrinsics = intrinsics(alloc, &program.names)?;
    Ok(Namings {
        tables: names.tables(),
        kinds,
        intrinsics,
        moving: (
            symbol_of(&program.names, "from"),
            symbol_of(&program.names, "to"),
        ),
    })
}

/// What each entity of a program is, and of types whether they are finalizable.
fn things(alloc: Global, program: &Program, namings: &Namings<'_>) -> Result<Vec<Thing>, AllocError>
    requires scopes { length (scopes_of (view program.now)) < 2 ^ 64 }
    requires entities { length (entities_of (scopes_of (view program.now))) < 2 ^ 64 }
    requires distinct { HasDistinctParts (view program.now) }
    ensures { IfOk result (λ v. map nature_of v.items ≡ settled (natures_of (names_view namings.now) (view program.now))) }
{
    let mut things = natures(alloc, namings, program)?;
    settle(alloc, &mut things)?;
    Ok(things)
}

/// What is known of a program before its declarations are checked.
pub fn begin<'a>(
    alloc: Global,
    program: &Program,
    names: &'a Names,
) -> Result<Start<'a>, AllocError>
    requires names { AreNames (view program.now) names.now }
    requires unbroken { (b : Break) → BreaksOfNames (view program.now) b → ⊥ }
    ensures scene { IfOk result (λ s. scene_with s.known s.kinds.items s.holders.items ≡ scene_in (view program.now) (lookup_of names.now.tables)) }
    ensures values { IfOk result (λ s. s.known.values.items ≡ replicate (length s.known.things.items) None) }
{
    let holders = holders(alloc, names.outlines())?;
    let namings = namings(alloc, program, names)?;
    let things = things(alloc, program, &namings)?;
    let values = vec![in alloc; None; things.len()]?;
    let Namings {
        tables,
        kinds,
        intrinsics,
        moving,
    } = namings;
    let known = Known {
        tables,
        things,
        intrinsics,
        moving,
        values,
    };
    Ok(Start {
        known,
        kinds,
        holders,
    })
}
