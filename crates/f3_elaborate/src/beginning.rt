//! Where elaborating begins.

ghost use Rattle.std.specs.Prelude.{◌≡◌, [], Some, map, IfOk};
ghost use Rattle.f3_tree.specs.Tree.{view};
ghost use Rattle.f3_access.specs.Tables.{lookup_of};
ghost use Rattle.f3_names.specs.Tables.{AreNames};
ghost use Rattle.f3_typed_parts.specs.Known.{nature_of};
ghost use Rattle.f3_types.specs.Parts.{scene_in};
ghost use Rattle.f3_types.specs.Scenes.{scene_with};

use f3_kinds::things::Thing;
use f3_kinds::types::Scalar;
use f3_names::table::Names;
use f3_natures::names::Names as Namings;
use f3_scenes::holders::holders;
use f3_scopes::outline::EntityKind;
use f3_sites::site::Site;
use f3_tree::program::Program;
use f3_type_rules::definition::Holder;
use f3_typed_parts::known::Known;
use f3_types::beginning::site;
use f3_types::naming::namings;
use std::alloc::{AllocError, Global};

/// What is known of a checked program wherever something stands in it.
#[derive(Drop)]
pub struct Start<'a> {
    /// What is known where its bodies begin.
    pub site: Site<'a>,
    /// What each entity was declared as.
    pub kinds: Vec<EntityKind>,
    /// What the rules on definitions ask of each entity.
    pub holders: Vec<Holder>,
}

/// What is known of a checked program, of whose entities this is known.
pub fn begin<'a>(
    alloc: Global,
    program: &Program,
    names: &'a Names,
    things: Vec<Thing>,
    values: Vec<Option<Scalar>>,
) -> Result<Start<'a>, AllocError>
    requires names { AreNames (view program.now) names.now }
    requires natures { map nature_of things.items ≡ (scene_in (view program.now) (lookup_of names.now.tables)).natures }
    ensures scene { IfOk result (λ s. scene_with s.site.known s.kinds.items s.holders.items ≡ scene_in (view program.now) (lookup_of names.now.tables)) }
    ensures values { IfOk result (λ s. s.site.known.values ≡ values) }
    ensures active { IfOk result (λ s. s.site.active.items ≡ []) }
    ensures holders { IfOk result (λ s. s.site.holders.items ≡ map Some s.holders.items) }
    ensures chains { IfOk result (λ s. s.site.chains.entries ≡ []) }
{
    let holders = holders(alloc, names.outlines())?;
    let Namings {
        tables,
        kinds,
        intrinsics,
        moving,
    } = namings(alloc, program, names)?;
    let known = Known {
        tables,
        things,
        intrinsics,
        moving,
        values,
    };
    let site = site(alloc, known, &holders)?;
    Ok(Start {
        site,
        kinds,
        holders,
    })
}
