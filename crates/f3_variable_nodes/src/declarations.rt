//! The declarations of a procedure by name, of which the first of each name counts.

ghost use Rattle.std.specs.Prelude.{◌≡◌, ◌∷◌, [], ℕ, nat_eq, map, option_map, IfOk, OnOk};
ghost use Rattle.std.specs.Map.{lookup};
ghost use Rattle.indexmap.specs.IndexMap.{get};
ghost use Rattle.f3_tree.specs.Declarations.{declaration_view, entity_view, specification_view};
ghost use Rattle.f3_type_rules.specs.Names.{entries, entries_in, or_else};
ghost use Rattle.f3_variable_nodes.specs.Dummies.{entry_of, found_view};

use f3_natures::entries::keep_first;
use f3_tree::declaration::{Declaration, Entity, Specification};
use indexmap::IndexMap;
use std::alloc::{AllocError, Global};

/// A name with the declaration that it stands in.
#[derive(Clone, Copy)]
pub struct Found<'a> {
    pub declaration: &'a Declaration,
    pub entity: &'a Entity,
}

fn add_name<'a>(
    found: &mut IndexMap<usize, Found<'a>>,
    declaration: &'a Declaration,
    entity: &'a Entity,
) -> Result<(), AllocError>
    ensures { OnOk result ((k : ℕ) → option_map found_view (get nat_eq found.new k) ≡ or_else (option_map found_view (get nat_eq found.old k)) (lookup (nat_eq k) (entry_of (declaration_view declaration.now) (entity_view entity.now) ∷ []))) }
{
    let item = Found {
        declaration,
        entity,
    };
    keep_first(found, entity.name.symbol, item)?;
    Ok(())
}

fn add_declaration<'a>(
    found: &mut IndexMap<usize, Found<'a>>,
    declaration: &'a Declaration,
) -> Result<(), AllocError>
    ensures { OnOk result ((k : ℕ) → option_map found_view (get nat_eq found.new k) ≡ or_else (option_map found_view (get nat_eq found.old k)) (lookup (nat_eq k) (map (entry_of (declaration_view declaration.now)) (declaration_view declaration.now).entities))) }
{
    for entity in &declaration.entities {
        add_name(found, declaration, entity)?;
    }
    Ok(())
}

fn add_specification<'a>(
    found: &mut IndexMap<usize, Found<'a>>,
    specification: &'a Specification,
) -> Result<(), AllocError>
    ensures { OnOk result ((k : ℕ) → option_map found_view (get nat_eq found.new k) ≡ or_else (option_map found_view (get nat_eq found.old k)) (lookup (nat_eq k) (entries_in (specification_view specification.now)))) }
{
    match specification {
        Specification::Declaration(declaration) => {
            add_declaration(found, declaration)?;
            Ok(())
        }
        Specification::Access(_) => Ok(()),
        Specification::Protected(_, _) => Ok(()),
        Specification::Save(_) => Ok(()),
        Specification::Type(_) => Ok(()),
    }
}

/// What a specification part declares, by name; of two of one name the first.
///
/// # Errors
///
/// Where memory runs out.
pub fn declarations<'a>(
    alloc: Global,
    list: &'a [Specification],
) -> Result<IndexMap<usize, Found<'a>>, AllocError>
    ensures { IfOk result (λ m. (k : ℕ) → option_map found_view (get nat_eq m k) ≡ lookup (nat_eq k) (entries (map specification_view list.now))) }
{
    let mut found = IndexMap::new(alloc);
    for specification in list {
        add_specification(&mut found, specification)?;
    }
    Ok(found)
}
