//! What of a program unit counts for the order of units.

ghost use Rattle.std.specs.Prelude.{◌≡◌, ◌++◌, map, IfOk, OnOk};
ghost use Rattle.f3_tree.specs.Declarations.{part_tree};
ghost use Rattle.f3_tree.specs.Tree.{unit_view};
ghost use Rattle.f3_graph.specs.Units.{node_of, used_in};
ghost use Rattle.f3_graph.specs.Inner.Views.{nodes_view};

use f3_tree::declaration::SpecificationPart;
use f3_tree::expression::Name;
use f3_tree::program::{Unit, UnitKind};
use std::alloc::{AllocError, Global};

/// A program unit with the modules that it uses.
#[derive(Drop)]
pub struct UnitUses {
    pub kind: UnitKind,
    pub name: Name,
    /// The names in its USE statements in the order written, those of its procedures among them.
    pub uses: Vec<Name>,
}

/// Adds the modules that a specification part uses.
fn add_uses(names: &mut Vec<Name>, part: &SpecificationPart) -> Result<(), AllocError>
    ensures { OnOk result (names.new.items ≡ names.old.items ++ used_in (part_tree part.now)) }
{
    for statement in &part.uses {
        names.push(statement.module)?;
    }
    Ok(())
}

/// The modules that a unit and its procedures use.
fn used_names(alloc: Global, unit: &Unit) -> Result<Vec<Name>, AllocError>
    ensures { IfOk result (λ names. names.items ≡ (node_of (unit_view unit.now)).uses) }
{
    let mut names = Vec::new(alloc);
    add_uses(&mut names, &unit.part)?;
    for procedure in &unit.procedures {
        add_uses(&mut names, &procedure.part)?;
    }
    Ok(names)
}

/// The units with the modules that each uses.
pub fn unit_uses(alloc: Global, units: &[Unit]) -> Result<Vec<UnitUses>, AllocError>
    ensures { IfOk result (λ v. nodes_view v.items ≡ map node_of (map unit_view units.now)) }
{
    let mut list = Vec::new(alloc);
    for unit in units {
        let uses = used_names(alloc, unit)?;
        list.push(UnitUses {
            kind: unit.kind,
            name: unit.name,
            uses,
        })?;
    }
    Ok(list)
}
