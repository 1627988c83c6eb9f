//! The entities of procedures.

ghost use Rattle.std.specs.Prelude.{◌≡◌, ◌+◌, ◌++◌, ◌<◌, ◌^◌, ℕ, List, map, length, OnOk};
ghost use Rattle.std.specs.List.{flat_map};
ghost use Rattle.f3_scopes.specs.Outlines.{Scope};
ghost use Rattle.f3_scopes.specs.Scopes.{declared_in};
ghost use Rattle.f3_tree.specs.Tree.{procedure_view};
ghost use Rattle.f3_type_rules.specs.Members.{members_from};
ghost use Rattle.f3_unit_rules.specs.Members.{typed_count, AreFirsts};
ghost use Rattle.f3_program_numbers.specs.Chosen.{choice_of};
ghost use Rattle.f3_program_numbers.specs.Fitting.{MembersFit};
ghost use Rattle.f3_program_numbers.specs.Walks.{taken_by, member_taken, counted};

use crate::parts::add_names;
use crate::wanted::Wanted;
use f3_finals::candidate::behind;
use f3_tree::program::{Procedure, ProcedureKind};
use std::alloc::{AllocError, Global};

/// How many entities a header declares.
fn typed_count(kind: ProcedureKind) -> usize
    ensures { result ≡ typed_count kind }
{
    match kind {
        ProcedureKind::Function(Some(_), _) => 1,
        ProcedureKind::Function(None, _) => 0,
        ProcedureKind::Subroutine => 0,
    }
}

/// Adds the entities of a procedure's specification part whose names are taken. The first entity of its scope is given; a result that
/// the header types comes first (12.5.2.1).
///
/// # Errors
///
/// Where memory runs out.
pub fn add_member(
    found: &mut Vec<usize>,
    wanted: Wanted<'_>,
    first: usize,
    procedure: &Procedure,
) -> Result<(), AllocError>
    requires { first + typed_count procedure.now.header.kind + length (flat_map declared_in (procedure_view procedure.now).part.specifications) < 2 ^ 64 }
    ensures { OnOk result (found.new.items ≡ found.old.items ++ taken_by (choice_of wanted.entry) first (procedure_view procedure.now)) }
{
    let entity = first + typed_count(procedure.header.kind);
    add_names(found, wanted, entity, &procedure.part.specifications)
}

/// The same of all procedures of a unit, of which the first has this scope.
///
/// # Errors
///
/// Where memory runs out.
pub fn add_members(
    alloc: Global,
    found: &mut Vec<usize>,
    wanted: Wanted<'_>,
    firsts: &[usize],
    scope: usize,
    list: &[Procedure],
) -> Result<(), AllocError>
    requires { MembersFit firsts.now scope (map procedure_view list.now) }
    ensures { OnOk result ((scopes : List Scope) → (e : ℕ) → AreFirsts scopes firsts.now → found.new.items ≡ found.old.items ++ flat_map (member_taken (choice_of wanted.entry)) (members_from scopes e scope (map procedure_view list.now))) }
{
    let mut next = scope;
    for procedure in list {
        add_member(found, wanted, firsts[next], procedure)?;
        next = behind(alloc, next, procedure)?;
    }
    Ok(())
}

/// Adds the entities of procedures, of which this is the first.
///
/// # Errors
///
/// Where memory runs out.
pub fn add_procedures(
    found: &mut Vec<usize>,
    entity: usize,
    list: &[Procedure],
) -> Result<(), AllocError>
    requires { entity + length (map procedure_view list.now) < 2 ^ 64 }
    ensures { OnOk result (found.new.items ≡ found.old.items ++ counted entity (map procedure_view list.now)) }
{
    let mut next = entity;
    for _procedure in list {
        found.push(next)?;
        next += 1;
    }
    Ok(())
}
