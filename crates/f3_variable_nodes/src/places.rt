//! Where declared variables lie (5.1.2.12, 12.5.2, 16.5.6).

ghost use Rattle.std.specs.Prelude.{◌≡◌, ℕ, not, false, [], nat_eq, length, IfOk};
ghost use Rattle.std.specs.List.{list_any};
ghost use Rattle.f3_scopes.specs.Scopes.{declared_in, result_of};
ghost use Rattle.f3_kinds.specs.Things.{map_or};
ghost use Rattle.f3_tree.specs.Declarations.{parameter, entity_view, specification_view};
ghost use Rattle.f3_tree.specs.Tree.{header_view};
ghost use Rattle.f3_type_rules.specs.Attributes.{has};
ghost use Rattle.f3_unit_rules.specs.Members.{typed_count};
ghost use Rattle.f3_declared.specs.Declarations.{IsRead, tree_of};
ghost use Rattle.f3_elaboration.specs.Numbers as elaborated;
ghost use Rattle.f3_declaration_nodes.specs.Variables.{variable_at};
ghost use Rattle.f3_variable_nodes.specs.Headers.{symbols_of};
ghost use Rattle.f3_variable_nodes.specs.Locals.{header_symbols, is_local_beside, is_saved_by};

use f3_declared::attributes::Reading;
use f3_declared::bools::both;
use f3_declared::spots::{NameSet, name_set};
use f3_tree::declaration::{Entity, Specification};
use f3_tree::expression::Name;
use f3_tree::program::{Header, ProcedureKind, UnitKind};
use std::alloc::{AllocError, Global};

/// Whether a declared name is a variable and no named constant (5.1.2.10).
#[tactic(auto, using(crate::proofs::Attributes::has_parameter))]
pub fn is_variable(reading: &Reading<'_>) -> bool
    requires { IsRead reading.now }
    ensures { result ≡ not (has parameter (tree_of reading.now)) }
{
    !reading.kinds.parameter.once
}

/// Whether a variable is saved: by SAVE, or by its initializer (5.1, 5.1.2.13).
#[tactic(auto, using(crate::proofs::Attributes::has_save))]
pub fn is_saved(reading: &Reading<'_>, entity: &Entity) -> bool
    requires { IsRead reading.now }
    ensures { result ≡ is_saved_by (tree_of reading.now, entity_view entity.now) }
{
    reading.kinds.save.once || entity.initial.is_some()
}

/// Whether a name that a unit of this kind declares is a variable that lives for the whole run; in a procedure as in a program.
pub fn is_static_in(kind: UnitKind, reading: &Reading<'_>, entity: &Entity) -> bool
    requires { IsRead reading.now }
    ensures { (number unit scope : ℕ) → result ≡ elaborated.is_static_in kind (variable_at number unit scope (tree_of reading.now, entity_view entity.now)) }
{
    match kind {
        UnitKind::Module => is_variable(reading),
        UnitKind::Program => both(is_variable(reading), is_saved(reading, entity)),
    }
}

/// The name of a function's result (12.5.2.1).
pub fn result_name(kind: ProcedureKind, name: Name) -> Option<Name>
    ensures { result ≡ result_of kind name }
{
    match kind {
        ProcedureKind::Function(_, Some(outcome)) => Some(outcome),
        ProcedureKind::Function(_, None) => Some(name),
        ProcedureKind::Subroutine => None,
    }
}

/// The names of a header: its dummies, and the result of a function.
#[derive(Drop)]
pub struct HeaderNames<'a> {
    pub dummies: NameSet<'a>,
    pub result: Option<Name>,
}

/// The names of the header of a procedure.
///
/// # Errors
///
/// Where memory runs out.
pub fn header_names(alloc: Global, header: &Header) -> Result<HeaderNames<'_>, AllocError>
    ensures { IfOk result (λ h. symbols_of h ≡ header_symbols (header_view header.now)) }
{
    Ok(HeaderNames {
        dummies: name_set(alloc, &header.dummies)?,
        result: result_name(header.kind, header.name),
    })
}

/// No names.
///
/// # Errors
///
/// Where memory runs out.
pub fn no_names<'a>(alloc: Global) -> Result<HeaderNames<'a>, AllocError>
    ensures { IfOk result (λ h. symbols_of h ≡ []) }
{
    Ok(HeaderNames {
        dummies: name_set(alloc, &[])?,
        result: None,
    })
}

fn is_result(outcome: Option<Name>, symbol: usize) -> bool
    ensures { result ≡ map_or false (λ n. nat_eq symbol n.symbol) outcome }
{
    match outcome {
        Some(name) => symbol == name.symbol,
        None => false,
    }
}

/// Whether a header has this name.
pub fn is_in_header(names: &HeaderNames<'_>, symbol: usize) -> bool
    ensures { result ≡ list_any (nat_eq symbol) (symbols_of names.now) }
{
    names.dummies.symbols.contains(&symbol) || is_result(names.result, symbol)
}

/// Whether a declared name is a variable of each activation beside those that the header names.
pub fn is_local(names: &HeaderNames<'_>, reading: &Reading<'_>, entity: &Entity) -> bool
    requires { IsRead reading.now }
    ensures { result ≡ is_local_beside (symbols_of names.now) (tree_of reading.now, entity_view entity.now) }
{
    let of_activation = !is_saved(reading, entity);
    let beside = !is_in_header(names, entity.name.symbol);
    both(is_variable(reading), both(of_activation, beside))
}

/// How many entities a header declares: the result, where it has a type there.
pub fn typed_count(kind: ProcedureKind) -> usize
    ensures { result ≡ typed_count kind }
{
    match kind {
        ProcedureKind::Function(Some(_), _) => 1,
        ProcedureKind::Function(None, _) => 0,
        ProcedureKind::Subroutine => 0,
    }
}

/// How many entities a statement of a specification part declares.
pub fn declared_by(specification: &Specification) -> usize
    ensures { result ≡ length (declared_in (specification_view specification.now)) }
{
    match specification {
        Specification::Declaration(declaration) => declaration.entities.len(),
        Specification::Type(_) => 1,
        Specification::Access(_) => 0,
        Specification::Protected(_, _) => 0,
        Specification::Save(_) => 0,
    }
}
