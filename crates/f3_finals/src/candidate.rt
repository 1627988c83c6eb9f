//! What the procedures of a module could finalize.

ghost use Rattle.std.specs.Prelude.{◌≡◌, ◌+◌, ◌<◌, ◌^◌, ℕ, List, None, map, nat_eq, option_map, IfOk};
ghost use Rattle.std.specs.Map.{lookup};
ghost use Rattle.f3_tree.specs.Declarations.{shape_view, declaration_view, specification_view};
ghost use Rattle.f3_tree.specs.Tree.{procedure_view};
ghost use Rattle.f3_scopes.specs.Outlines.{Scope};
ghost use Rattle.f3_kinds.specs.Things.{map_or};
ghost use Rattle.f3_type_rules.specs.Finals.{is_out, is_explicit};
ghost use Rattle.f3_type_rules.specs.Members.{members_from};
ghost use Rattle.f3_type_rules.specs.Names.{entries, entries_in};
ghost use Rattle.f3_declared.specs.Scenery.{names_in};
ghost use Rattle.f3_natures.specs.Walk.{count_of};
ghost use Rattle.f3_finals.specs.Candidates.{AreCandidates, behind_procedures, UnitsEndWithProcedures};
ghost use Rattle.f3_finals.specs.Inner.Candidates.{entry_of, found_view, typed_candidate, candidate_by, candidate_of, candidate_in};

use f3_declared::attributes::read;
use f3_declared::names::{object_of, shape_of};
use f3_declared::scenery::Scenery;
use f3_kinds::types::{DataType, Object};
use f3_natures::constructs::constructs;
use f3_tree::declaration::{Declaration, Entity, Intent, Shape, Specification};
use f3_tree::program::{Procedure, ProcedureKind};
use f3_typed_parts::known::Known;
use std::alloc::{AllocError, Global};

/// What a procedure could finalize.
#[derive(Clone, Copy)]
pub struct Candidate {
    /// The entity of the type of the objects.
    pub data_type: usize,
    /// Their rank.
    pub rank: usize,
}

/// A name with the declaration that it stands in.
#[derive(Clone, Copy)]
struct Found<'a> {
    declaration: &'a Declaration,
    entity: &'a Entity,
}

fn find_in(declaration: &Declaration, symbol: usize) -> Option<Found<'_>>
    ensures { option_map found_view result ≡ lookup (nat_eq symbol) (map (entry_of (declaration_view declaration.now)) (declaration_view declaration.now).entities) }
{
    for entity in &declaration.entities {
        if symbol == entity.name.symbol {
            return Some(Found {
                declaration,
                entity,
            });
        }
    }
    None
}

fn find_one(specification: &Specification, symbol: usize) -> Option<Found<'_>>
    ensures { option_map found_view result ≡ lookup (nat_eq symbol) (entries_in (specification_view specification.now)) }
{
    match specification {
        Specification::Declaration(declaration) => find_in(declaration, symbol),
        Specification::Access(_) => None,
        Specification::Protected(_, _) => None,
        Specification::Save(_) => None,
        Specification::Type(_) => None,
    }
}

/// Where a specification part declares a name; of two declarations the first.
fn find(part: &[Specification], symbol: usize) -> Option<Found<'_>>
    ensures { option_map found_view result ≡ lookup (nat_eq symbol) (entries (map specification_view part.now)) }
{
    for specification in part {
        match find_one(specification, symbol) {
            Some(found) => return Some(found),
            None => {}
        }
    }
    None
}

fn is_out(intent: Option<Intent>) -> bool
    ensures { result ≡ is_out intent }
{
    match intent {
        Some(Intent::Out) => true,
        Some(Intent::In) => false,
        Some(Intent::InOut) => false,
        None => false,
    }
}

fn is_explicit(shape: Option<&Shape>) -> bool
    ensures { result ≡ is_explicit (option_map (λ s. shape_view s.now) shape.entry) }
{
    match shape {
        Some(Shape::Explicit(_)) => true,
        Some(Shape::Deferred(_)) => false,
        None => false,
    }
}

fn typed_candidate(rank: usize, data_type: Option<DataType>) -> Option<Candidate>
    ensures { result ≡ typed_candidate rank data_type }
{
    match data_type {
        Some(DataType::Derived(data_type)) => Some(Candidate { data_type, rank }),
        Some(DataType::Integer(_)) => None,
        Some(DataType::Logical) => None,
        None => None,
    }
}

/// What a subroutine with this dummy alone could finalize.
fn candidate_by(object: Object, intent: Option<Intent>, shape: Option<&Shape>) -> Option<Candidate>
    ensures { result ≡ candidate_by object intent (option_map (λ s. shape_view s.now) shape.entry) }
{
    if object.is_allocatable {
        return None;
    }
    if is_out(intent) {
        return None;
    }
    if is_explicit(shape) {
        return None;
    }
    typed_candidate(object.rank, object.data_type)
}

fn candidate_of(
    known: &Known<'_>,
    scenery: Scenery<'_>,
    scope: usize,
    found: Found<'_>,
) -> Option<Candidate>
    ensures { result ≡ candidate_of (names_in known.now scenery.entry) scope (found_view found.entry) }
{
    let reading = read(found.declaration);
    let object = object_of(known, scenery, scope, &reading, found.entity);
    let shape = shape_of(&reading, found.entity);
    candidate_by(object, reading.intent, shape)
}

/// What a procedure could finalize: the objects of its only dummy's type and rank.
fn make_candidate(
    known: &Known<'_>,
    scenery: Scenery<'_>,
    scope: usize,
    procedure: &Procedure,
) -> Option<Candidate>
    ensures { result ≡ candidate_in (names_in known.now scenery.entry) scope (procedure_view procedure.now).header.kind (procedure_view procedure.now).header.dummies (procedure_view procedure.now).part.specifications }
{
    match procedure.header.kind {
        ProcedureKind::Function(_, _) => None,
        ProcedureKind::Subroutine => match procedure.header.dummies.as_slice() {
            [dummy] => match find(&procedure.part.specifications, dummy.symbol) {
                Some(found) => candidate_of(known, scenery, scope, found),
                None => None,
            },
            [] => None,
            [_, _, ..] => None,
        },
    }
}

/// The number of the scope behind those of a procedure: its own, and those of its constructs.
///
/// # Errors
///
/// Where memory runs out.
pub fn behind(alloc: Global, scope: usize, procedure: &Procedure) -> Result<usize, AllocError>
    requires { scope + 1 + count_of (procedure_view procedure.now).body < 2 ^ 64 }
    ensures { IfOk result (λ n. n ≡ scope + 1 + count_of (procedure_view procedure.now).body) }
{
    let constructs = constructs(alloc, &procedure.body)?;
    Ok(scope + 1 + constructs.len())
}

/// What each procedure of a module could finalize, in order: a subroutine with one dummy of derived type that is not
/// allocatable, not INTENT(OUT), and a scalar or of assumed shape (4.5.5). `scope` is the scope of the first procedure.
///
/// # Errors
///
/// Where memory runs out.
pub fn candidates(
    alloc: Global,
    known: &Known<'_>,
    scenery: Scenery<'_>,
    scope: usize,
    procedures: &[Procedure],
) -> Result<Vec<Option<Candidate>>, AllocError>
    requires { behind_procedures scope (map procedure_view procedures.now) < 2 ^ 64 }
    ensures { IfOk result (λ v. (scopes : List Scope) → (entity : ℕ) → AreCandidates (names_in known.now scenery.entry) (members_from scopes entity scope (map procedure_view procedures.now)) v.items) }
{
    let mut found = Vec::new(alloc);
    let mut next = scope;
    for procedure in procedures {
        found.push(make_candidate(known, scenery, next, procedure))?;
        next = behind(alloc, next, procedure)?;
    }
    Ok(found)
}

/// The scopes of a unit end where those of its procedures do.
pub fn units_end_with_procedures()
    ensures { UnitsEndWithProcedures }
{}
