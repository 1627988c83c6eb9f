//! T3, T9, T12: the types of declared names and of results (4.5.3, 12.4, 12.6).

ghost use Rattle.std.specs.Prelude.{◌≡◌, ◌==◌, ◌||◌, true, false, not, nat_lt, map, slice_get, option_map};
ghost use Rattle.std.specs.List.{flat_map};
ghost use Rattle.f3_tree.specs.Declarations.{entity_view, declaration_view, specification_view};
ghost use Rattle.f3_kinds.specs.Things.{map_or};
ghost use Rattle.f3_typed_parts.specs.Known.{nature_of};
ghost use Rattle.f3_typed_parts.specs.Noted.{noted};
ghost use Rattle.f3_type_rules.specs.Scene.{Scene};
ghost use Rattle.f3_type_rules.specs.Names.{entries, entries_in};
ghost use Rattle.f3_type_rules.specs.Declarations.{type_rows, specifier_rows, is_final_nature, is_finalizable, is_in, may_finalize, local_rows, header_rows};
ghost use Rattle.f3_declared.specs.Declarations.{IsRead, tree_of};
ghost use Rattle.f3_declared.specs.Next.{before_entity};
ghost use Rattle.f3_declared.specs.Scenery.{names_in, scene_in};
ghost use Rattle.f3_declared.specs.Spots.{spot_in};
ghost use Rattle.f3_scopes.specs.Scopes.{name_or};

use crate::asking::{is_dummy, is_result};
use crate::attributes::{Reading, read};
use crate::bools::{both, either};
use crate::names::type_of;
use crate::scenery::Scenery;
use crate::spots::Spot;
use f3_kinds::things::Thing;
use f3_kinds::types::DataType;
use f3_rules::breaks::Break;
use f3_rules::rule::Rule;
use f3_tree::declaration::{Declaration, Entity, Intent, Specification, TypeSpecifier};
use f3_tree::expression::Name;
use f3_tree::program::ProcedureKind;
use f3_typed_parts::known::Known;
use f3_typed_parts::noted::{at_name, note, unless};

/// Whether a type is one of another scope or has been defined above.
fn is_above(scenery: Scenery<'_>, scope: usize, next: usize, number: usize) -> bool
    ensures { result ≡ map_or true (λ h. not (h.scope == scope) || nat_lt number next) (slice_get scenery.entry.holders.now number) }
{
    match scenery.holders.get(number) {
        Some(holder) => holder.scope != scope || number < next,
        None => true,
    }
}

fn type_rows(
    known: &Known<'_>,
    scenery: Scenery<'_>,
    spot: &Spot<'_>,
    next: usize,
    first: &mut Option<Break>,
    name: Name,
    named: Option<DataType>,
)
    ensures { first.new ≡ noted first.old (type_rows (spot_in (scene_in known.now scenery.entry) spot.now) (before_entity next) name named) }
{
    match named {
        Some(DataType::Derived(number)) => {
            let above = is_above(scenery, spot.scope, next, number);
            unless(first, above, at_name(5, Rule::T3, name));
        }
        Some(DataType::Integer(_)) => note(first, at_name(6, Rule::T9, name)),
        Some(DataType::Logical) => note(first, at_name(6, Rule::T9, name)),
        None => note(first, at_name(6, Rule::T9, name)),
    }
}

/// Notes where TYPE(n) names no type, or one of the same scope that is not defined above: the entity that is declared next is
/// given (T9, T3).
#[tactic(auto, using(f3_typed_parts::proofs::Noting::noted_none))]
pub fn specifier(
    known: &Known<'_>,
    scenery: Scenery<'_>,
    spot: &Spot<'_>,
    next: usize,
    first: &mut Option<Break>,
    specifier: TypeSpecifier,
)
    ensures { first.new ≡ noted first.old (specifier_rows (spot_in (scene_in known.now scenery.entry) spot.now) (before_entity next) specifier) }
{
    match specifier {
        TypeSpecifier::Derived(name) => {
            let named = type_of(known, scenery, spot.scope, specifier);
            type_rows(known, scenery, spot, next, first, name, named);
        }
        TypeSpecifier::Integer(_) => {}
        TypeSpecifier::Logical => {}
    }
}

fn is_final(thing: &Thing) -> bool
    ensures { result ≡ is_final_nature (nature_of thing.now) }
{
    match thing {
        Thing::Type(table) => table.is_finalizable,
        Thing::Constant(_) => false,
        Thing::Variable(_) => false,
        Thing::Subroutine(_) => false,
        Thing::Function(_, _) => false,
    }
}

fn is_final_at(known: &Known<'_>, number: usize) -> bool
    ensures { result ≡ map_or false is_final_nature (option_map nature_of (slice_get known.now.things.items number)) }
{
    match known.things.get(number) {
        Some(thing) => is_final(thing),
        None => false,
    }
}

/// Whether a type is finalizable (own rule).
#[tactic(auto, using(crate::proofs::Finalizing::nature_at))]
pub fn is_finalizable(known: &Known<'_>, scenery: Scenery<'_>, data_type: Option<DataType>) -> bool
    ensures { result ≡ is_finalizable (scene_in known.now scenery.entry) data_type }
{
    match data_type {
        Some(DataType::Derived(number)) => is_final_at(known, number),
        Some(DataType::Integer(_)) => false,
        Some(DataType::Logical) => false,
        None => false,
    }
}

fn is_in(intent: Option<Intent>) -> bool
    ensures { result ≡ map_or false is_in intent }
{
    match intent {
        Some(Intent::In) => true,
        Some(Intent::Out) => false,
        Some(Intent::InOut) => false,
        None => false,
    }
}

fn may_finalize(spot: &Spot<'_>, reading: &Reading<'_>, entity: &Entity) -> bool
    requires { IsRead reading.now }
    ensures { (scene : Scene) → result ≡ may_finalize (spot_in scene spot.now) (tree_of reading.now, entity_view entity.now) }
{
    let outcome = is_result(spot, entity.name.symbol);
    let dummy = is_dummy(spot, entity.name.symbol);
    let only_read = is_in(reading.intent);
    let may = either(!spot.is_pure, both(dummy, only_read));
    both(!outcome, may)
}

/// Notes a name of finalizable type where a PURE procedure or a function may not have one (T12).
pub fn local(
    known: &Known<'_>,
    scenery: Scenery<'_>,
    spot: &Spot<'_>,
    first: &mut Option<Break>,
    reading: &Reading<'_>,
    entity: &Entity,
)
    requires { IsRead reading.now }
    ensures { first.new ≡ noted first.old (local_rows (spot_in (scene_in known.now scenery.entry) spot.now) (tree_of reading.now, entity_view entity.now)) }
{
    let data_type = type_of(known, scenery, spot.scope, reading.declaration.specifier);
    let finalizable = is_finalizable(known, scenery, data_type);
    let may = may_finalize(spot, reading, entity);
    let right = either(!finalizable, may);
    unless(first, right, at_name(5, Rule::T12, entity.name));
}

fn declaration_locals(
    known: &Known<'_>,
    scenery: Scenery<'_>,
    spot: &Spot<'_>,
    first: &mut Option<Break>,
    declaration: &Declaration,
)
    ensures { first.new ≡ noted first.old (flat_map (λ x. local_rows (spot_in (scene_in known.now scenery.entry) spot.now) (declaration_view declaration.now, entity_view x)) declaration.now.entities.items) }
{
    let reading = read(declaration);
    let list = declaration.entities.as_slice();
    for entity in list {
        local(known, scenery, spot, first, &reading, entity);
    }
}

#[tactic(auto, using(f3_typed_parts::proofs::Noting::noted_none, crate::proofs::Locals::rows_of_declaration))]
fn specification_locals(
    known: &Known<'_>,
    scenery: Scenery<'_>,
    spot: &Spot<'_>,
    first: &mut Option<Break>,
    specification: &Specification,
)
    ensures { first.new ≡ noted first.old (flat_map (λ x. local_rows (spot_in (scene_in known.now scenery.entry) spot.now) x.1) (entries_in (specification_view specification.now))) }
{
    match specification {
        Specification::Declaration(declaration) => {
            declaration_locals(known, scenery, spot, first, declaration);
        }
        Specification::Protected(_, _) => {}
        Specification::Access(_) => {}
        Specification::Save(_) => {}
        Specification::Type(_) => {}
    }
}

/// Notes the names of finalizable type in the specification part of a PURE procedure or a function that may not have one (T12).
pub fn locals(
    known: &Known<'_>,
    scenery: Scenery<'_>,
    spot: &Spot<'_>,
    first: &mut Option<Break>,
    part: &[Specification],
)
    ensures { first.new ≡ noted first.old (flat_map (λ x. local_rows (spot_in (scene_in known.now scenery.entry) spot.now) x.1) (entries (map specification_view part.now))) }
{
    for specification in part {
        specification_locals(known, scenery, spot, first, specification);
    }
}

fn name_or(outcome: Option<Name>, name: Name) -> Name
    ensures { result ≡ name_or outcome name }
{
    match outcome {
        Some(outcome) => outcome,
        None => name,
    }
}

/// Notes what is wrong with the type that a header gives to its function's result (T3, T9, T12).
#[tactic(auto, using(f3_typed_parts::proofs::Noting::noted_none, f3_typed_parts::proofs::Noting::noted_more))]
pub fn header(
    known: &Known<'_>,
    scenery: Scenery<'_>,
    spot: &Spot<'_>,
    next: usize,
    first: &mut Option<Break>,
    name: Name,
    kind: ProcedureKind,
)
    ensures { first.new ≡ noted first.old (header_rows (spot_in (scene_in known.now scenery.entry) spot.now) (before_entity next) name kind) }
{
    match kind {
        ProcedureKind::Function(Some(given), outcome) => {
            specifier(known, scenery, spot, next, first, given);
            let data_type = type_of(known, scenery, spot.scope, given);
            let finalizable = is_finalizable(known, scenery, data_type);
            unless(
                first,
                !finalizable,
                at_name(5, Rule::T12, name_or(outcome, name)),
            );
        }
        ProcedureKind::Function(None, _) => {}
        ProcedureKind::Subroutine => {}
    }
}
