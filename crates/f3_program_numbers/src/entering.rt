//! The numbers of a procedure or of the main program, as it is entered and left.

ghost use Rattle.std.specs.Prelude.{◌≡◌, ◌+◌, ◌<◌, ◌^◌, ◌++◌, ◌∷◌, [], ℕ, map, length, option_map, IfOk, OnOk};
ghost use Rattle.std.specs.List.{flat_map};
ghost use Rattle.f3_access.specs.Tables.{lookup_of};
ghost use Rattle.f3_scopes.specs.Scopes.{declared_in, result_of};
ghost use Rattle.f3_tree.specs.Tree.{procedure_view, unit_view};
ghost use Rattle.f3_kinds.specs.Things.{map_or};
ghost use Rattle.f3_type_rules.specs.Members.{Member, Numbered};
ghost use Rattle.f3_unit_rules.specs.Members.{typed_count};
ghost use Rattle.f3_elaboration.specs.Numbers as elaborated;
ghost use Rattle.f3_elaboration.specs.Numbers.{entity_of, numbers_in_member, numbers_in_main};
ghost use Rattle.f3_numbers.specs.Table.{object_in, procedure_in, type_in};
ghost use Rattle.f3_numbers.specs.Agrees.{Agrees, nothing_inside};
ghost use Rattle.f3_program_numbers.specs.Filled.{without, IsInside, Undoes};
ghost use Rattle.f3_program_numbers.specs.Inner.Entering.{entities_of, member_inner, main_inner};

use crate::filling::{Storage, add_objects};
use crate::members::add_member;
use crate::parts::add_names;
use crate::wanted::Wanted;
use f3_access::lookup;
use f3_access::table::Tables;
use f3_declared::spots::name_set;
use f3_lookups::lookup::Lookup;
use f3_numbers::numbers::Numbers;
use f3_tree::expression::Name;
use f3_tree::program::{Procedure, ProcedureKind, Unit};
use std::alloc::{AllocError, Global};

/// What was added to the numbers of a program as a procedure or the main program was entered.
#[derive(Drop)]
pub struct Entered {
    /// The entities that became objects.
    pub added: Vec<usize>,
}

/// The entity that a name means, where it means one.
fn entity_of(found: Lookup) -> usize
    ensures { result ≡ entity_of found }
{
    match found {
        Lookup::One(entity) => entity,
        Lookup::Nothing => 0,
        Lookup::Several => 0,
    }
}

/// The name of a function's result (12.5.2.1).
fn result_of(kind: ProcedureKind, name: Name) -> Option<Name>
    ensures { result ≡ result_of kind name }
{
    match kind {
        ProcedureKind::Function(_, Some(outcome)) => Some(outcome),
        ProcedureKind::Function(_, None) => Some(name),
        ProcedureKind::Subroutine => None,
    }
}

fn symbol_of(name: Option<Name>) -> Option<usize>
    ensures { result ≡ option_map (λ n. n.symbol) name }
{
    match name {
        Some(name) => Some(name.symbol),
        None => None,
    }
}

/// Adds the entities that names mean in a scope.
fn add_entities(
    found: &mut Vec<usize>,
    tables: &Tables,
    scope: usize,
    names: &[Name],
) -> Result<(), AllocError>
    ensures { OnOk result (found.new.items ≡ found.old.items ++ entities_of (lookup_of tables.now) scope names.now) }
{
    for name in names {
        found.push(entity_of(lookup(tables, scope, name.symbol)))?;
    }
    Ok(())
}

/// Adds the entity of a result.
fn add_result(
    found: &mut Vec<usize>,
    tables: &Tables,
    scope: usize,
    outcome: Option<Name>,
) -> Result<(), AllocError>
    ensures { OnOk result (found.new.items ≡ found.old.items ++ entities_of (lookup_of tables.now) scope (map_or [] (λ n. n ∷ []) outcome)) }
{
    match outcome {
        Some(name) => {
            found.push(entity_of(lookup(tables, scope, name.symbol)))?;
            Ok(())
        }
        None => Ok(()),
    }
}

/// The variables of a procedure's activations: those that are not saved and no dummies, and a function's result behind them.
fn member_variables(
    alloc: Global,
    tables: &Tables,
    scope: usize,
    first: usize,
    procedure: &Procedure,
) -> Result<Vec<usize>, AllocError>
    requires { first + typed_count procedure.now.header.kind + length (flat_map declared_in (procedure_view procedure.now).part.specifications) < 2 ^ 64 }
    ensures { IfOk result (λ v. v.items ≡ (member_inner (lookup_of tables.now) scope first (procedure_view procedure.now)).variables) }
{
    let dummies = name_set(alloc, &procedure.header.dummies)?;
    let outcome = result_of(procedure.header.kind, procedure.header.name);
    let wanted = Wanted {
        saved: false,
        unsaved: true,
        dummies: Some(&dummies),
        result_name: symbol_of(outcome),
    };
    let mut found = Vec::new(alloc);
    add_member(&mut found, wanted, first, procedure)?;
    add_result(&mut found, tables, scope, outcome)?;
    Ok(found)
}

/// The variables of the main program that are not saved.
fn main_variables(alloc: Global, first: usize, unit: &Unit) -> Result<Vec<usize>, AllocError>
    requires { first + length (flat_map declared_in (unit_view unit.now).part.specifications) < 2 ^ 64 }
    ensures { IfOk result (λ v. v.items ≡ (main_inner first (unit_view unit.now)).variables) }
{
    let wanted = Wanted {
        saved: false,
        unsaved: true,
        dummies: None,
        result_name: None,
    };
    let mut found = Vec::new(alloc);
    add_names(&mut found, wanted, first, &unit.part.specifications)?;
    Ok(found)
}

/// Adds these variables and these dummies.
fn enter(
    alloc: Global,
    numbers: &mut Numbers,
    variables: &[usize],
    lent: &[usize],
) -> Result<Entered, AllocError>
    ensures inside { IfOk result (λ x. IsInside x numbers.new numbers.old) }
    ensures agrees { OnOk result ((whole : elaborated.Numbers) (inner : elaborated.Inner) → inner.variables ≡ variables.now → inner.lent ≡ lent.now → Agrees numbers.old whole nothing_inside → Agrees numbers.new whole inner) }
{
    let mut added = Vec::new(alloc);
    add_objects(numbers, &mut added, Storage::Local, variables)?;
    add_objects(numbers, &mut added, Storage::Lent, lent)?;
    Ok(Entered { added })
}

/// Adds the numbers of a procedure to those of the program: of its variables and its dummies. `lent` becomes the entities of the dummies.
/// The scope of the procedure is given, and the first entity of this scope.
///
/// # Errors
///
/// Where memory runs out: then the numbers are of no use any more.
pub fn enter_member(
    alloc: Global,
    numbers: &mut Numbers,
    lent: &mut Vec<usize>,
    tables: &Tables,
    scope: usize,
    first: usize,
    procedure: &Procedure,
) -> Result<Entered, AllocError>
    requires { first + typed_count procedure.now.header.kind + length (flat_map declared_in (procedure_view procedure.now).part.specifications) < 2 ^ 64 }
    ensures inside { IfOk result (λ x. IsInside x numbers.new numbers.old) }
    ensures agrees { OnOk result ((whole : elaborated.Numbers) (unit : ℕ) (m : Member) → m.scope ≡ scope → m.first ≡ first → m.tree ≡ procedure_view procedure.now → Agrees numbers.old whole nothing_inside → Agrees numbers.new whole (numbers_in_member (lookup_of tables.now) unit m)) }
    ensures lent { OnOk result ((unit : ℕ) (m : Member) → m.scope ≡ scope → m.first ≡ first → m.tree ≡ procedure_view procedure.now → lent.new.items ≡ (numbers_in_member (lookup_of tables.now) unit m).lent) }
    ensures undoes { IfOk result (λ x. (whole : elaborated.Numbers) (unit : ℕ) (m : Member) → m.scope ≡ scope → m.first ≡ first → m.tree ≡ procedure_view procedure.now → Agrees numbers.old whole nothing_inside → Undoes x whole (numbers_in_member (lookup_of tables.now) unit m)) }
{
    let variables = member_variables(alloc, tables, scope, first, procedure)?;
    lent.clear();
    add_entities(lent, tables, scope, &procedure.header.dummies)?;
    let entered = enter(alloc, numbers, &variables, lent)?;
    Ok(entered)
}

/// The same for the main program, which has no dummies. The first entity of its scope is given.
///
/// # Errors
///
/// Where memory runs out: then the numbers are of no use any more.
pub fn enter_main(
    alloc: Global,
    numbers: &mut Numbers,
    lent: &mut Vec<usize>,
    first: usize,
    unit: &Unit,
) -> Result<Entered, AllocError>
    requires { first + length (flat_map declared_in (unit_view unit.now).part.specifications) < 2 ^ 64 }
    ensures inside { IfOk result (λ x. IsInside x numbers.new numbers.old) }
    ensures agrees { OnOk result ((whole : elaborated.Numbers) (u : Numbered) → u.first ≡ first → u.tree ≡ unit_view unit.now → Agrees numbers.old whole nothing_inside → Agrees numbers.new whole (numbers_in_main u)) }
    ensures lent { OnOk result ((u : Numbered) → lent.new.items ≡ (numbers_in_main u).lent) }
    ensures undoes { IfOk result (λ x. (whole : elaborated.Numbers) (u : Numbered) → u.first ≡ first → u.tree ≡ unit_view unit.now → Agrees numbers.old whole nothing_inside → Undoes x whole (numbers_in_main u)) }
{
    let variables = main_variables(alloc, first, unit)?;
    lent.clear();
    let entered = enter(alloc, numbers, &variables, lent)?;
    Ok(entered)
}

/// Removes what was added. Of the numbers that it was added to those of the program are left.
pub fn leave(numbers: &mut Numbers, entered: Entered)
    ensures objects { (e : ℕ) → object_in numbers.new e ≡ without entered.added.items (object_in numbers.old) e }
    ensures procedures { (e : ℕ) → procedure_in numbers.new e ≡ procedure_in numbers.old e }
    ensures types { (e : ℕ) → type_in numbers.new e ≡ type_in numbers.old e }
    ensures agrees { (whole : elaborated.Numbers) (inner : elaborated.Inner) → Agrees numbers.old whole inner → Undoes entered whole inner → Agrees numbers.new whole nothing_inside }
{
    for entity in &entered.added {
        numbers.remove_object(*entity);
    }
}
