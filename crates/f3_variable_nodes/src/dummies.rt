//! The dummies of procedures, and the results of functions (12.3.1.1, 12.5.2.1).

ghost use Rattle.std.specs.Prelude.{◌≡◌, ℕ, nat_eq, map, option_map, IfOk};
ghost use Rattle.std.specs.Map.{lookup};
ghost use Rattle.indexmap.specs.IndexMap.{get};
ghost use Rattle.f3_scopes.specs.Scopes.{name_or};
ghost use Rattle.f3_tree.specs.Declarations.{specification_view};
ghost use Rattle.f3_tree.specs.Tree.{procedure_view};
ghost use Rattle.f3_type_rules.specs.Members.{Member};
ghost use Rattle.f3_type_rules.specs.Names.{entries};
ghost use Rattle.f3_elaboration.specs.Declarations as elaborated;
ghost use Rattle.f3_elaboration.specs.DeclaredViews.{declared_view, dummy_view};
ghost use Rattle.f3_elaboration.specs.Numbers.{Inner};
ghost use Rattle.f3_elaboration.specs.Units as units;
ghost use Rattle.f3_declaration_nodes.specs.Stands.{Stands};
ghost use Rattle.f3_variable_nodes.specs.Dummies.{dummy_from, found_view, result_by, result_from};

use crate::declarations::{Found, declarations};
use f3_declaration_nodes::declared::make_declared;
use f3_declaration_nodes::variables::{make_dummy, make_result};
use f3_declaration_nodes::whole::Whole;
use f3_declared::attributes::read;
use f3_natures::objects::undeclared;
use f3_program::declarations::Declared;
use f3_program::program::{Dummy, Intent};
use f3_tree::expression::Name;
use f3_tree::program::{Procedure, ProcedureKind};
use indexmap::IndexMap;
use std::alloc::{AllocError, Global};

/// A dummy by its declaration, where there is one.
fn dummy_from(
    alloc: Global,
    whole: Whole<'_>,
    unit: usize,
    scope: usize,
    declarations: &IndexMap<usize, Found<'_>>,
    symbol: usize,
) -> Result<Dummy, AllocError>
    ensures { IfOk result (λ d. dummy_view d ≡ dummy_from whole.entry unit scope (option_map found_view (get nat_eq declarations.now symbol))) }
{
    match declarations.get(&symbol) {
        Some(found) => {
            let reading = read(found.declaration);
            let made = make_dummy(alloc, whole, unit, scope, &reading, found.entity)?;
            Ok(made)
        }
        None => Ok(Dummy {
            kind: whole.numbers.kind(undeclared()),
            intent: Intent::In,
            lowers: Vec::new(alloc),
        }),
    }
}

fn dummies_from(
    alloc: Global,
    whole: Whole<'_>,
    unit: usize,
    scope: usize,
    declarations: &IndexMap<usize, Found<'_>>,
    list: &[Name],
) -> Result<Vec<Dummy>, AllocError>
    ensures { IfOk result (λ v. map dummy_view v.items ≡ map (λ n. dummy_from whole.entry unit scope (option_map found_view (get nat_eq declarations.now n.symbol))) list.now) }
{
    let mut found = Vec::new(alloc);
    for name in list {
        let made = dummy_from(alloc, whole, unit, scope, declarations, name.symbol)?;
        found.push(made)?;
    }
    Ok(found)
}

/// The dummies of a procedure, in order (12.3.1.1).
///
/// # Errors
///
/// Where memory runs out.
pub fn dummies(
    alloc: Global,
    whole: Whole<'_>,
    unit: usize,
    scope: usize,
    procedure: &Procedure,
) -> Result<Vec<Dummy>, AllocError>
    ensures { IfOk result (λ v. (w : elaborated.Whole) (inner : Inner) (m : Member) → Stands whole.entry w inner → m.scope ≡ scope → m.tree ≡ procedure_view procedure.now → map dummy_view v.items ≡ map (units.dummy w unit m) procedure.now.header.dummies.items) }
{
    let declarations = declarations(alloc, &procedure.part.specifications)?;
    let list = procedure.header.dummies.as_slice();
    let found = dummies_from(alloc, whole, unit, scope, &declarations, list)?;
    Ok(found)
}

/// A result by its declaration, where there is one.
fn result_from(
    alloc: Global,
    whole: Whole<'_>,
    unit: usize,
    scope: usize,
    declarations: &IndexMap<usize, Found<'_>>,
    symbol: usize,
) -> Result<Declared, AllocError>
    ensures { IfOk result (λ d. declared_view d ≡ result_from whole.entry unit scope (option_map found_view (get nat_eq declarations.now symbol))) }
{
    match declarations.get(&symbol) {
        Some(found) => {
            let reading = read(found.declaration);
            let made = make_declared(alloc, whole, unit, scope, &reading, found.entity)?;
            Ok(made)
        }
        None => Ok(Declared {
            kind: whole.numbers.kind(undeclared()),
            dimensions: Vec::new(alloc),
            initial: Vec::new(alloc),
        }),
    }
}

fn name_or(outcome: Option<Name>, name: Name) -> Name
    ensures { result ≡ name_or outcome name }
{
    match outcome {
        Some(outcome) => outcome,
        None => name,
    }
}

fn make_outcome(
    alloc: Global,
    whole: Whole<'_>,
    unit: usize,
    scope: usize,
    procedure: &Procedure,
) -> Result<Option<Declared>, AllocError>
    ensures { IfOk result (λ r. option_map declared_view r ≡ result_by whole.entry unit scope (λ k. lookup (nat_eq k) (entries (map specification_view procedure.now.part.specifications.items))) procedure.now.header.kind procedure.now.header.name) }
{
    match procedure.header.kind {
        ProcedureKind::Subroutine => Ok(None),
        ProcedureKind::Function(Some(specifier), _) => {
            Ok(Some(make_result(alloc, whole, scope, specifier)))
        }
        ProcedureKind::Function(None, outcome) => {
            let symbol = name_or(outcome, procedure.header.name).symbol;
            let declarations = declarations(alloc, &procedure.part.specifications)?;
            let made = result_from(alloc, whole, unit, scope, &declarations, symbol)?;
            Ok(Some(made))
        }
    }
}

/// The result of a function; of a subroutine none (12.5.2.1).
///
/// # Errors
///
/// Where memory runs out.
pub fn result(
    alloc: Global,
    whole: Whole<'_>,
    unit: usize,
    scope: usize,
    procedure: &Procedure,
) -> Result<Option<Declared>, AllocError>
    ensures { IfOk result (λ r. (w : elaborated.Whole) (inner : Inner) (m : Member) → Stands whole.entry w inner → m.scope ≡ scope → m.tree ≡ procedure_view procedure.now → option_map declared_view r ≡ units.result_of w unit m procedure.now.header.kind) }
{
    let made = make_outcome(alloc, whole, unit, scope, procedure)?;
    Ok(made)
}
