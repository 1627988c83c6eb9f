//! What is declared of a procedure before its body.

ghost use Rattle.std.specs.Prelude.{◌≡◌, map, option_map, IfOk};
ghost use Rattle.f3_tree.specs.Tree.{procedure_view};
ghost use Rattle.f3_type_rules.specs.Members.{Member};
ghost use Rattle.f3_declaration_nodes.specs.Stands.{Stands};
ghost use Rattle.f3_elaboration.specs.Declarations as elaborated;
ghost use Rattle.f3_elaboration.specs.DeclaredViews.{declared_view, dummy_view};
ghost use Rattle.f3_elaboration.specs.Numbers.{Inner, member_locals};
ghost use Rattle.f3_elaboration.specs.Units as units;

use f3_declaration_nodes::whole::Whole;
use f3_program::declarations::Declared;
use f3_program::program::Dummy;
use f3_tree::program::Procedure;
use f3_variable_nodes::dummies::{dummies, result};
use f3_variable_nodes::locals::member_locals;
use std::alloc::{AllocError, Global};

/// The dummies, the variables and the result of a procedure.
#[derive(Drop)]
pub struct Heading {
    pub dummies: Vec<Dummy>,
    pub locals: Vec<Declared>,
    pub outcome: Option<Declared>,
}

/// What is declared of a procedure of a unit, both by their scopes.
///
/// # Errors
///
/// Where memory runs out.
pub fn head(
    alloc: Global,
    whole: Whole<'_>,
    unit: usize,
    scope: usize,
    procedure: &Procedure,
) -> Result<Heading, AllocError>
    ensures dummies { IfOk result (λ h. (w : elaborated.Whole) (inner : Inner) (m : Member) → Stands whole.entry w inner → m.scope ≡ scope → m.tree ≡ procedure_view procedure.now → map dummy_view h.dummies.items ≡ map (units.dummy w unit m) procedure.now.header.dummies.items) }
    ensures locals { IfOk result (λ h. (w : elaborated.Whole) (inner : Inner) (m : Member) → Stands whole.entry w inner → m.scope ≡ scope → m.tree ≡ procedure_view procedure.now → map declared_view h.locals.items ≡ map (elaborated.variable w) (member_locals unit m)) }
    ensures outcome { IfOk result (λ h. (w : elaborated.Whole) (inner : Inner) (m : Member) → Stands whole.entry w inner → m.scope ≡ scope → m.tree ≡ procedure_view procedure.now → option_map declared_view h.outcome ≡ units.result_of w unit m procedure.now.header.kind) }
{
    let dummies = dummies(alloc, whole, unit, scope, procedure)?;
    let locals = member_locals(alloc, whole, unit, scope, procedure)?;
    let outcome = result(alloc, whole, unit, scope, procedure)?;
    Ok(Heading {
        dummies,
        locals,
        outcome,
    })
}
