//! Programs whose arrays have at most seven dimensions.

ghost use Rattle.std.specs.Prelude.{◌≡◌, ◌↔◌, true};
ghost use Rattle.std.specs.List.{All};
ghost use Rattle.f3_meaning_whole.specs.Exec.{declared_in};
ghost use Rattle.f3_program.specs.declared.declarations.Component as c;
ghost use Rattle.f3_program.specs.declared.declarations.Declared as d;
ghost use Rattle.f3_program.specs.declared.declarations.Derived as t;
ghost use Rattle.f3_program.specs.declared.program.Procedure as q;
ghost use Rattle.f3_program.specs.declared.program.Static as y;
ghost use Rattle.f3_word_cells.specs.Ranks.{AreRanked, HasRank};

use f3_program::declarations::{Component, Declared, Derived};
use f3_program::program::{Procedure, Program, Static};

/// So many dimensions an array has at most (ISO/IEC 1539-1:2004, 5.1.2.5).
const MOST: usize = 7;

/// Whether a variable or component has no more.
fn has_rank(declared: &Declared) -> bool
    ensures { (result ≡ true) ↔ HasRank declared.now }
{
    declared.dimensions.len() <= MOST
}

/// Whether none of these variables has more.
fn have_ranks(declared: &[Declared]) -> bool
    ensures { (result ≡ true) ↔ All HasRank declared.now }
{
    declared.iter().all(|one| has_rank(one))
}

/// Whether none that lives for the whole run has more.
fn statics_have_ranks(statics: &[Static]) -> bool
    ensures { (result ≡ true) ↔ All (λ (x : y.Static). HasRank x.declared) statics.now }
{
    statics.iter().all(|one| has_rank(&one.declared))
}

/// Whether no component of a type has more.
fn components_have_ranks(components: &[Component]) -> bool
    ensures { (result ≡ true) ↔ All (λ (x : c.Component). HasRank x.declared) components.now }
{
    components.iter().all(|one| has_rank(&one.declared))
}

/// Whether no component of any of these types has more.
fn types_have_ranks(types: &[Derived]) -> bool
    ensures { (result ≡ true) ↔ All (λ (x : t.Derived). All (λ (z : c.Component). HasRank z.declared) x.components.items) types.now }
{
    types
        .iter()
        .all(|one| components_have_ranks(&one.components))
}

/// Whether no variable of a procedure has more, nor its result.
fn procedure_has_ranks(procedure: &Procedure) -> bool
    ensures { (result ≡ true) ↔ All HasRank (declared_in procedure.now) }
{
    if !have_ranks(&procedure.locals) {
        return false;
    }
    match &procedure.result {
        Some(result) => has_rank(result),
        None => true,
    }
}

/// Whether no variable of any of these procedures has more.
fn procedures_have_ranks(procedures: &[Procedure]) -> bool
    ensures { (result ≡ true) ↔ All (λ (x : q.Procedure). All HasRank (declared_in x)) procedures.now }
{
    procedures.iter().all(|one| procedure_has_ranks(one))
}

/// Whether no variable of a program, and no component of any of its types, has more than seven dimensions, which the rules on sources see to
/// (5.1.2.5).
pub fn is_ranked(program: &Program) -> bool
    ensures { (result ≡ true) ↔ AreRanked program.now }
{
    if !types_have_ranks(&program.types) {
        return false;
    }
    if !statics_have_ranks(&program.statics) {
        return false;
    }
    if !procedure_has_ranks(&program.main) {
        return false;
    }
    procedures_have_ranks(&program.procedures)
}
