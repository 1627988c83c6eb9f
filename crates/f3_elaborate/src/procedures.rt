//! Procedures, and the main program.

ghost use Rattle.std.specs.Prelude.{◌≡◌, ◌+◌, ◌<◌, ◌^◌, ℕ, map, length, IfOk, OnOk};
ghost use Rattle.std.specs.List.{flat_map};
ghost use Rattle.f3_scopes.specs.Scopes.{declared_in};
ghost use Rattle.f3_tree.specs.Tree as trees;
ghost use Rattle.f3_sites.specs.Sites.{site_of};
ghost use Rattle.f3_associates.specs.Known.{IsSettled};
ghost use Rattle.f3_type_rules.specs.Associates.{constructs_of_block};
ghost use Rattle.f3_type_rules.specs.Members.{Member, Numbered};
ghost use Rattle.f3_types.specs.Members.{typed_count};
ghost use Rattle.f3_elaboration.specs.Declarations as elaborated;
ghost use Rattle.f3_elaboration.specs.DeclaredViews.{procedure_view};
ghost use Rattle.f3_elaboration.specs.Nodes as nodes;
ghost use Rattle.f3_elaboration.specs.Units as units;
ghost use Rattle.f3_elaboration.specs.Views.{statement_view, statements_of};
ghost use Rattle.f3_elaborate.specs.Inner.Knows.{Knows};

use crate::heads::{Heading, head};
use f3_declaration_nodes::whole::{Whole, place};
use f3_declared::scenery::Scenery;
use f3_inside::state::State;
use f3_program::program::Procedure;
use f3_program::statement::Statement;
use f3_program_numbers::entering::{enter_main, enter_member, leave};
use f3_statement_nodes::blocks::block;
use f3_tree::program as tree;
use f3_variable_nodes::locals::main_locals;
use std::alloc::{AllocError, Global};

/// Where a procedure stands.
#[derive(Clone, Copy)]
pub struct Home {
    /// The scope of its unit.
    pub unit: usize,
    /// Its own scope.
    pub scope: usize,
    /// The entity that this declares first.
    pub first: usize,
}

/// Statements as a block.
fn in_block(list: Vec<Statement>) -> Statement
    ensures { statement_view result ≡ nodes.block (statements_of (map statement_view list.items)) }
{
    Statement::Block(list)
}

/// A procedure (12.5.2), and the number of the scope behind its own and those of its constructs.
///
/// # Errors
///
/// Where memory runs out: then the state is of no use any more.
pub fn procedure(
    alloc: Global,
    scenery: Scenery<'_>,
    state: &mut State<'_>,
    home: Home,
    given: &tree::Procedure,
) -> Result<(Procedure, usize), AllocError>
    requires settled { IsSettled (site_of state.old.site) }
    requires room { home.first + typed_count given.now.header.kind + length (flat_map declared_in (trees.procedure_view given.now).part.specifications) < 2 ^ 64 }
    requires scopes { home.scope + 1 + length (constructs_of_block (trees.procedure_view given.now).body) < 2 ^ 64 }
    ensures node { IfOk result (λ r. (w : elaborated.Whole) (m : Member) → Knows scenery.entry state.old w → m.scope ≡ home.scope → m.first ≡ home.first → m.tree ≡ trees.procedure_view given.now → procedure_view r.0 ≡ units.procedure w home.unit m) }
    ensures next { IfOk result (λ r. r.1 ≡ home.scope + 1 + length (constructs_of_block (trees.procedure_view given.now).body)) }
    ensures knows { OnOk result ((w : elaborated.Whole) → Knows scenery.entry state.old w → Knows scenery.entry state.new w) }
    ensures settled { OnOk result (IsSettled (site_of state.new.site)) }
{
    let Home { unit, scope, first } = home;
    let tables = state.site.known.tables;
    let entered = enter_member(
        alloc,
        &mut state.numbers,
        &mut state.lent,
        tables,
        scope,
        first,
        given,
    )?;
    state.site.at = place(unit, scope);
    let whole = Whole {
        known: &state.site.known,
        scenery,
        numbers: &state.numbers,
    };
    let Heading {
        dummies,
        locals,
        outcome,
    } = head(alloc, whole, unit, scope, given)?;
    let (list, next) = block(alloc, state, scope + 1, &given.body)?;
    leave(&mut state.numbers, entered);
    let body = in_block(list);
    let made = Procedure {
        unit,
        dummies,
        locals,
        result: outcome,
        body,
        end: given.end,
    };
    Ok((made, next))
}

/// The main program (11.1), which has this scope; the first entity of its scope is given.
///
/// # Errors
///
/// Where memory runs out: then the state is of no use any more.
pub fn main_program(
    alloc: Global,
    scenery: Scenery<'_>,
    state: &mut State<'_>,
    scope: usize,
    first: usize,
    given: &tree::Unit,
) -> Result<Procedure, AllocError>
    requires settled { IsSettled (site_of state.old.site) }
    requires room { first + length (flat_map declared_in (trees.unit_view given.now).part.specifications) < 2 ^ 64 }
    requires scopes { scope + 1 + length (constructs_of_block (trees.unit_view given.now).body) < 2 ^ 64 }
    ensures node { IfOk result (λ p. (w : elaborated.Whole) (u : Numbered) → Knows scenery.entry state.old w → u.scope ≡ scope → u.first ≡ first → u.tree ≡ trees.unit_view given.now → procedure_view p ≡ units.main w u) }
    ensures knows { OnOk result ((w : elaborated.Whole) → Knows scenery.entry state.old w → Knows scenery.entry state.new w) }
    ensures settled { OnOk result (IsSettled (site_of state.new.site)) }
{
    let entered = enter_main(alloc, &mut state.numbers, &mut state.lent, first, given)?;
    state.site.at = place(scope, scope);
    let whole = Whole {
        known: &state.site.known,
        scenery,
        numbers: &state.numbers,
    };
    let locals = main_locals(alloc, whole, scope, given)?;
    let (list, _) = block(alloc, state, scope + 1, &given.body)?;
    leave(&mut state.numbers, entered);
    let body = in_block(list);
    Ok(Procedure {
        unit: scope,
        dummies: Vec::new(alloc),
        locals,
        result: None,
        body,
        end: given.end,
    })
}
