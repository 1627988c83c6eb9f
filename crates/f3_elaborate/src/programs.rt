//! A whole program from what is known of it.

ghost use Rattle.std.specs.Prelude.{◌≡◌, List, map, IfOk};
ghost use Rattle.std.specs.List.{flat_map};
ghost use Rattle.f3_scopes.specs.Scopes.{scopes_of};
ghost use Rattle.f3_tree.specs.Tree.{view};
ghost use Rattle.f3_graph.specs.Order.{numbers_of};
ghost use Rattle.f3_names.specs.Tables.{AreNames};
ghost use Rattle.f3_numbers.specs.Agrees.{nothing_inside};
ghost use Rattle.f3_declaration_nodes.specs.Stands.{Stands};
ghost use Rattle.f3_sites.specs.Sites.{site_of};
ghost use Rattle.f3_associates.specs.Known.{IsSettled};
ghost use Rattle.f3_kinds.specs.Things.{map_or};
ghost use Rattle.f3_type_rules.specs.Members.{Numbered, units_from};
ghost use Rattle.f3_type_rules.specs.Program.{units_in};
ghost use Rattle.f3_elaboration.specs.Declarations as elaborated;
ghost use Rattle.f3_elaboration.specs.DeclaredViews.{derived_view, procedure_view, program_view, static_view};
ghost use Rattle.f3_elaboration.specs.Numbers.{definitions, unit_statics};
ghost use Rattle.f3_elaboration.specs.Program.{main_unit, nothing_done, program_along};
ghost use Rattle.f3_elaboration.specs.Units as units;
ghost use Rattle.f3_elaborate.specs.Inner.Knows.{Knows};
ghost use Rattle.f3_elaborate.specs.Inner.Units.{procedures_in};

use crate::mains::{Main, main_of};
use crate::units::{Walk, procedures};
use f3_declaration_nodes::whole::Whole;
use f3_declared::scenery::Scenery;
use f3_graph::UnitOrder;
use f3_inside::state::State;
use f3_names::table::Names;
use f3_program::declarations::Derived;
use f3_program::program::{Procedure, Program, Static};
use f3_tree::program as tree;
use f3_type_nodes::units::types;
use f3_types::firsts::firsts;
use f3_variable_nodes::statics::statics;
use std::alloc::{AllocError, Global};

/// The types of a program, and the variables that live for the whole run.
#[derive(Drop)]
struct Declarations {
    types: Vec<Derived>,
    statics: Vec<Static>,
}

/// The procedures of a program, and its main program.
#[derive(Drop)]
struct Bodies {
    procedures: Vec<Procedure>,
    main: Main,
}

/// What a program declares for the whole run.
fn declarations_of(
    alloc: Global,
    whole: Whole<'_>,
    program: &tree::Program,
    order: &UnitOrder,
    names: &Names,
) -> Result<Declarations, AllocError>
    requires names { AreNames (view program.now) names.now }
    ensures types { let us = units_from (scopes_of (view program.now)) 0 (view program.now).units in IfOk result (λ d. (w : elaborated.Whole) → Stands whole.entry w nothing_inside → map derived_view d.types.items ≡ map (elaborated.derived w) (flat_map definitions (units_in us (numbers_of order.now)))) }
    ensures statics { let us = units_from (scopes_of (view program.now)) 0 (view program.now).units in IfOk result (λ d. (w : elaborated.Whole) → Stands whole.entry w nothing_inside → map static_view d.statics.items ≡ map (elaborated.static w) (flat_map unit_statics us)) }
{
    let types = types(alloc, whole, program, order, names)?;
    let statics = statics(alloc, whole, names, program)?;
    Ok(Declarations { types, statics })
}

/// What a program does: its procedures and its main program.
fn bodies_of(
    alloc: Global,
    scenery: Scenery<'_>,
    state: &mut State<'_>,
    program: &tree::Program,
    names: &Names,
) -> Result<Bodies, AllocError>
    requires names { AreNames (view program.now) names.now }
    requires settled { IsSettled (site_of state.old.site) }
    ensures procedures { let us = units_from (scopes_of (view program.now)) 0 (view program.now).units in IfOk result (λ b. (w : elaborated.Whole) → Knows scenery.entry state.old w → map procedure_view b.procedures.items ≡ flat_map (procedures_in w) us) }
    ensures main { let us = units_from (scopes_of (view program.now)) 0 (view program.now).units in IfOk result (λ b. (w : elaborated.Whole) → Knows scenery.entry state.old w → procedure_view b.main.procedure ≡ map_or (nothing_done program.now.end) (units.main w) (main_unit us)) }
    ensures start { let us = units_from (scopes_of (view program.now)) 0 (view program.now).units in IfOk result (λ b. b.main.start ≡ map_or program.now.end (λ (u : Numbered). (u.tree).place) (main_unit us)) }
{
    let firsts = firsts(alloc, names.outlines())?;
    let walk = Walk {
        scenery,
        firsts: &firsts,
    };
    let scopes = names.unit_scopes();
    let procedures = procedures(alloc, walk, state, scopes, &program.units)?;
    let main = main_of(alloc, walk, state, scopes, &program.units, program.end)?;
    Ok(Bodies { procedures, main })
}

/// The elaborated program of a tree of which this is known.
///
/// # Errors
///
/// Where memory runs out: then the state is of no use any more.
pub fn program_of(
    alloc: Global,
    scenery: Scenery<'_>,
    state: &mut State<'_>,
    program: &tree::Program,
    order: &UnitOrder,
    names: &Names,
) -> Result<Program, AllocError>
    requires names { AreNames (view program.now) names.now }
    requires settled { IsSettled (site_of state.old.site) }
    ensures { let us = units_from (scopes_of (view program.now)) 0 (view program.now).units in IfOk result (λ p. (w : elaborated.Whole) → Knows scenery.entry state.old w → program_view p ≡ program_along w us (units_in us (numbers_of order.now)) program.now.end) }
{
    let whole = Whole {
        known: &state.site.known,
        scenery,
        numbers: &state.numbers,
    };
    let Declarations { types, statics } = declarations_of(alloc, whole, program, order, names)?;
    let Bodies { procedures, main } = bodies_of(alloc, scenery, state, program, names)?;
    let Main { procedure, start } = main;
    Ok(Program {
        types,
        statics,
        procedures,
        main: procedure,
        start,
    })
}
