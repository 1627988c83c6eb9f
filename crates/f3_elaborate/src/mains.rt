//! The main program.

ghost use Rattle.std.specs.Prelude.{◌≡◌, ◌+◌, ◌<◌, ◌^◌, ℕ, List, map, length, IfOk};
ghost use Rattle.std.specs.List.{flat_map};
ghost use Rattle.f3_scopes.specs.Outlines.{Scope};
ghost use Rattle.f3_scopes.specs.Scopes.{declared_in};
ghost use Rattle.f3_tree.specs.Tree as trees;
ghost use Rattle.f3_sites.specs.Sites.{site_of};
ghost use Rattle.f3_associates.specs.Known.{IsSettled};
ghost use Rattle.f3_type_rules.specs.Associates.{constructs_of_block};
ghost use Rattle.f3_type_rules.specs.Members.{Numbered, units_from};
ghost use Rattle.f3_kinds.specs.Things.{map_or};
ghost use Rattle.f3_types.specs.Members.{AreFirsts};
ghost use Rattle.f3_types.specs.Units.{AreNumbers};
ghost use Rattle.f3_elaboration.specs.Declarations as elaborated;
ghost use Rattle.f3_elaboration.specs.DeclaredViews.{procedure_view};
ghost use Rattle.f3_elaboration.specs.Program.{is_main, main_unit, nothing_done};
ghost use Rattle.f3_elaboration.specs.Units as units;
ghost use Rattle.f3_program_numbers.specs.Fitting.{AllFit};
ghost use Rattle.f3_elaborate.specs.Inner.Knows.{Knows};
ghost use Rattle.f3_elaborate.specs.Inner.Units.{main_place};

use crate::procedures::main_program;
use crate::units::Walk;
use f3_inside::state::State;
use f3_places::source::Place;
use f3_program::program::Procedure;
use f3_program::statement::Statement;
use f3_tree::program as tree;
use f3_tree::program::UnitKind;
use std::alloc::{AllocError, Global};

/// The main program, and where it begins.
#[derive(Drop)]
pub struct Main {
    pub procedure: Procedure,
    pub start: Place,
}

/// Whether a unit is a main program (11.1).
fn is_main(kind: UnitKind) -> bool
    ensures { result ≡ is_main kind }
{
    match kind {
        UnitKind::Module => false,
        UnitKind::Program => true,
    }
}

/// The place of the first main program among units.
fn main_among(list: &[tree::Unit]) -> Option<usize>
    ensures { result ≡ main_place (map trees.unit_view list.now) }
{
    for number in 0..list.len() {
        if is_main(list[number].kind) {
            return Some(number);
        }
    }
    None
}

/// Of a program without a main program, which ends there.
fn no_main(alloc: Global, end: Place) -> Main
    ensures procedure { procedure_view result.procedure ≡ nothing_done end }
    ensures start { result.start ≡ end }
{
    let procedure = Procedure {
        unit: 0,
        dummies: Vec::new(alloc),
        locals: Vec::new(alloc),
        result: None,
        body: Statement::Block(Vec::new(alloc)),
        end,
    };
    Main {
        procedure,
        start: end,
    }
}

/// The main program of a program, which ends there. The scopes of its units are given.
///
/// # Errors
///
/// Where memory runs out: then the state is of no use any more.
pub fn main_of(
    alloc: Global,
    walk: Walk<'_>,
    state: &mut State<'_>,
    numbers: &[usize],
    list: &[tree::Unit],
    end: Place,
) -> Result<Main, AllocError>
    requires settled { IsSettled (site_of state.old.site) }
    requires fit { AllFit walk.firsts.now numbers.now (map trees.unit_view list.now) }
    requires numbers { length numbers.now ≡ length list.now }
    ensures procedure { IfOk result (λ x. (w : elaborated.Whole) (scopes : List Scope) → Knows walk.entry.scenery state.old w → AreFirsts scopes walk.entry.firsts.now → AreNumbers scopes numbers.now (map trees.unit_view list.now) → procedure_view x.procedure ≡ map_or (nothing_done end) (units.main w) (main_unit (units_from scopes 0 (map trees.unit_view list.now)))) }
    ensures start { IfOk result (λ x. (scopes : List Scope) → AreNumbers scopes numbers.now (map trees.unit_view list.now) → x.start ≡ map_or end (λ (u : Numbered). (u.tree).place) (main_unit (units_from scopes 0 (map trees.unit_view list.now)))) }
{
    match main_among(list) {
        Some(number) => {
            let scope = numbers[number];
            let unit = &list[number];
            let procedure = main_program(
                alloc,
                walk.scenery,
                state,
                scope,
                walk.firsts[scope],
                unit,
            )?;
            Ok(Main {
                procedure,
                start: unit.place,
            })
        }
        None => Ok(no_main(alloc, end)),
    }
}
