//! The elaborated program of a checked tree.

ghost use Rattle.std.specs.Prelude.{◌≡◌, IfOk};
ghost use Rattle.f3_tree.specs.Tree.{view};
ghost use Rattle.f3_graph.specs.Order.{numbers_of};
ghost use Rattle.f3_names.specs.Tables.{AreNames, lookup_at};
ghost use Rattle.f3_types.specs.Types.{AreTypesAlong};
ghost use Rattle.f3_elaboration.specs.DeclaredViews.{program_view};
ghost use Rattle.f3_elaboration.specs.Program.{elaborated};

use crate::beginning::{Start, begin};
use crate::programs::program_of;
use f3_declared::scenery::Scenery;
use f3_graph::UnitOrder;
use f3_inside::state::State;
use f3_names::table::Names;
use f3_program::program::Program;
use f3_program_numbers::program::program_numbers;
use f3_tree::program as tree;
use f3_types::table::Types;
use std::alloc::{AllocError, Global};

/// The elaborated program of a tree, with an order of its units in which used modules come first, what its names mean and what its
/// entities are.
///
/// # Errors
///
/// Where memory runs out.
pub fn elaborate(
    alloc: Global,
    program: &tree::Program,
    order: &UnitOrder,
    names: &Names,
    types: Types,
) -> Result<Program, AllocError>
    requires names { AreNames (view program.now) names.now }
    requires types { AreTypesAlong (view program.now) (lookup_at names.now) (numbers_of order.now) types }
    ensures { IfOk result (λ p. program_view p ≡ elaborated (view program.now) (lookup_at names.now) (numbers_of order.now)) }
{
    let (things, values) = types.tables();
    let Start {
        site,
        kinds,
        holders,
    } = begin(alloc, program, names, things, values)?;
    let numbers = program_numbers(alloc, program, order, names)?;
    let mut state = State {
        site,
        numbers,
        lent: Vec::new(alloc),
        texts: &program.texts,
    };
    let scenery = Scenery {
        kinds: &kinds,
        holders: &holders,
    };
    let made = program_of(alloc, scenery, &mut state, program, order, names);
    drop(state);
    made
}
