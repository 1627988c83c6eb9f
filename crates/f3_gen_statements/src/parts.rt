//! The code of parts of statements that hold no others.

ghost use Rattle.std.specs.Prelude.{◌∷◌, ◌++◌, [], length, map, OnOk};
ghost use Rattle.f3_code.specs.Lower.{allocation, deallocation, selecting};
ghost use Rattle.f3_code.specs.State.{line};
ghost use Rattle.f3_code.specs.Code.{allocate_code, deallocate_code, departing_code, discards_code, limits_code, status_code};
ghost use Rattle.f3_gen_values.specs.Emitted.{Emitted};
ghost use Rattle.f3_gen_work.specs.EmittedIn.{EmittedBy, EmittedIn};
ghost use Rattle.f3_gen_statements.specs.Chain.{test_code};
ghost use Rattle.f3_gen_statements.specs.Leading.{LeadInto, ways_from};

use crate::chain::Test;
use crate::leaving::emit_departing;
use crate::site::{Exits, Site};
use f3_code::instruction::Instruction;
use f3_gen_actions::selecting::{emit_discards, emit_ranges};
use f3_gen_actions::storage::{emit_allocations, emit_deallocations, emit_status};
use f3_gen_values::line::{Line, put};
use f3_gen_values::value::emit_value_then;
use f3_places::source::Place;
use f3_program::declarations::Kind;
use f3_program::expression::{Designator, Expression};
use f3_program::statement::{Request, Selector};
use std::alloc::AllocError;

/// An ALLOCATE (6.3.1).
pub fn emit_allocate(
    code: &mut Vec<Line>,
    place: Option<Place>,
    list: &[Request],
    status: &Option<Designator>,
) -> Result<(), AllocError>
    ensures { OnOk result (EmittedBy code.old.items code.new.items (λ g. allocate_code place (map (allocation g) list.now) ++ status_code place status.now)) }
{
    emit_status(code, place, status)?;
    emit_allocations(code, place, list)
}

/// A DEALLOCATE (6.3.3).
pub fn emit_deallocate(
    code: &mut Vec<Line>,
    site: Site<'_>,
    list: &[Request],
    status: &Option<Designator>,
) -> Result<(), AllocError>
    ensures { OnOk result (EmittedIn site.entry.types.now code.old.items code.new.items (λ g.
        deallocate_code (length site.entry.types.now) site.entry.place (map (deallocation g) list.now) ++ status_code site.entry.place status.now)) }
{
    emit_status(code, site.place, status)?;
    emit_deallocations(code, site.place, site.types, list)
}

/// The bounds and the step of a DO with a variable of a kind (8.1.6.4.1).
pub fn emit_limits(
    code: &mut Vec<Line>,
    place: Option<Place>,
    kind: Kind,
    from: &Expression,
    to: &Expression,
    by: &Expression,
) -> Result<(), AllocError>
    ensures { OnOk result (Emitted code.old.items code.new.items (limits_code place kind from.now to.now by.now [])) }
{
    put(code, place, Instruction::TestStep)?;
    emit_value_then(code, place, by, Instruction::Convert(kind.of))?;
    emit_value_then(code, place, to, Instruction::Convert(kind.of))?;
    emit_value_then(code, place, from, Instruction::Convert(kind.of))
}

/// What a link of a chain is taken by; where it is not, the code goes on so many lines behind (8.1.2, 8.1.3).
pub fn emit_test(
    code: &mut Vec<Line>,
    place: Option<Place>,
    test: Test<'_>,
    distance: usize,
) -> Result<(), AllocError>
    ensures { OnOk result (Emitted code.old.items code.new.items (test_code place test.entry distance)) }
{
    match test {
        Test::Condition(e) => emit_value_then(code, place, e, Instruction::SkipIfFalse(distance)),
        Test::Ranges(ranges) => {
            put(code, place, Instruction::GoOn(distance))?;
            emit_ranges(code, place, ranges)
        }
    }
}

/// The end of an ASSOCIATE: its values end, and it is left as its statements were (8.1.4.3).
pub fn emit_scope_end(
    code: &mut Vec<Line>,
    place: Option<Place>,
    exits: Exits,
    selectors: &[Selector],
) -> Result<(), AllocError>
    requires { LeadInto code.old.items exits }
    ensures { OnOk result (EmittedBy code.old.items code.new.items (λ g. line place Instruction.Associated ∷ (discards_code 0 place (map (selecting g) selectors.now)
        ++ (line place Instruction.EndAssociate ∷ departing_code place (ways_from code.old.items exits))))) }
{
    emit_departing(code, place, exits)?;
    put(code, place, Instruction::EndAssociate)?;
    emit_discards(code, place, selectors)?;
    put(code, place, Instruction::Associated)
}
