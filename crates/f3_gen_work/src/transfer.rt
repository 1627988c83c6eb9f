//! The code of assignments, with the variable on top of the value.

ghost use Rattle.std.specs.Prelude.{length, OnOk};
ghost use Rattle.f3_code.specs.Core as c;
ghost use Rattle.f3_code.specs.Work as w;
ghost use Rattle.f3_code.specs.Lower.{overwriting, filling, assigning, destroy_work};
ghost use Rattle.f3_code.specs.Code.{transfer_code};
ghost use Rattle.f3_gen_work.specs.EmittedIn.{EmittedBy, EmittedIn};

use crate::types::Types;
use crate::work::{emit_deallocation, emit_destruction, put_initial};
use f3_code::instruction::Instruction;
use f3_gen_values::line::{Line, put};
use f3_places::source::Place;
use f3_program::declarations::Kind;
use std::alloc::AllocError;

/// What was there is destroyed, then the value put there (7.4.1.3).
fn emit_overwriting(
    code: &mut Vec<Line>,
    place: Option<Place>,
    types: &Types<'_>,
    kind: Kind,
) -> Result<(), AllocError>
    ensures { OnOk result (EmittedIn types.now code.old.items code.new.items (λ g. transfer_code (length types.now) place (overwriting g kind))) }
{
    put(code, place, Instruction::Take(kind.of))?;
    emit_destruction(code, place, types, types.len(), kind.of)
}

/// A new object with the shape of the value (own rule).
fn emit_filling(code: &mut Vec<Line>, place: Option<Place>, kind: Kind) -> Result<(), AllocError>
    ensures { OnOk result (EmittedBy code.old.items code.new.items (λ g. transfer_code 0 place (filling g kind))) }
{
    put(code, place, Instruction::Fill(kind.of))?;
    put(code, place, Instruction::Contents)?;
    put_initial(code, place, kind.of, Instruction::New(kind.rank))
}

/// What an allocated variable of another shape holds is deallocated, then a new object takes its place (own rule).
fn emit_replacing(
    code: &mut Vec<Line>,
    place: Option<Place>,
    types: &Types<'_>,
    kind: Kind,
) -> Result<(), AllocError>
    ensures { OnOk result (EmittedIn types.now code.old.items code.new.items
        (λ g. transfer_code (length types.now) place (c.Behind (w.Of_contents (destroy_work g kind.of)) (filling g kind)))) }
{
    emit_filling(code, place, kind)?;
    emit_deallocation(code, place, types, types.len(), kind.of)
}

/// An assignment to a whole allocatable: by its state and shape it is overwritten, replaced or allocated (own rule).
fn emit_allocating(
    code: &mut Vec<Line>,
    place: Option<Place>,
    types: &Types<'_>,
    kind: Kind,
) -> Result<(), AllocError>
    ensures { OnOk result (EmittedIn types.now code.old.items code.new.items (λ g. transfer_code (length types.now) place
        (c.By_state (c.In_contents (overwriting g kind)) (c.Behind (w.Of_contents (destroy_work g kind.of)) (filling g kind)) (c.Of_rank kind.rank (filling g kind))))) }
{
    let behind = code.len();
    emit_filling(code, place, kind)?;
    put(code, place, Instruction::TestRank(kind.rank))?;
    let unallocated = code.len();
    put(code, place, Instruction::GoOn(unallocated - behind))?;
    emit_replacing(code, place, types, kind)?;
    let other = code.len();
    put(code, place, Instruction::GoOn(other - behind))?;
    emit_overwriting(code, place, types, kind)?;
    put(code, place, Instruction::Contents)?;
    let same = code.len();
    put(
        code,
        place,
        Instruction::ByState(same - other, same - unallocated),
    )
}

/// The value goes to a variable of a kind (7.4.1.3).
pub fn emit_transfer(
    code: &mut Vec<Line>,
    place: Option<Place>,
    types: &Types<'_>,
    kind: Kind,
) -> Result<(), AllocError>
    ensures { OnOk result (EmittedIn types.now code.old.items code.new.items (λ g. transfer_code (length types.now) place (assigning g kind))) }
{
    if kind.is_allocatable {
        emit_allocating(code, place, types, kind)
    } else {
        emit_overwriting(code, place, types, kind)?;
        put(code, place, Instruction::TestShape)
    }
}
