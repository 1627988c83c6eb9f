//! The code of ALLOCATE and DEALLOCATE.

ghost use Rattle.std.specs.Prelude.{◌∷◌, [], ◌++◌, length, map, OnOk};
ghost use Rattle.f3_code.specs.Lower.{allocation, deallocation, object_work, initial};
ghost use Rattle.f3_code.specs.Work as w;
ghost use Rattle.f3_code.specs.State.{line, line_with};
ghost use Rattle.f3_code.specs.Code.{allocate_code, deallocate_code, dimensions_code, free_code, locate_code, status_code, value_code};
ghost use Rattle.f3_gen_values.specs.Emitted.{Emitted};
ghost use Rattle.f3_gen_work.specs.EmittedIn.{EmittedBy, EmittedIn};

use f3_code::instruction::Instruction;
use f3_gen_values::line::{Line, put};
use f3_gen_values::value::{emit_object, emit_object_then, emit_value, emit_value_then};
use f3_gen_work::types::Types;
use f3_gen_work::work::{emit_deallocation, put_initial};
use f3_places::source::Place;
use f3_program::declarations::Base;
use f3_program::expression::Designator;
use f3_program::statement::{Bounds, Request};
use std::alloc::AllocError;

/// The bounds of a dimension (6.3.1).
fn emit_dimension(
    code: &mut Vec<Line>,
    place: Option<Place>,
    bounds: &Bounds,
) -> Result<(), AllocError>
    ensures { OnOk result (Emitted code.old.items code.new.items (dimensions_code place (bounds.now ∷ []))) }
{
    emit_value_then(code, place, &bounds.upper, Instruction::Dimension)?;
    emit_value(code, place, &bounds.lower)
}

/// The bounds of dimensions in their order (6.3.1).
fn emit_dimensions(
    code: &mut Vec<Line>,
    place: Option<Place>,
    bounds: &[Bounds],
) -> Result<(), AllocError>
    ensures { OnOk result (Emitted code.old.items code.new.items (dimensions_code place bounds.now)) }
{
    let mut i = bounds.len();
    while i > 0 {
        i -= 1;
        emit_dimension(code, place, &bounds[i])?;
    }
    Ok(())
}

/// An object of an ALLOCATE, in front of so many lines, which are passed over where it fails (6.3.1).
fn emit_allocation(
    code: &mut Vec<Line>,
    place: Option<Place>,
    request: &Request,
    others: usize,
) -> Result<(), AllocError>
    ensures { OnOk result (EmittedBy code.old.items code.new.items (λ g. locate_code place request.now.object ++ (dimensions_code place request.now.bounds.items
        ++ (line_with place (initial g request.now.kind.of) (Instruction.Allocate request.now.kind.rank (length request.now.bounds.items))
        ∷ line place (Instruction.SkipIfFailed others) ∷ [])))) }
{
    put(code, place, Instruction::SkipIfFailed(others))?;
    let act = Instruction::Allocate(request.kind.rank, request.bounds.len());
    put_initial(code, place, request.kind.of, act)?;
    emit_dimensions(code, place, &request.bounds)?;
    emit_object(code, place, &request.object)
}

/// The objects of an ALLOCATE in their order, up to one that fails (6.3.1).
pub fn emit_allocations(
    code: &mut Vec<Line>,
    place: Option<Place>,
    requests: &[Request],
) -> Result<(), AllocError>
    ensures { OnOk result (EmittedBy code.old.items code.new.items (λ g. allocate_code place (map (allocation g) requests.now))) }
{
    let behind = code.len();
    put(code, place, Instruction::NoError)?;
    let mut i = requests.len();
    while i > 0 {
        i -= 1;
        let others = code.len() - behind;
        emit_allocation(code, place, &requests[i], others)?;
    }
    Ok(())
}

/// An object is deallocated, or there is an error (6.3.3).
fn emit_free(
    code: &mut Vec<Line>,
    place: Option<Place>,
    types: &Types<'_>,
    of: Base,
) -> Result<(), AllocError>
    ensures { OnOk result (Emitted code.old.items code.new.items (free_code (length types.now) place (w.Of_contents (object_work types.now (length types.now) of)))) }
{
    let behind = code.len();
    put(code, place, Instruction::NoError)?;
    put(code, place, Instruction::Drop)?;
    emit_deallocation(code, place, types, types.len(), of)?;
    let within = code.len() - behind;
    put(code, place, Instruction::TestFree(within))
}

/// An object of a DEALLOCATE, in front of so many lines, which are passed over where it fails (6.3.3).
fn emit_request(
    code: &mut Vec<Line>,
    place: Option<Place>,
    types: &Types<'_>,
    request: &Request,
    others: usize,
) -> Result<(), AllocError>
    ensures { OnOk result (Emitted code.old.items code.new.items (locate_code place request.now.object
        ++ (free_code (length types.now) place (w.Of_contents (object_work types.now (length types.now) request.now.kind.of)) ++ line place (Instruction.SkipIfFailed others) ∷ []))) }
{
    put(code, place, Instruction::SkipIfFailed(others))?;
    emit_free(code, place, types, request.kind.of)?;
    emit_object(code, place, &request.object)
}

/// The objects of a DEALLOCATE in their order, up to one that fails (6.3.3).
pub fn emit_deallocations(
    code: &mut Vec<Line>,
    place: Option<Place>,
    types: &Types<'_>,
    requests: &[Request],
) -> Result<(), AllocError>
    ensures { OnOk result (EmittedIn types.now code.old.items code.new.items (λ g. deallocate_code (length types.now) place (map (deallocation g) requests.now))) }
{
    let behind = code.len();
    put(code, place, Instruction::NoError)?;
    let mut i = requests.len();
    while i > 0 {
        i -= 1;
        let others = code.len() - behind;
        emit_request(code, place, types, &requests[i], others)?;
    }
    Ok(())
}

/// What becomes of an error: the STAT variable takes its number, or, where there is none, it ends the run (6.3.1.3, 6.3.3.3).
pub fn emit_status(
    code: &mut Vec<Line>,
    place: Option<Place>,
    status: &Option<Designator>,
) -> Result<(), AllocError>
    ensures { OnOk result (Emitted code.old.items code.new.items (status_code place status.now)) }
{
    match status {
        None => put(code, place, Instruction::Check),
        Some(variable) => emit_object_then(code, place, variable, Instruction::StoreStatus),
    }
}
