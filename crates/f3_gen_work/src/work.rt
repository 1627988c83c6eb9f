//! The code of work on objects: final subroutines, deallocation, and what INTENT(OUT) asks for.

ghost use Rattle.std.specs.Prelude.{◌≡◌, ◌<◌, ◌∷◌, [], true, length, if◌then◌else◌, OnOk, slice_get, slice_index_or};
ghost use Rattle.f3_meaning_whole.specs.Shape.{Whole, shapes_of};
ghost use Rattle.f3_meaning_whole.specs.Destroy.{is_destroyed};
ghost use Rattle.f3_code.specs.Work as w;
ghost use Rattle.f3_code.specs.Lower.{final_work, finals_in, object_work, finish_work, routine_of, discard_work, out_work, initial};
ghost use Rattle.f3_code.specs.State.{line, line_with};
ghost use Rattle.f3_code.specs.Code.{work_code};
ghost use Rattle.f3_gen_values.specs.Emitted.{Emitted};
ghost use Rattle.f3_gen_work.specs.EmittedIn.{EmittedBy, EmittedIn};

use crate::types::Types;
use f3_code::instruction::Instruction;
use f3_gen_values::line::{Line, put};
use f3_places::source::Place;
use f3_program::declarations::{Base, Component, Final, Kind};
use f3_program::program::Intent;
use std::alloc::AllocError;

/// One more line in front, which takes the value with which an object of a type begins.
pub fn put_initial(
    code: &mut Vec<Line>,
    place: Option<Place>,
    of: Base,
    act: Instruction,
) -> Result<(), AllocError>
    ensures { OnOk result (EmittedBy code.old.items code.new.items (λ g. line_with place (initial g of) act ∷ [])) }
{
    code.push(Line {
        place,
        initial: Some(of),
        act,
    })?;
    Ok(())
}

/// The call of a final subroutine for the objects of its rank, in front of so many lines for others (4.5.5).
fn emit_final(
    code: &mut Vec<Line>,
    place: Option<Place>,
    of: Final,
    others: usize,
) -> Result<(), AllocError>
    ensures { OnOk result (Emitted code.old.items code.new.items
        (line place (Instruction.SkipUnlessRank of.rank 4) ∷ line place Instruction.PassObject ∷ line place (Instruction.Call of.procedure 1)
        ∷ line place Instruction.Drop ∷ line place (Instruction.GoOn others) ∷ [])) }
{
    put(code, place, Instruction::GoOn(others))?;
    put(code, place, Instruction::Drop)?;
    put(code, place, Instruction::Call(of.procedure, 1))?;
    put(code, place, Instruction::PassObject)?;
    put(code, place, Instruction::SkipUnlessRank(of.rank, 4))
}

/// The call of the final subroutine for an object's rank, if there is one (4.5.5).
fn emit_finals(
    code: &mut Vec<Line>,
    place: Option<Place>,
    finals: &[Final],
) -> Result<(), AllocError>
    ensures { OnOk result (Emitted code.old.items code.new.items (work_code 0 place (final_work finals.now))) }
{
    let behind = code.len();
    let mut i = finals.len();
    while i > 0 {
        i -= 1;
        let others = code.len() - behind;
        emit_final(code, place, finals[i], others)?;
    }
    Ok(())
}

/// The same of the type of a number.
fn emit_finals_of(
    code: &mut Vec<Line>,
    place: Option<Place>,
    types: &Types<'_>,
    number: usize,
) -> Result<(), AllocError>
    ensures { OnOk result (Emitted code.old.items code.new.items (work_code 0 place (final_work (finals_in (slice_get types.now number))))) }
{
    match types.items().get(number) {
        Some(of) => emit_finals(code, place, &of.finals),
        None => Ok(()),
    }
}

/// The routine of a type on each element of an object (4.5.5.1).
fn emit_elements(
    code: &mut Vec<Line>,
    place: Option<Place>,
    number: usize,
) -> Result<(), AllocError>
    ensures { OnOk result (Emitted code.old.items code.new.items
        (line place Instruction.WalkBegin ∷ line place (Instruction.WalkNext 3) ∷ line place (Instruction.Routine number)
        ∷ line place Instruction.Drop ∷ line place (Instruction.GoBack 3) ∷ [])) }
{
    put(code, place, Instruction::GoBack(3))?;
    put(code, place, Instruction::Drop)?;
    put(code, place, Instruction::Routine(number))?;
    put(code, place, Instruction::WalkNext(3))?;
    put(code, place, Instruction::WalkBegin)
}

/// An object of a derived type that has a routine, and in which something is finalized or deallocated, is destroyed (4.5.5.1).
fn emit_destruction_of(
    code: &mut Vec<Line>,
    place: Option<Place>,
    types: &Types<'_>,
    count: usize,
    number: usize,
) -> Result<(), AllocError>
    requires counted { number < count }
    requires destroyed { is_destroyed types.now (slice_index_or (shapes_of types.now) number Whole) ≡ true }
    ensures { OnOk result (Emitted code.old.items code.new.items (work_code count place (object_work types.now count (Base.Derived number)))) }
{
    put(code, place, Instruction::Clear)?;
    put(code, place, Instruction::Unlend)?;
    emit_elements(code, place, number)?;
    emit_finals_of(code, place, types, number)?;
    put(code, place, Instruction::Lend)
}

/// An object of a type is destroyed, where so many types have routines (4.5.5.1).
pub fn emit_destruction(
    code: &mut Vec<Line>,
    place: Option<Place>,
    types: &Types<'_>,
    count: usize,
    of: Base,
) -> Result<(), AllocError>
    ensures { OnOk result (Emitted code.old.items code.new.items (work_code count place (object_work types.now count of))) }
{
    match of {
        Base::Integer => Ok(()),
        Base::Long => Ok(()),
        Base::Logical => Ok(()),
        Base::Derived(number) => {
            if number < count && types.is_destroyed(number) {
                emit_destruction_of(code, place, types, count, number)
            } else {
                Ok(())
            }
        }
    }
}

/// What an allocated object holds is destroyed, and the object is unallocated (6.3.3).
pub fn emit_deallocation(
    code: &mut Vec<Line>,
    place: Option<Place>,
    types: &Types<'_>,
    count: usize,
    of: Base,
) -> Result<(), AllocError>
    ensures { OnOk result (Emitted code.old.items code.new.items (work_code count place (w.Of_contents (object_work types.now count of)))) }
{
    put(code, place, Instruction::Free)?;
    put(code, place, Instruction::Drop)?;
    emit_destruction(code, place, types, count, of)?;
    put(code, place, Instruction::OpenContents)
}

/// An object ends: an allocatable one is deallocated where it is allocated, another destroyed (6.3.3.1, 4.5.5.2).
pub fn emit_end(
    code: &mut Vec<Line>,
    place: Option<Place>,
    types: &Types<'_>,
    count: usize,
    kind: Kind,
) -> Result<(), AllocError>
    ensures { OnOk result (Emitted code.old.items code.new.items (work_code count place (finish_work types.now count kind))) }
{
    if kind.is_allocatable {
        let behind = code.len();
        emit_deallocation(code, place, types, count, kind.of)?;
        let within = code.len() - behind;
        put(code, place, Instruction::SkipUnlessAllocated(within))
    } else {
        emit_destruction(code, place, types, count, kind.of)
    }
}

/// A component of an object ends (4.5.5.1).
fn emit_component(
    code: &mut Vec<Line>,
    types: &Types<'_>,
    count: usize,
    component: &Component,
    number: usize,
) -> Result<(), AllocError>
    ensures { OnOk result (Emitted code.old.items code.new.items
        (work_code count None (w.Of_component number (finish_work types.now count component.now.declared.kind)))) }
{
    put(code, None, Instruction::Drop)?;
    emit_end(code, None, types, count, component.declared.kind)?;
    put(code, None, Instruction::WorkComponent(number))
}

/// The routine of a type, by its components, where so many types stand before it (4.5.5.1).
pub fn emit_routine(
    code: &mut Vec<Line>,
    types: &Types<'_>,
    count: usize,
    components: &[Component],
) -> Result<(), AllocError>
    ensures { OnOk result (Emitted code.old.items code.new.items (work_code count None (routine_of types.now count 0 components.now))) }
{
    let mut i = components.len();
    while i > 0 {
        i -= 1;
        emit_component(code, types, count, &components[i], i)?;
    }
    Ok(())
}

/// What a held value of a kind has allocated is freed (own rule).
pub fn emit_discard(
    code: &mut Vec<Line>,
    place: Option<Place>,
    kind: Kind,
) -> Result<(), AllocError>
    ensures { OnOk result (Emitted code.old.items code.new.items (work_code 0 place (discard_work kind))) }
{
    let is_derived = matches!(kind.of, Base::Derived(_));
    if is_derived || kind.rank != 0 {
        put(code, place, Instruction::Discard)
    } else {
        Ok(())
    }
}

/// What the intent of a dummy asks for as a procedure begins (12.4.1.7).
pub fn emit_intent(
    code: &mut Vec<Line>,
    types: &Types<'_>,
    intent: Intent,
    kind: Kind,
) -> Result<(), AllocError>
    ensures { OnOk result (EmittedIn types.now code.old.items code.new.items (λ g. work_code (length types.now) None (out_work g intent kind))) }
{
    match intent {
        Intent::In => Ok(()),
        Intent::Out => emit_out(code, types, kind),
        Intent::InOut => Ok(()),
    }
}

/// A dummy with INTENT(OUT) ends, and one that is not allocatable takes its initial value (12.4.1.7).
fn emit_out(code: &mut Vec<Line>, types: &Types<'_>, kind: Kind) -> Result<(), AllocError>
    ensures { OnOk result (EmittedIn types.now code.old.items code.new.items (λ g. work_code (length types.now) None (out_work g Intent.Out kind))) }
{
    emit_reset(code, kind)?;
    emit_end(code, None, types, types.len(), kind)
}

/// An object that is not allocatable takes its initial value (12.4.1.7).
fn emit_reset(code: &mut Vec<Line>, kind: Kind) -> Result<(), AllocError>
    ensures { OnOk result (EmittedBy code.old.items code.new.items
        (λ g. if kind.is_allocatable then [] else line_with None (initial g kind.of) Instruction.Set ∷ [])) }
{
    if kind.is_allocatable {
        Ok(())
    } else {
        put_initial(code, None, kind.of, Instruction::Set)
    }
}
