//! The code of the ranges of a CASE and of the selectors of an ASSOCIATE.

ghost use Rattle.std.specs.Prelude.{◌∷◌, [], ◌++◌, ◌+◌, length, map, OnOk};
ghost use Rattle.f3_code.specs.Lower.{discard_work, selecting};
ghost use Rattle.f3_code.specs.Code.{discards_code, ranges_code, selectors_code, work_code};
ghost use Rattle.f3_code.specs.State.{line};
ghost use Rattle.f3_gen_values.specs.Emitted.{Emitted};
ghost use Rattle.f3_gen_work.specs.EmittedIn.{EmittedBy};

use f3_code::instruction::Instruction;
use f3_gen_values::line::{Line, put};
use f3_gen_values::value::{emit_object_then, emit_value_then};
use f3_gen_work::work::emit_discard;
use f3_places::source::Place;
use f3_program::declarations::Kind;
use f3_program::statement::{Range, Selector};
use std::alloc::AllocError;

/// Tests whether a value is in one of some ranges: if so the code goes on behind the next line (8.1.3).
pub fn emit_ranges(
    code: &mut Vec<Line>,
    place: Option<Place>,
    ranges: &[Range],
) -> Result<(), AllocError>
    ensures { OnOk result (Emitted code.old.items code.new.items (ranges_code place ranges.now)) }
{
    let behind = code.len();
    let mut i = ranges.len();
    while i > 0 {
        i -= 1;
        let others = code.len() - behind;
        put(code, place, Instruction::SkipIfTrue(others + 1))?;
        put(code, place, Instruction::Meets(ranges[i]))?;
    }
    Ok(())
}

/// A selector of an ASSOCIATE (8.1.4).
fn emit_selector(
    code: &mut Vec<Line>,
    place: Option<Place>,
    selector: &Selector,
) -> Result<(), AllocError>
    ensures { OnOk result (EmittedBy code.old.items code.new.items (λ g. selectors_code place (selecting g selector.now ∷ []))) }
{
    match selector {
        Selector::Variable(object) => {
            emit_object_then(code, place, object, Instruction::SelectVariable)
        }
        Selector::Value(kind, value) => {
            emit_value_then(code, place, value, Instruction::SelectValue(kind.of))
        }
    }
}

/// The selectors of an ASSOCIATE in their order (8.1.4).
pub fn emit_selectors(
    code: &mut Vec<Line>,
    place: Option<Place>,
    selectors: &[Selector],
) -> Result<(), AllocError>
    ensures { OnOk result (EmittedBy code.old.items code.new.items (λ g. selectors_code place (map (selecting g) selectors.now))) }
{
    let mut i = selectors.len();
    while i > 0 {
        i -= 1;
        emit_selector(code, place, &selectors[i])?;
    }
    Ok(())
}

/// The end of a value of a kind that was held (own rule for 8.1.4.3).
fn emit_held(code: &mut Vec<Line>, place: Option<Place>, kind: Kind) -> Result<(), AllocError>
    ensures { OnOk result (Emitted code.old.items code.new.items
        (line place (Instruction.NextObject (length (work_code 0 place (discard_work kind)) + 1)) ∷ (work_code 0 place (discard_work kind) ++ line place Instruction.Drop ∷ []))) }
{
    let behind = code.len();
    put(code, place, Instruction::Drop)?;
    emit_discard(code, place, kind)?;
    let within = code.len() - behind;
    put(code, place, Instruction::NextObject(within))
}

/// The end of a selector (own rule for 8.1.4.3).
fn emit_selected(
    code: &mut Vec<Line>,
    place: Option<Place>,
    selector: &Selector,
) -> Result<(), AllocError>
    ensures { OnOk result (EmittedBy code.old.items code.new.items (λ g. discards_code 0 place (selecting g selector.now ∷ []))) }
{
    match selector {
        Selector::Variable(_) => {
            put(code, place, Instruction::Drop)?;
            put(code, place, Instruction::NextObject(1))
        }
        Selector::Value(kind, _) => emit_held(code, place, *kind),
    }
}

/// The end of the values of selectors in their order (own rule for 8.1.4.3).
pub fn emit_discards(
    code: &mut Vec<Line>,
    place: Option<Place>,
    selectors: &[Selector],
) -> Result<(), AllocError>
    ensures { OnOk result (EmittedBy code.old.items code.new.items (λ g. discards_code 0 place (map (selecting g) selectors.now))) }
{
    let mut i = selectors.len();
    while i > 0 {
        i -= 1;
        emit_selected(code, place, &selectors[i])?;
    }
    Ok(())
}
