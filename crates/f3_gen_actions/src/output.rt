//! The code of PRINT.

ghost use Rattle.std.specs.Prelude.{OnOk};
ghost use Rattle.f3_code.specs.Code.{bytes_code, items_code};
ghost use Rattle.f3_gen_values.specs.Emitted.{Emitted};
ghost use Rattle.f3_gen_actions.specs.Actions.{item_code};

use f3_code::instruction::Instruction;
use f3_gen_values::line::{Line, put};
use f3_gen_values::value::emit_value_then;
use f3_places::source::Place;
use f3_program::statement::Item;
use std::alloc::AllocError;

/// Bytes that are printed (9.5).
fn emit_bytes(code: &mut Vec<Line>, place: Option<Place>, bytes: &[u8]) -> Result<(), AllocError>
    ensures { OnOk result (Emitted code.old.items code.new.items (bytes_code place bytes.now)) }
{
    let mut i = bytes.len();
    while i > 0 {
        i -= 1;
        put(code, place, Instruction::PrintByte(bytes[i]))?;
    }
    Ok(())
}

/// An item of a PRINT (9.5.2).
fn emit_item(code: &mut Vec<Line>, place: Option<Place>, item: &Item) -> Result<(), AllocError>
    ensures { OnOk result (Emitted code.old.items code.new.items (item_code place item.now)) }
{
    match item {
        Item::Value(value) => emit_value_then(code, place, value, Instruction::PrintValue),
        Item::Text(text) => {
            emit_bytes(code, place, text)?;
            put(code, place, Instruction::PrintByte(b' '))
        }
    }
}

/// The items of a PRINT in their order, and the end of the line (9.5).
pub fn emit_items(
    code: &mut Vec<Line>,
    place: Option<Place>,
    items: &[Item],
) -> Result<(), AllocError>
    ensures { OnOk result (Emitted code.old.items code.new.items (items_code place items.now)) }
{
    put(code, place, Instruction::PrintByte(b'\n'))?;
    let mut i = items.len();
    while i > 0 {
        i -= 1;
        emit_item(code, place, &items[i])?;
    }
    Ok(())
}
