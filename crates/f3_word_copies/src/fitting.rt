//! Whether numbers are of a type.

ghost use Rattle.std.specs.Prelude.{◌≡◌, true};
ghost use Rattle.f3_live_blocks.specs.Blocks.{IsLive, words_of};
ghost use Rattle.f3_program.specs.declared.declarations.Base.TheVariants as base;
ghost use Rattle.f3_program.specs.declared.declarations.Kind.{Kind};
ghost use Rattle.f3_program.specs.declared.program.Program.{Program};
ghost use Rattle.f3_meaning_whole.specs.Value.{Value};
ghost use Rattle.f3_meaning_whole.specs.Arithmetic.{fits, value_fits};
ghost use Rattle.f3_room_places.specs.Places.{HasTables};
ghost use Rattle.f3_word_copies.specs.Fits.{CanFit, is_numbers, words_fit};

use f3_heap::{BlockId, Blocks};
use f3_program::declarations::{Base, Constant};
use f3_room_places::types::Types;
use f3_word_cells::cell::{Area, Datum};
use f3_word_reads::scalars::is_scalar;

/// Whether a number of 64 bits is one of kind 4, -2147483648 to 2147483647 (own rule for ISO/IEC 1539-1:2004, 4.4.1).
pub(crate) fn is_short(number: i64) -> bool
    ensures { result ≡ fits base.Integer number }
{
    number >= -2_147_483_648 && number <= 2_147_483_647
}

/// Whether each word of a block is such a number.
fn are_short<B: Blocks>(heap: &B, block: BlockId) -> bool
    requires { IsLive (B.blocks heap.now) block }
    ensures { result ≡ words_fit (words_of (B.blocks heap.now) block) }
{
    for at in 0..heap.length(block) {
        if !is_short(heap.read(block, at)) {
            return false;
        }
    }
    true
}

/// Whether an area is an array of whole numbers.
fn is_array_of_numbers(types: Types<'_>, area: &Area) -> bool
    requires { HasTables types }
    ensures { result ≡ is_numbers types.entry area.now }
{
    match area.of {
        Base::Logical => false,
        _ => !area.elements.dims.is_empty() && is_scalar(types, area.of),
    }
}

/// Whether each number of a value is one of a type.
pub fn fits<B: Blocks>(heap: &B, types: Types<'_>, of: Base, datum: &Datum) -> bool
    requires tables { HasTables types }
    requires can { (p : Program) × (k : Kind) × (v : Value) × CanFit p types (B.blocks heap.now) k datum.now v }
    ensures { (p : Program) (k : Kind) (v : Value) → CanFit p types.entry (B.blocks heap.now) k datum.now v → result ≡ value_fits of v }
{
    let Base::Integer = of else {
        return true;
    };
    match datum {
        Datum::Scalar(Constant::Number(number)) => is_short(*number),
        Datum::Scalar(Constant::Truth(_)) => true,
        Datum::Block(area) => {
            !is_array_of_numbers(types, area) || are_short(heap, area.elements.block)
        }
    }
}
