//! The words of components.

ghost use Rattle.std.specs.Prelude.{◌≡◌, length};
ghost use Rattle.f3_room_levels.specs.Initial.{AllCanBegin, declared_each};
ghost use Rattle.f3_room_levels.specs.Writing.{IsBlank, with_words_from};
ghost use Rattle.f3_room_places.specs.Places.{HasTables, shapes};
ghost use Rattle.f3_rooms.specs.Forms.{total};
ghost use Rattle.f3_word_arrays.specs.Items.{IsApart, datum_words};
ghost use Rattle.f3_word_structures.specs.Members.{AreApart, AreWhole, given_words, structure_words};

use crate::finding::given;
use f3_heap::{BlockId, Blocks};
use f3_program::declarations::Component;
use f3_room_levels::{room_of, write_declared};
use f3_room_places::types::Types;
use f3_word_arrays::writing::write_item;
use f3_word_cells::cell::{Cell, Datum};

/// How many words a value has.
fn width<B: Blocks>(heap: &B, block: BlockId, datum: &Datum) -> usize
    requires { IsApart (B.blocks heap.now) block datum.now }
    ensures { result ≡ length (datum_words (B.blocks heap.now) datum.now) }
{
    match datum {
        Datum::Scalar(_) => 1,
        Datum::Block(area) => heap.length(area.elements.block),
    }
}

/// Writes the words of a value as often as it takes to fill so many, from one of a block on, over words that are 0.
fn write_given<B: Blocks>(heap: &mut B, block: BlockId, at: usize, room: usize, datum: &Datum)
    requires blank { IsBlank (B.blocks heap.old) block at room }
    requires apart { IsApart (B.blocks heap.old) block datum.now }
    requires whole { length (given_words (B.blocks heap.old) room datum.now) ≡ room }
    ensures written { B.blocks heap.new ≡ with_words_from (B.blocks heap.old) block at (given_words (B.blocks heap.old) room datum.now) }
    ensures kept { B.kept heap.new ≡ B.kept heap.old }
{
    prove!(at <= heap.length(block));
    let words = width(heap, block, datum);
    if words == 0 {
        return;
    }
    let mut place = at;
    for _each in 0..room / words {
        write_item(heap, block, place, datum);
        place += words;
    }
}

/// Writes the words of components, one behind another from the first word of a block on, over words that are 0: of the values that are given
/// for them, else those of their initial values.
pub(crate) fn write_components<B: Blocks>(
    heap: &mut B,
    types: Types<'_>,
    components: &[Component],
    cells: &[Cell],
    block: BlockId,
)
    requires tables { HasTables types }
    requires fit { AllCanBegin (shapes types) (declared_each components.now) }
    requires blank { IsBlank (B.blocks heap.old) block 0 (total (shapes types) (declared_each components.now)) }
    requires apart { AreApart (B.blocks heap.old) block cells.now }
    requires whole { AreWhole (shapes types) (B.blocks heap.old) cells.now 0 components.now }
    ensures written { B.blocks heap.new ≡ with_words_from (B.blocks heap.old) block 0 (structure_words (shapes types.entry) (B.blocks heap.old) cells.now 0 components.now) }
    ensures kept { B.kept heap.new ≡ B.kept heap.old }
{
    prove!(0 <= heap.length(block));
    let mut at = 0;
    for number in 0..components.len() {
        let declared = &components[number].declared;
        let room = room_of(types, declared);
        match given(cells, number) {
            Some(datum) => write_given(heap, block, at, room, datum),
            None => write_declared(heap, types, declared, block, at),
        }
        at += room;
    }
}
