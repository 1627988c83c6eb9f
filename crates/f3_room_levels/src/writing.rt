//! Initial values of variables, written over words that are 0.

ghost use Rattle.std.specs.Prelude.{◌≡◌, ◌≢◌, ◌<◌, ◌+◌, ◌*◌, [], false, length, map, replicate};
ghost use Rattle.f3_live_blocks.specs.Blocks.{IsLive, words_of};
ghost use Rattle.f3_meaning_whole.specs.Shape.{shape_in};
ghost use Rattle.f3_rooms.specs.Forms.{words_for, room, total};
ghost use Rattle.f3_room_places.specs.Places.{HasTables, shapes};
ghost use Rattle.f3_room_levels.specs.Initial.{word_of, repeated, declared_each, object_words, variable_words, initial_words, CanBegin, TypeCanBegin, AllCanBegin};
ghost use Rattle.f3_room_levels.specs.Writing.{IsBlank, with_words_from};

use crate::blank::is_blank;
use crate::sizes::{before, room_of};
use f3_heap::{BlockId, Blocks};
use f3_program::declarations::{Base, Component, Constant, Declared};
use f3_room_places::types::{Types, words};

/// The word of a constant: 1 is `.TRUE.`, 0 `.FALSE.` (own rule).
fn word_of(constant: Constant) -> i64
    ensures { result ≡ word_of constant }
{
    match constant {
        Constant::Number(number) => number,
        Constant::Truth(truth) => truth as i64,
    }
}

/// Writes a word so many times, from one of a block on.
fn write_copies<B: Blocks>(heap: &mut B, block: BlockId, at: usize, count: usize, word: i64)
    requires blank { IsBlank (B.blocks heap.old) block at count }
    ensures written { B.blocks heap.new ≡ with_words_from (B.blocks heap.old) block at (replicate count word) }
    ensures kept { B.kept heap.new ≡ B.kept heap.old }
{
    prove!(at <= heap.length(block));
    for each in 0..count {
        heap.write(block, at + each, word);
    }
}

/// Writes the words of constants, from one of a block on.
fn write_constants<B: Blocks>(heap: &mut B, block: BlockId, at: usize, constants: &[Constant])
    requires blank { IsBlank (B.blocks heap.old) block at (length constants.now) }
    ensures written { B.blocks heap.new ≡ with_words_from (B.blocks heap.old) block at (map word_of constants.now) }
    ensures kept { B.kept heap.new ≡ B.kept heap.old }
{
    prove!(at <= heap.length(block));
    let mut place = at;
    for constant in constants {
        heap.write(block, place, word_of(*constant));
        place += 1;
    }
}

/// Writes the words with which an object of a type begins.
#[cycle(writing)]
fn write_object<B: Blocks>(heap: &mut B, types: Types<'_>, of: Base, block: BlockId, at: usize)
    requires tables { HasTables types }
    requires fit { TypeCanBegin (shape_in (shapes types) of) }
    requires blank { IsBlank (B.blocks heap.old) block at (words_for (shape_in (shapes types) of)) }
    ensures written { B.blocks heap.new ≡ with_words_from (B.blocks heap.old) block at (object_words (shape_in (shapes types.entry) of)) }
    ensures kept { B.kept heap.new ≡ B.kept heap.old }
{
    let Base::Derived(number) = of else {
        return;
    };
    if number >= types.derived.len() {
        return;
    }
    let components = &types.derived[number].components;
    write_components(heap, before(types, number), components, block, at);
}

/// Writes the words with which components begin that stand one after another.
#[cycle(writing)]
fn write_components<B: Blocks>(
    heap: &mut B,
    types: Types<'_>,
    components: &[Component],
    block: BlockId,
    first: usize,
)
    requires tables { HasTables types }
    requires fit { AllCanBegin (shapes types) (declared_each components.now) }
    requires blank { IsBlank (B.blocks heap.old) block first (total (shapes types) (declared_each components.now)) }
    ensures written { B.blocks heap.new ≡ with_words_from (B.blocks heap.old) block first (initial_words (shapes types.entry) (declared_each components.now)) }
    ensures kept { B.kept heap.new ≡ B.kept heap.old }
{
    prove!(first <= heap.length(block));
    let mut at = first;
    for component in components {
        write_declared(heap, types, &component.declared, block, at);
        at += room_of(types, &component.declared);
    }
}

/// Writes the words with which so many objects of a type begin that stand one after another.
#[cycle(writing)]
fn write_elements<B: Blocks>(
    heap: &mut B,
    types: Types<'_>,
    of: Base,
    block: BlockId,
    first: usize,
    count: usize,
)
    requires tables { HasTables types }
    requires fit { TypeCanBegin (shape_in (shapes types) of) }
    requires blank { IsBlank (B.blocks heap.old) block first (count * words_for (shape_in (shapes types) of)) }
    ensures written { B.blocks heap.new ≡ with_words_from (B.blocks heap.old) block first (repeated count (object_words (shape_in (shapes types.entry) of))) }
    ensures kept { B.kept heap.new ≡ B.kept heap.old }
{
    prove!(first <= heap.length(block));
    let size = words(types, of);
    let mut at = first;
    for _each in 0..count {
        write_object(heap, types, of, block, at);
        at += size;
    }
}

/// Writes the words with which a variable or a component begins that is not initialized itself.
#[cycle(writing)]
fn write_default<B: Blocks>(
    heap: &mut B,
    types: Types<'_>,
    declared: &Declared,
    block: BlockId,
    at: usize,
)
    requires tables { HasTables types }
    requires laid { declared.now.kind.is_allocatable ≡ false }
    requires none { declared.now.initial.items ≡ [] }
    requires fit { TypeCanBegin (shape_in (shapes types) declared.now.kind.of) }
    requires blank { IsBlank (B.blocks heap.old) block at (room (shapes types) declared.now) }
    ensures written { B.blocks heap.new ≡ with_words_from (B.blocks heap.old) block at (variable_words (shapes types.entry) declared.now) }
    ensures kept { B.kept heap.new ≡ B.kept heap.old }
{
    let of = declared.kind.of;
    let size = words(types, of);
    if size == 0 {
        return;
    }
    if is_blank(types.derived, of) {
        return;
    }
    prove!(at <= heap.length(block));
    let count = room_of(types, declared) / size;
    write_elements(heap, types, of, block, at, count);
}

/// Writes the words with which a variable or a component begins, from one of a block on, over words that are 0. An allocatable holds
/// nothing. This takes no memory.
#[cycle(writing)]
pub fn write_declared<B: Blocks>(
    heap: &mut B,
    types: Types<'_>,
    declared: &Declared,
    block: BlockId,
    at: usize,
)
    requires tables { HasTables types }
    requires fit { CanBegin (shape_in (shapes types) declared.now.kind.of) declared.now }
    requires type_fit { TypeCanBegin (shape_in (shapes types) declared.now.kind.of) }
    requires blank { IsBlank (B.blocks heap.old) block at (room (shapes types) declared.now) }
    ensures written { B.blocks heap.new ≡ with_words_from (B.blocks heap.old) block at (variable_words (shapes types.entry) declared.now) }
    ensures kept { B.kept heap.new ≡ B.kept heap.old }
{
    prove!(at <= heap.length(block));
    if declared.kind.is_allocatable {
        return;
    }
    match declared.initial.as_slice() {
        [] => write_default(heap, types, declared, block, at),
        [one] => write_copies(heap, block, at, room_of(types, declared), word_of(*one)),
        constants => write_constants(heap, block, at, constants),
    }
}

/// Writes the words with which variables begin that stand one after another at the front of a block, over words that are 0.
/// This takes no memory, and only what has initial values is written.
pub fn write_initial<B: Blocks>(
    heap: &mut B,
    types: Types<'_>,
    declared: &[Declared],
    block: BlockId,
)
    requires tables { HasTables types }
    requires fit { AllCanBegin (shapes types) declared.now }
    requires blank { IsBlank (B.blocks heap.old) block 0 (total (shapes types) declared.now) }
    ensures written { B.blocks heap.new ≡ with_words_from (B.blocks heap.old) block 0 (initial_words (shapes types.entry) declared.now) }
    ensures kept { B.kept heap.new ≡ B.kept heap.old }
{
    prove!(0 <= heap.length(block));
    let mut at = 0;
    for variable in declared {
        write_declared(heap, types, variable, block, at);
        at += room_of(types, variable);
    }
}
