//! What instructions want of a heap, and whether one of a size refuses it. Words are counted modulo 2 to the 64.

ghost use Rattle.std.specs.Prelude.{◌≡◌, ◌%◌, ◌^◌, MatchOption, None, Some, drop, false, take, slice_get};
ghost use Rattle.f3_meaning_whole.specs.Value as m;
ghost use Rattle.f3_meaning_whole.specs.Store.{get};
ghost use Rattle.f3_data.specs.Stores.{path_of, store_of};
ghost use Rattle.f3_gen_values.specs.Emitted.{taken};
ghost use Rattle.f3_code.specs.Wants as w;
ghost use Rattle.f3_code.specs.Wants.{allocated, assigned, copies, held, renewed};
ghost use Rattle.f3_code.specs.declared.instruction.Instruction.TheVariants.{Call};
ghost use Rattle.f3_program.specs.declared.program.Program.{Program};
ghost use Rattle.f3_data.specs.Values.{value_of, values_of};
ghost use Rattle.f3_shaping.specs.Results.{is_array};
ghost use Rattle.f3_cells.specs.Cells.{cells_of};
ghost use Rattle.f3_cells.specs.States.{setting, code_of};
ghost use Rattle.f3_requests.specs.Requests.{refuses};
ghost use Rattle.f3_requests.specs.Inner.Counted.{HasElements, called_with, counted, held_words, wanted};

use crate::extents::{element_count, new_count, vacant_words};
use crate::given::{given_words, top};
use crate::words::{line_words, procedure_words};
use f3_cells::cell::Cell;
use f3_cells::look::{datum_at, object_at};
use f3_cells::scene::Scene;
use f3_cells::state::State;
use f3_code::instruction::Instruction;
use f3_data::account::{all_objects, block, objects, words};
use f3_data::store::{Path, Store};
use f3_data::value::{Value, is_allocated, needs_storage, spans_of};
use f3_located::elements::count;
use f3_program::declarations::Base;
use f3_program::program::{Procedure, Program};

/// How many procedures are active at most (own rule).
const MOST_ACTIVE: usize = 1000;

/// A procedure of a program.
fn procedure_at(procedures: &[Procedure], number: usize) -> Option<&Procedure>
    ensures { MatchOption result (slice_get procedures.now number ≡ None) (λ q. slice_get procedures.now number ≡ Some q.now) }
{
    match procedures.get(number) {
        Some(procedure) => Some(procedure),
        None => None,
    }
}

/// What a procedure of a number wants, by the arguments among cells: a block for the values that are held, and one for its
/// variables (ISO/IEC 1539-1:2004, 12.4). None where there is no such procedure.
fn procedure_wants(scene: &Scene, number: usize, arguments: &[Cell]) -> Option<u64>
    ensures { result ≡ counted (called_with (slice_get (code_of scene.now).procedures number) (held_words arguments.now)) }
{
    let Some(procedure) = procedure_at(&scene.program.procedures, number) else {
        return None;
    };
    if number >= scene.emission.procedures.len() {
        return None;
    }
    let variables = block(procedure_words(scene.program, procedure));
    Some(block(given_words(arguments)).wrapping_add(variables))
}

/// What a call of the procedure of a number with so many arguments wants (12.4).
#[inline(never)]
fn call_wants(scene: &Scene, state: &State, number: usize, count: usize) -> Option<u64>
    ensures { (v : m.Value) → result ≡ counted (wanted scene.now (Call number count) v state.now) }
{
    if state.frames.len() >= MOST_ACTIVE {
        return None;
    }
    procedure_wants(scene, number, top(&state.stack, count))
}

/// What an assignment to an allocatable of a rank wants: the block of the new object, whose elements begin with the line's value,
/// and those of the objects that are copied (7.4.1.3).
#[inline(never)]
fn new_wants(
    program: &Program,
    initial: Option<Base>,
    rank: usize,
    stack: &Vec<Cell>,
) -> Option<u64>
    ensures { result ≡ counted (renewed rank (taken (setting program.now) initial) (cells_of program.now stack.now.items)) }
{
    let Some(_object) = object_at(stack, 0) else {
        return None;
    };
    let Some(value) = datum_at(stack, 1) else {
        return None;
    };
    let count = element_count(spans_of(value));
    let new = vacant_words(rank, count, line_words(program, initial));
    Some(block(new).wrapping_add(objects(value)))
}

/// The elements of an array.
fn elements_of(value: &Value) -> Option<&Vec<Value>>
    ensures { MatchOption result (is_array (value_of value.now) ≡ false) (λ vs. HasElements (value_of value.now) (values_of vs.now.items)) }
{
    match value {
        Value::Array(elements) => Some(&elements.values),
        _ => None,
    }
}

/// What so many copies of a scalar, or one of an array, have allocated.
fn copies(n: usize, value: &Value) -> u64
    ensures { result ≡ copies n (value_of value.now) % 2 ^ 64 }
{
    match elements_of(value) {
        Some(elements) => all_objects(elements),
        None => (n as u64).wrapping_mul(objects(value)),
    }
}

/// What an assignment wants: the blocks of the objects that are copied (7.4.1.3).
#[inline(never)]
fn assigned_wants(stack: &Vec<Cell>) -> Option<u64>
    ensures { (p : Program) → result ≡ counted (assigned (cells_of p stack.now.items)) }
{
    let Some(object) = object_at(stack, 0) else {
        return None;
    };
    let Some(value) = datum_at(stack, 1) else {
        return None;
    };
    if needs_storage(value) {
        Some(copies(count(object), value))
    } else {
        None
    }
}

/// Whether an object at a path is allocated.
fn is_allocated_at(store: &Store, path: &Path) -> bool
    ensures { result ≡ m.is_allocated (get (store_of store.now) (path_of path.now)) }
{
    match store.get(path) {
        Some(value) => is_allocated(value),
        None => false,
    }
}

/// What an ALLOCATE of so many dimensions wants: the block of an object of a rank, whose elements begin with the line's value
/// (6.3.1). None where it makes no object.
#[inline(never)]
fn allocate_wants(
    program: &Program,
    initial: Option<Base>,
    rank: usize,
    rows: usize,
    state: &State,
) -> Option<u64>
    ensures { result ≡ counted (allocated (store_of state.now.store) rank (taken (setting program.now) initial)
        (w.dimensions (take rows (cells_of program.now state.now.stack.items))) (drop rows (cells_of program.now state.now.stack.items))) }
{
    let Some(object) = object_at(&state.stack, rows) else {
        return None;
    };
    if is_allocated_at(&state.store, &object.path) {
        return None;
    }
    let cells = top(&state.stack, rows);
    let Some(n) = new_count(cells) else {
        return None;
    };
    let element = line_words(program, initial);
    Some(block(vacant_words(rank, n, element)))
}

/// What a value that is held for an ASSOCIATE wants: a block (8.1.4.3).
#[inline(never)]
fn held_wants(stack: &Vec<Cell>) -> Option<u64>
    ensures { (p : Program) → result ≡ counted (held (cells_of p stack.now.items)) }
{
    let Some(value) = datum_at(stack, 0) else {
        return None;
    };
    if needs_storage(value) {
        Some(block(words(value)))
    } else {
        None
    }
}

/// What an instruction wants.
#[inline(always)]
fn wants(scene: &Scene, act: &Instruction, initial: &Option<Base>, state: &State) -> Option<u64>
    ensures { result ≡ counted (wanted scene.now act.now (taken (setting scene.now.program.now) initial.now) state.now) }
{
    match *act {
        Instruction::Call(number, count) => call_wants(scene, state, number, count),
        Instruction::New(rank) => new_wants(scene.program, *initial, rank, &state.stack),
        Instruction::Take(_) => assigned_wants(&state.stack),
        Instruction::Allocate(rank, dimensions) => {
            allocate_wants(scene.program, *initial, rank, dimensions, state)
        }
        Instruction::SelectValue(_) => held_wants(&state.stack),
        _ => None,
    }
}

/// Whether a heap of so many words refuses what an instruction wants.
#[inline(always)]
pub(crate) fn is_refused(
    scene: &Scene,
    size: u64,
    act: &Instruction,
    initial: &Option<Base>,
    state: &State,
) -> bool
    ensures { result ≡ refuses size scene.now act.now (taken (setting scene.now.program.now) initial.now) state.now }
{
    match wants(scene, act, initial, state) {
        Some(words) => state.store.used().wrapping_add(words) > size,
        None => false,
    }
}
