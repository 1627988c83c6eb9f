//! The words of values with which objects begin, which are told without making the values. They are counted modulo 2 to the 64.

ghost use Rattle.std.specs.Prelude.{◌≡◌, ℕ, ◌%◌, ◌^◌, map};
ghost use Rattle.f3_meaning_whole.specs.Value as m;
ghost use Rattle.f3_meaning_whole.specs.Value.{count, joined};
ghost use Rattle.f3_meaning_whole.specs.Shape.{shapes_of, shape_in, parts_in, spans_declared, initialized, initial_of, initial_parts, initial_declared};
ghost use Rattle.f3_meaning_whole.specs.Exec.{initial_value, variables};
ghost use Rattle.f3_meaning_whole.specs.Run.{setting_of};
ghost use Rattle.f3_code.specs.Account.{words, row, level_words};
ghost use Rattle.f3_gen_values.specs.Emitted.{taken};
ghost use Rattle.f3_cells.specs.States.{setting};

use f3_program::declarations::{Base, Component, Constant, Declared, Derived, Dimension};
use f3_program::program::{Procedure, Program};

/// How many elements an array of dimensions has (ISO/IEC 1539-1:2004, 6.2.2.2).
fn element_count(dimensions: &[Dimension]) -> u64
    ensures { result ≡ count (spans_declared dimensions.now) % 2 ^ 64 }
{
    let mut n: u64 = 1;
    for dimension in dimensions {
        n = n.wrapping_mul(dimension.extent);
    }
    n
}

/// The words of so many elements that are initialized so, each of so many words where it is not.
fn elements_words(n: u64, constants: &[Constant], element: u64) -> u64
    ensures { (k : ℕ) (v : m.Value) → n ≡ k % 2 ^ 64 → element ≡ words v % 2 ^ 64 → result ≡ row (joined (initialized k constants.now v)) % 2 ^ 64 }
{
    let count = constants.len();
    if count == 0 {
        return n.wrapping_mul(element);
    }
    if count == 1 {
        return n;
    }
    count as u64
}

/// The words of an array that begins with constants, each element of so many words where it does not.
fn array_words(dimensions: &[Dimension], constants: &[Constant], element: u64) -> u64
    ensures { (v : m.Value) → element ≡ words v % 2 ^ 64
        → result ≡ words (m.Array (spans_declared dimensions.now) (joined (initialized (count (spans_declared dimensions.now)) constants.now v))) % 2 ^ 64 }
{
    elements_words(element_count(dimensions), constants, element)
}

/// The words with which what is declared begins, given those of an element (4.5.3, 5.1; own rule for 16.5.6).
fn arranged_words(declared: &Declared, element: u64) -> u64
    ensures { (v : m.Value) → element ≡ words v % 2 ^ 64 → result ≡ words (initial_declared declared.now v) % 2 ^ 64 }
{
    if declared.kind.is_allocatable {
        return 1;
    }
    if declared.kind.rank > 0 {
        return array_words(&declared.dimensions, &declared.initial, element);
    }
    match declared.initial.first() {
        Some(_) => 1,
        None => element,
    }
}

/// The words with which what is declared begins, among the types of a program.
#[cycle(initial_words)]
pub(crate) fn declared_words(types: &[Derived], declared: &Declared) -> u64
    ensures { result ≡ words (initial_declared declared.now (initial_of (shape_in (shapes_of types.now) declared.now.kind.of))) % 2 ^ 64 }
{
    if declared.kind.is_allocatable {
        return 1;
    }
    arranged_words(declared, initial_words(types, declared.kind.of))
}

/// The words with which the components of a type begin.
#[cycle(initial_words)]
fn components_words(types: &[Derived], components: &[Component]) -> u64
    ensures { result ≡ row (initial_parts (parts_in (shapes_of types.now) components.now)) % 2 ^ 64 }
{
    let mut total: u64 = 0;
    for component in components {
        total = total.wrapping_add(declared_words(types, &component.declared));
    }
    total
}

/// The words with which a scalar of a type begins, among the types of a program: one, or those of the components (4.5.3). A
/// type has components of types before it.
#[cycle(initial_words)]
pub(crate) fn initial_words(types: &[Derived], of: Base) -> u64
    ensures { result ≡ words (initial_of (shape_in (shapes_of types.now) of)) % 2 ^ 64 }
{
    match of {
        Base::Integer | Base::Long | Base::Logical => 1,
        Base::Derived(t) => {
            if t >= types.len() {
                return 1;
            }
            components_words(&types[..t], &types[t].components)
        }
    }
}

/// The words of the value that a line takes: of nothing, or of that with which an object of a type begins (4.5.3.4).
pub(crate) fn line_words(program: &Program, of: Option<Base>) -> u64
    ensures { result ≡ words (taken (setting program.now) of) % 2 ^ 64 }
{
    match of {
        Some(of) => initial_words(&program.types, of),
        None => 1,
    }
}

/// The words with which variables begin (16.5).
fn variables_words(program: &Program, declared: &[Declared]) -> u64
    ensures { result ≡ level_words (map (initial_value (setting_of program.now)) declared.now) % 2 ^ 64 }
{
    let mut total: u64 = 0;
    for variable in declared {
        total = total.wrapping_add(declared_words(&program.types, variable));
    }
    total
}

/// The words with which the variables of an activation of a procedure begin, and its result (12.4, 16.5).
pub(crate) fn procedure_words(program: &Program, procedure: &Procedure) -> u64
    ensures { result ≡ level_words (variables (setting_of program.now) procedure.now) % 2 ^ 64 }
{
    let locals = variables_words(program, &procedure.locals);
    match &procedure.result {
        Some(declared) => locals.wrapping_add(declared_words(&program.types, declared)),
        None => locals,
    }
}
