//! Lists of entities as numbers.

ghost use Rattle.std.specs.Prelude.{◌≡◌, ℕ, OnOk};
ghost use Rattle.f3_numbers.specs.Table.{object_in, procedure_in, type_in, with_one};
ghost use Rattle.f3_program.specs.declared.expression.Name.TheVariants as object;
ghost use Rattle.f3_program_numbers.specs.Filled.{name_at, with_list, without};

use f3_numbers::numbers::Numbers;
use f3_program::expression::Name;
use std::alloc::AllocError;

/// Where an object lies.
#[derive(Clone, Copy)]
pub enum Storage {
    Static,
    Local,
    Lent,
}

fn name_at(storage: Storage, number: usize) -> Name
    ensures { result ≡ name_at storage number }
{
    match storage {
        Storage::Static => Name::Static(number),
        Storage::Local => Name::Local(number),
        Storage::Lent => Name::Lent(number),
    }
}

/// Adds an object, and notes its entity where it was none.
fn add_object(
    numbers: &mut Numbers,
    added: &mut Vec<usize>,
    entity: usize,
    name: Name,
) -> Result<(), AllocError>
    ensures objects { OnOk result ((e : ℕ) → object_in numbers.new e ≡ with_one (object_in numbers.old) entity name e) }
    ensures procedures { OnOk result ((e : ℕ) → procedure_in numbers.new e ≡ procedure_in numbers.old e) }
    ensures types { OnOk result ((e : ℕ) → type_in numbers.new e ≡ type_in numbers.old e) }
    ensures added { OnOk result ((e : ℕ) → without added.new.items (object_in numbers.new) e ≡ without added.old.items (object_in numbers.old) e) }
{
    if numbers.add_object(entity, name)? {
        added.push(entity)?;
    }
    Ok(())
}

/// Adds objects, each by its place in the list, and notes the entities of those that were none. Where an entity stands twice its first
/// place counts.
///
/// # Errors
///
/// Where memory runs out.
pub fn add_objects(
    numbers: &mut Numbers,
    added: &mut Vec<usize>,
    storage: Storage,
    list: &[usize],
) -> Result<(), AllocError>
    ensures objects { OnOk result ((e : ℕ) → object_in numbers.new e ≡ with_list (object_in numbers.old) (name_at storage) list.now e) }
    ensures procedures { OnOk result ((e : ℕ) → procedure_in numbers.new e ≡ procedure_in numbers.old e) }
    ensures types { OnOk result ((e : ℕ) → type_in numbers.new e ≡ type_in numbers.old e) }
    ensures added { OnOk result ((e : ℕ) → without added.new.items (object_in numbers.new) e ≡ without added.old.items (object_in numbers.old) e) }
{
    for number in 0..list.len() {
        let name = name_at(storage, number);
        add_object(numbers, added, list[number], name)?;
    }
    Ok(())
}

/// Adds variables that live for the whole run, each by its place in the list.
///
/// # Errors
///
/// Where memory runs out.
pub fn add_statics(numbers: &mut Numbers, list: &[usize]) -> Result<(), AllocError>
    ensures objects { OnOk result ((e : ℕ) → object_in numbers.new e ≡ with_list (object_in numbers.old) object.Static list.now e) }
    ensures procedures { OnOk result ((e : ℕ) → procedure_in numbers.new e ≡ procedure_in numbers.old e) }
    ensures types { OnOk result ((e : ℕ) → type_in numbers.new e ≡ type_in numbers.old e) }
{
    for number in 0..list.len() {
        numbers.add_object(list[number], Name::Static(number))?;
    }
    Ok(())
}

/// Adds procedures, each by its place in the list.
///
/// # Errors
///
/// Where memory runs out.
pub fn add_procedures(numbers: &mut Numbers, list: &[usize]) -> Result<(), AllocError>
    ensures objects { OnOk result ((e : ℕ) → object_in numbers.new e ≡ object_in numbers.old e) }
    ensures procedures { OnOk result ((e : ℕ) → procedure_in numbers.new e ≡ with_list (procedure_in numbers.old) (λ (n : ℕ). n) list.now e) }
    ensures types { OnOk result ((e : ℕ) → type_in numbers.new e ≡ type_in numbers.old e) }
{
    for number in 0..list.len() {
        numbers.add_procedure(list[number], number)?;
    }
    Ok(())
}

/// Adds derived types, each by its place in the list.
///
/// # Errors
///
/// Where memory runs out.
pub fn add_types(numbers: &mut Numbers, list: &[usize]) -> Result<(), AllocError>
    ensures objects { OnOk result ((e : ℕ) → object_in numbers.new e ≡ object_in numbers.old e) }
    ensures procedures { OnOk result ((e : ℕ) → procedure_in numbers.new e ≡ procedure_in numbers.old e) }
    ensures types { OnOk result ((e : ℕ) → type_in numbers.new e ≡ with_list (type_in numbers.old) (λ (n : ℕ). n) list.now e) }
{
    for number in 0..list.len() {
        numbers.add_type(list[number], number)?;
    }
    Ok(())
}
