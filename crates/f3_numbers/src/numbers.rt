//! The table of numbers.

ghost use Rattle.std.specs.Prelude.{◌≡◌, ℕ, ◌++◌, ◌∷◌, [], length, List, nat_eq, None, is_none, IfOk, OnOk, if◌then◌else◌};
ghost use Rattle.std.specs.Map.{lookup};
ghost use Rattle.f3_elaboration.specs.Numbers as numbers;
ghost use Rattle.f3_elaboration.specs.Numbers.{base_of, kind_of, name_of, number_in};
ghost use Rattle.f3_numbers.specs.Table.{object_in, procedure_in, type_in, object_at, procedure_at, type_at, base_at, kind_at, with_one};
ghost use Rattle.f3_numbers.specs.Agrees.{Agrees, nothing_inside, nothing_numbered, with_static, with_procedure, with_type, with_lent};

use f3_kinds::types::{DataType, Object};
use f3_program::declarations::{Base, Kind};
use f3_program::expression::Name;
use f3_tree::expression::IntegerKind;
use indexmap::IndexMap;
use std::alloc::{AllocError, Global};

/// The numbers of a program and of the procedure at hand, by entity. An entity that is there keeps its number.
#[derive(Drop)]
pub struct Numbers {
    /// What the names of variables mean (ISO/IEC 1539-1:2004, 16.4).
    objects: IndexMap<usize, Name>,
    procedures: IndexMap<usize, usize>,
    types: IndexMap<usize, usize>,
}

/// Adds a number where the entity has none; whether it had none.
fn add_number(
    numbers: &mut IndexMap<usize, usize>,
    entity: usize,
    number: usize,
) -> Result<bool, AllocError>
    ensures is_new { IfOk result (λ b. b ≡ is_none (lookup (nat_eq entity) numbers.old.entries)) }
    ensures added { OnOk result ((e : ℕ) → lookup (nat_eq e) numbers.new.entries ≡ with_one (λ k. lookup (nat_eq k) numbers.old.entries) entity number e) }
{
    if numbers.contains_key(&entity) {
        return Ok(false);
    }
    numbers.insert(entity, number)?;
    Ok(true)
}

/// Adds an object where the entity has none; whether it had none.
fn add_name(
    objects: &mut IndexMap<usize, Name>,
    entity: usize,
    name: Name,
) -> Result<bool, AllocError>
    ensures is_new { IfOk result (λ b. b ≡ is_none (lookup (nat_eq entity) objects.old.entries)) }
    ensures added { OnOk result ((e : ℕ) → lookup (nat_eq e) objects.new.entries ≡ with_one (λ k. lookup (nat_eq k) objects.old.entries) entity name e) }
{
    if objects.contains_key(&entity) {
        return Ok(false);
    }
    objects.insert(entity, name)?;
    Ok(true)
}

/// Exchanges what an entity is as an object, or is not; answers what it was.
fn exchange_name(
    objects: &mut IndexMap<usize, Name>,
    entity: usize,
    name: Option<Name>,
) -> Result<Option<Name>, AllocError>
    ensures before { IfOk result (λ k. k ≡ lookup (nat_eq entity) objects.old.entries) }
    ensures after { OnOk result ((e : ℕ) → lookup (nat_eq e) objects.new.entries ≡ (if nat_eq entity e then name else lookup (nat_eq e) objects.old.entries)) }
{
    match name {
        Some(name) => Ok(objects.insert(entity, name)?),
        None => Ok(objects.swap_remove(&entity)),
    }
}

impl Numbers {
    /// No numbers.
    pub fn new(alloc: Global) -> Self
        ensures { Agrees result nothing_numbered nothing_inside }
    {
        Numbers {
            objects: IndexMap::new(alloc),
            procedures: IndexMap::new(alloc),
            types: IndexMap::new(alloc),
        }
    }

    /// The object that an entity is.
    pub fn object(&self, entity: usize) -> Name
        ensures at { result ≡ object_at self.now entity }
        ensures agrees { (whole : numbers.Numbers) (inner : numbers.Inner) → Agrees self.now whole inner → result ≡ name_of whole inner entity }
    {
        match self.objects.get(&entity) {
            Some(name) => *name,
            None => Name::Lent(0),
        }
    }

    /// The number of a procedure.
    pub fn procedure(&self, entity: usize) -> usize
        ensures at { result ≡ procedure_at self.now entity }
        ensures agrees { (whole : numbers.Numbers) (inner : numbers.Inner) → Agrees self.now whole inner → result ≡ number_in whole.procedures entity }
    {
        match self.procedures.get(&entity) {
            Some(number) => *number,
            None => 0,
        }
    }

    /// The number of a derived type.
    pub fn derived(&self, entity: usize) -> usize
        ensures at { result ≡ type_at self.now entity }
        ensures agrees { (whole : numbers.Numbers) (inner : numbers.Inner) → Agrees self.now whole inner → result ≡ number_in whole.types entity }
    {
        match self.types.get(&entity) {
            Some(number) => *number,
            None => 0,
        }
    }

    /// A type, with the number of a derived type; INTEGER where there is none.
    pub fn base(&self, of: Option<DataType>) -> Base
        ensures at { result ≡ base_at self.now of }
        ensures agrees { (whole : numbers.Numbers) (inner : numbers.Inner) → Agrees self.now whole inner → result ≡ base_of whole of }
    {
        match of {
            Some(DataType::Integer(IntegerKind::Four)) => Base::Integer,
            Some(DataType::Integer(IntegerKind::Eight)) => Base::Long,
            Some(DataType::Logical) => Base::Logical,
            Some(DataType::Derived(entity)) => Base::Derived(self.derived(entity)),
            None => Base::Integer,
        }
    }

    /// What an object is declared as.
    pub fn kind(&self, object: Object) -> Kind
        ensures at { result ≡ kind_at self.now object }
        ensures agrees { (whole : numbers.Numbers) (inner : numbers.Inner) → Agrees self.now whole inner → result ≡ kind_of whole object }
    {
        Kind {
            of: self.base(object.data_type),
            rank: object.rank,
            is_allocatable: object.is_allocatable,
        }
    }

    /// Adds an object where the entity is none; whether it was none. Variables that live for the whole run come first, then those of the
    /// procedure at hand, then what is lent.
    ///
    /// `AllocError` where memory runs out.
    pub fn add_object(&mut self, entity: usize, name: Name) -> Result<bool, AllocError>
        ensures is_new { IfOk result (λ b. b ≡ is_none (object_in self.old entity)) }
        ensures objects { OnOk result ((e : ℕ) → object_in self.new e ≡ with_one (object_in self.old) entity name e) }
        ensures procedures { OnOk result ((e : ℕ) → procedure_in self.new e ≡ procedure_in self.old e) }
        ensures types { OnOk result ((e : ℕ) → type_in self.new e ≡ type_in self.old e) }
    {
        add_name(&mut self.objects, entity, name)
    }

    /// Removes what an entity is as an object.
    pub fn remove_object(&mut self, entity: usize)
        ensures objects { (e : ℕ) → object_in self.new e ≡ (if nat_eq entity e then None else object_in self.old e) }
        ensures procedures { (e : ℕ) → procedure_in self.new e ≡ procedure_in self.old e }
        ensures types { (e : ℕ) → type_in self.new e ≡ type_in self.old e }
    {
        self.objects.swap_remove(&entity);
    }

    /// Exchanges what an entity is as an object, or is not; answers what it was. Inside of an ASSOCIATE construct its names are other
    /// objects than outside (ISO/IEC 1539-1:2004, 16.3).
    ///
    /// `AllocError` where memory runs out.
    pub fn exchange_object(
        &mut self,
        entity: usize,
        name: Option<Name>,
    ) -> Result<Option<Name>, AllocError>
        ensures before { IfOk result (λ k. k ≡ object_in self.old entity) }
        ensures objects { OnOk result ((e : ℕ) → object_in self.new e ≡ (if nat_eq entity e then name else object_in self.old e)) }
        ensures procedures { OnOk result ((e : ℕ) → procedure_in self.new e ≡ procedure_in self.old e) }
        ensures types { OnOk result ((e : ℕ) → type_in self.new e ≡ type_in self.old e) }
    {
        exchange_name(&mut self.objects, entity, name)
    }

    /// Adds a procedure where the entity is none; whether it was none.
    ///
    /// `AllocError` where memory runs out.
    pub fn add_procedure(&mut self, entity: usize, number: usize) -> Result<bool, AllocError>
        ensures objects { OnOk result ((e : ℕ) → object_in self.new e ≡ object_in self.old e) }
        ensures procedures { OnOk result ((e : ℕ) → procedure_in self.new e ≡ with_one (procedure_in self.old) entity number e) }
        ensures types { OnOk result ((e : ℕ) → type_in self.new e ≡ type_in self.old e) }
    {
        add_number(&mut self.procedures, entity, number)
    }

    /// Adds a derived type where the entity is none; whether it was none.
    ///
    /// `AllocError` where memory runs out.
    pub fn add_type(&mut self, entity: usize, number: usize) -> Result<bool, AllocError>
        ensures objects { OnOk result ((e : ℕ) → object_in self.new e ≡ object_in self.old e) }
        ensures procedures { OnOk result ((e : ℕ) → procedure_in self.new e ≡ procedure_in self.old e) }
        ensures types { OnOk result ((e : ℕ) → type_in self.new e ≡ with_one (type_in self.old) entity number e) }
    {
        add_number(&mut self.types, entity, number)
    }
}
