//! Associate names as objects.

ghost use Rattle.std.specs.Prelude.{◌≡◌, ◌++◌, ℕ, map, length, IfOk, OnOk};
ghost use Rattle.f3_access.specs.Tables.{lookup_of};
ghost use Rattle.f3_tree.specs.Statements.{association_view};
ghost use Rattle.f3_elaboration.specs.Numbers.{entity_of};
ghost use Rattle.f3_numbers.specs.Table.{object_in, procedure_in, type_in};
ghost use Rattle.f3_inside.specs.Entities.{entity_at};
ghost use Rattle.f3_inside.specs.Exchanged.{put, put_all, lent_from};

use f3_access::lookup;
use f3_access::table::Tables;
use f3_lookups::lookup::Lookup;
use f3_numbers::numbers::Numbers;
use f3_program::expression::Name;
use f3_tree::statement::Association;
use std::alloc::{AllocError, Global};

/// What an entity is as an object, where it is one.
#[derive(Drop)]
pub struct Named {
    pub entity: usize,
    pub name: Option<Name>,
}

/// The entity that a name means, where it means one.
fn entity_of(found: Lookup) -> usize
    ensures { result ≡ entity_of found }
{
    match found {
        Lookup::One(entity) => entity,
        Lookup::Nothing => 0,
        Lookup::Several => 0,
    }
}

/// Adds the associate names of the construct of this number to what is lent; answers them as objects.
///
/// `AllocError` where memory runs out.
pub fn lend(
    alloc: Global,
    lent: &mut Vec<usize>,
    tables: &Tables,
    number: usize,
    list: &[Association],
) -> Result<Vec<Named>, AllocError>
    ensures lent { OnOk result (lent.new.items ≡ lent.old.items ++ map (entity_at (lookup_of tables.now) number) (map association_view list.now)) }
    ensures names { IfOk result (λ v. v.items ≡ lent_from (length lent.old.items) (map (entity_at (lookup_of tables.now) number) (map association_view list.now))) }
{
    let mut names = Vec::new(alloc);
    for association in list {
        let entity = entity_of(lookup(tables, number, association.name.symbol));
        let name = Some(Name::Lent(lent.len()));
        names.push(Named { entity, name })?;
        lent.push(entity)?;
    }
    Ok(names)
}

/// Exchanges what an entity is as an object; answers what it was.
fn exchange(numbers: &mut Numbers, new: Named) -> Result<Named, AllocError>
    ensures objects { OnOk result ((e : ℕ) → object_in numbers.new e ≡ put new (object_in numbers.old) e) }
    ensures before { IfOk result (λ k. (e : ℕ) → put k (object_in numbers.new) e ≡ object_in numbers.old e) }
    ensures procedures { OnOk result ((e : ℕ) → procedure_in numbers.new e ≡ procedure_in numbers.old e) }
    ensures types { OnOk result ((e : ℕ) → type_in numbers.new e ≡ type_in numbers.old e) }
{
    let Named { entity, name } = new;
    let name = numbers.exchange_object(entity, name)?;
    Ok(Named { entity, name })
}

/// Exchanges what entities are as objects, from the last on; answers what they were.
///
/// `AllocError` where memory runs out.
pub fn exchange_all(
    alloc: Global,
    numbers: &mut Numbers,
    mut list: Vec<Named>,
) -> Result<Vec<Named>, AllocError>
    ensures objects { OnOk result ((e : ℕ) → object_in numbers.new e ≡ put_all list.items (object_in numbers.old) e) }
    ensures before { IfOk result (λ v. (e : ℕ) → put_all v.items (object_in numbers.new) e ≡ object_in numbers.old e) }
    ensures procedures { OnOk result ((e : ℕ) → procedure_in numbers.new e ≡ procedure_in numbers.old e) }
    ensures types { OnOk result ((e : ℕ) → type_in numbers.new e ≡ type_in numbers.old e) }
{
    let mut before = Vec::new(alloc);
    while let Some(new) = list.pop() {
        before.push(exchange(numbers, new)?)?;
    }
    Ok(before)
}
