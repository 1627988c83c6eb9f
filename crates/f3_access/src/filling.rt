//! The tables of all scopes, along an order of the units.

ghost use Rattle.std.specs.Prelude.{◌≡◌, ℕ, ◌<◌, ◌+◌, length, OnOk, IfOk, map, nat_eq, None};
ghost use Rattle.std.specs.List.{All};
ghost use Rattle.indexmap.specs.IndexMap.{get};
ghost use Rattle.f3_scopes.specs.Outlines.{own_view, scope_view};
ghost use Rattle.f3_access.specs.Access.{IsUnitOrder, ModulesDiffer};
ghost use Rattle.f3_access.specs.Listing.{numbered, lists_from, is_unit};
ghost use Rattle.f3_selecting.specs.Sources.{module_from};
ghost use Rattle.f3_access.specs.Hosts.{HostsBefore};
ghost use Rattle.f3_access.specs.Parts.{IsTableOf, IsFilled, UnitsStand, Done, AllStand, HasPlaces};
ghost use Rattle.f3_access.specs.Tables.{AreTables};
ghost use Rattle.f3_selecting.specs.Private.{AreAccesses};

use crate::building::table_of;
use crate::table::{ScopeTable, Tables};
use f3_lookups::lookup::Visible;
use f3_scopes::outline::{Declared, Outline, ScopeKind};
use f3_selecting::choosing::{Accesses, all_accesses};
use f3_selecting::modules::modules_by_name;
use indexmap::{IndexMap, IndexSet};
use std::alloc::{AllocError, Global};

/// The declarations of a scope, numbered from the number of those before; these are kept by their names.
pub fn numbered(
    alloc: Global,
    before: &mut Vec<usize>,
    declared: &[Declared],
) -> Result<Vec<Visible>, AllocError>
    ensures pairs { IfOk result (λ v. v.items ≡ numbered (length before.old.items) (map own_view declared.now)) }
    ensures before { OnOk result (length before.new.items ≡ length before.old.items + length (map own_view declared.now)) }
{
    let mut pairs = Vec::new(alloc);
    for declaration in declared {
        pairs.push(Visible {
            symbol: declaration.name.symbol,
            entity: before.len(),
        })?;
        before.push(declaration.name.symbol)?;
    }
    Ok(pairs)
}

/// What each scope declares.
fn declared_lists(alloc: Global, outlines: &[Outline]) -> Result<Vec<Vec<Visible>>, AllocError>
    ensures { IfOk result (λ v. map (λ l. l.items) v.items ≡ lists_from 0 (map scope_view outlines.now)) }
{
    let mut lists = Vec::new(alloc);
    let mut before = Vec::new(alloc);
    for outline in outlines {
        lists.push(numbered(alloc, &mut before, &outline.declared)?)?;
    }
    Ok(lists)
}

/// A table with nothing in it.
fn empty_table(alloc: Global) -> ScopeTable
    ensures { HasPlaces result }
{
    ScopeTable {
        own: IndexSet::new(alloc),
        used: IndexSet::new(alloc),
        lookups: IndexMap::new(alloc),
        exports: Vec::new(alloc),
        places: IndexMap::new(alloc),
        host: None,
    }
}

/// Adds a table that knows its places.
pub fn add_table(tables: &mut Vec<ScopeTable>, table: ScopeTable) -> Result<(), AllocError>
    requires tables { All HasPlaces tables.old.items }
    requires table { HasPlaces table }
    ensures places { OnOk result (All HasPlaces tables.new.items) }
    ensures long { OnOk result (length tables.new.items ≡ length tables.old.items + 1) }
{
    tables.push(table)?;
    Ok(())
}

fn empty_tables(alloc: Global, count: usize) -> Result<Vec<ScopeTable>, AllocError>
    ensures long { IfOk result (λ v. length v.items ≡ count) }
    ensures places { IfOk result (λ v. All HasPlaces v.items) }
{
    let mut tables = Vec::new(alloc);
    for _made in 0..count {
        add_table(&mut tables, empty_table(alloc))?;
    }
    Ok(tables)
}

/// The table of the scope of this number.
fn table_at(
    alloc: Global,
    outlines: &[Outline],
    number: usize,
    declared: &[Vec<Visible>],
    accesses: &[Accesses],
    modules: &IndexMap<usize, usize>,
    tables: &[ScopeTable],
) -> Result<ScopeTable, AllocError>
    requires scope { number < length outlines.now }
    requires declared { map (λ l. l.items) declared.now ≡ lists_from 0 (map scope_view outlines.now) }
    requires accesses { AreAccesses (map scope_view outlines.now) accesses.now }
    requires modules { (s : ℕ) → get nat_eq modules.now s ≡ module_from None 0 (map scope_view outlines.now) s }
    requires places { All HasPlaces tables.now }
    ensures table { IfOk result (IsTableOf (map scope_view outlines.now) tables.now number) }
    ensures places { IfOk result HasPlaces }
{
    table_of(
        alloc,
        &outlines[number],
        &declared[number],
        &accesses[number],
        modules,
        tables,
    )
}

/// Writes the table of the scope of this number.
fn fill(
    alloc: Global,
    outlines: &[Outline],
    number: usize,
    declared: &[Vec<Visible>],
    accesses: &[Accesses],
    modules: &IndexMap<usize, usize>,
    tables: &mut Vec<ScopeTable>,
) -> Result<(), AllocError>
    requires scope { number < length outlines.now }
    requires long { length tables.old.items ≡ length outlines.now }
    requires places { All HasPlaces tables.old.items }
    requires declared { map (λ l. l.items) declared.now ≡ lists_from 0 (map scope_view outlines.now) }
    requires accesses { AreAccesses (map scope_view outlines.now) accesses.now }
    requires modules { (s : ℕ) → get nat_eq modules.now s ≡ module_from None 0 (map scope_view outlines.now) s }
    ensures table { OnOk result (IsFilled (map scope_view outlines.now) number tables.old.items tables.new.items) }
    ensures places { OnOk result (All HasPlaces tables.new.items) }
{
    let table = table_at(alloc, outlines, number, declared, accesses, modules, tables)?;
    tables[number] = table;
    Ok(())
}

fn is_unit(kind: ScopeKind) -> bool
    ensures { result ≡ is_unit kind }
{
    match kind {
        ScopeKind::Module => true,
        ScopeKind::Program => true,
        ScopeKind::Subroutine => false,
        ScopeKind::Function => false,
        ScopeKind::Associate => false,
    }
}

/// The tables of the units, along their order.
fn units_filled(
    alloc: Global,
    outlines: &[Outline],
    order: &[usize],
    declared: &[Vec<Visible>],
    accesses: &[Accesses],
    modules: &IndexMap<usize, usize>,
) -> Result<Vec<ScopeTable>, AllocError>
    requires order { IsUnitOrder (map scope_view outlines.now) order.now }
    requires declared { map (λ l. l.items) declared.now ≡ lists_from 0 (map scope_view outlines.now) }
    requires accesses { AreAccesses (map scope_view outlines.now) accesses.now }
    requires modules { (s : ℕ) → get nat_eq modules.now s ≡ module_from None 0 (map scope_view outlines.now) s }
    ensures units { IfOk result (λ t. UnitsStand (map scope_view outlines.now) t.items) }
    ensures places { IfOk result (λ t. All HasPlaces t.items) }
{
    let mut tables = empty_tables(alloc, outlines.len())?;
    for at in order {
        fill(
            alloc,
            outlines,
            *at,
            declared,
            accesses,
            modules,
            &mut tables,
        )?;
    }
    Ok(tables)
}

/// Writes the table of the scope of this number if it is no unit.
fn fill_inner(
    alloc: Global,
    outlines: &[Outline],
    number: usize,
    declared: &[Vec<Visible>],
    accesses: &[Accesses],
    modules: &IndexMap<usize, usize>,
    tables: &mut Vec<ScopeTable>,
) -> Result<(), AllocError>
    requires scope { number < length outlines.now }
    requires long { length tables.old.items ≡ length outlines.now }
    requires done { Done (map scope_view outlines.now) tables.old.items number }
    requires places { All HasPlaces tables.old.items }
    requires declared { map (λ l. l.items) declared.now ≡ lists_from 0 (map scope_view outlines.now) }
    requires accesses { AreAccesses (map scope_view outlines.now) accesses.now }
    requires modules { (s : ℕ) → get nat_eq modules.now s ≡ module_from None 0 (map scope_view outlines.now) s }
    ensures long { OnOk result (length tables.new.items ≡ length outlines.now) }
    ensures done { OnOk result (Done (map scope_view outlines.now) tables.new.items (number + 1)) }
    ensures places { OnOk result (All HasPlaces tables.new.items) }
{
    if is_unit(outlines[number].kind) {
        return Ok(());
    }
    fill(alloc, outlines, number, declared, accesses, modules, tables)
}

/// The tables of all scopes, where those of the units are there.
fn inner_filled(
    alloc: Global,
    outlines: &[Outline],
    declared: &[Vec<Visible>],
    accesses: &[Accesses],
    modules: &IndexMap<usize, usize>,
    units: Vec<ScopeTable>,
) -> Result<Vec<ScopeTable>, AllocError>
    requires units { UnitsStand (map scope_view outlines.now) units.items }
    requires places { All HasPlaces units.items }
    requires declared { map (λ l. l.items) declared.now ≡ lists_from 0 (map scope_view outlines.now) }
    requires accesses { AreAccesses (map scope_view outlines.now) accesses.now }
    requires modules { (s : ℕ) → get nat_eq modules.now s ≡ module_from None 0 (map scope_view outlines.now) s }
    ensures { IfOk result (λ t. AllStand (map scope_view outlines.now) t.items) }
{
    let mut tables = units;
    for number in 0..outlines.len() {
        fill_inner(
            alloc,
            outlines,
            number,
            declared,
            accesses,
            modules,
            &mut tables,
        )?;
    }
    Ok(tables)
}

/// The tables of all scopes.
fn filled(
    alloc: Global,
    outlines: &[Outline],
    order: &[usize],
    accesses: &[Accesses],
    modules: &IndexMap<usize, usize>,
) -> Result<Vec<ScopeTable>, AllocError>
    requires order { IsUnitOrder (map scope_view outlines.now) order.now }
    requires accesses { AreAccesses (map scope_view outlines.now) accesses.now }
    requires modules { (s : ℕ) → get nat_eq modules.now s ≡ module_from None 0 (map scope_view outlines.now) s }
    ensures { IfOk result (λ t. AllStand (map scope_view outlines.now) t.items) }
{
    let declared = declared_lists(alloc, outlines)?;
    let units = units_filled(alloc, outlines, order, &declared, accesses, modules)?;
    inner_filled(alloc, outlines, &declared, accesses, modules, units)
}

/// What each scope has of its own, what each module exports, and what each name stands for (ISO/IEC 1539-1:2004, 11.2 and
/// 16.4.1.3), from the outlines of all scopes, each behind the one around it, and an order of the units in which used modules
/// come first.
///
/// Memory: a growth of the host's memory was refused.
pub fn tables(alloc: Global, outlines: &[Outline], order: &[usize]) -> Result<Tables, AllocError>
    requires order { IsUnitOrder (map scope_view outlines.now) order.now }
    requires modules { ModulesDiffer (map scope_view outlines.now) }
    requires hosts { HostsBefore (map scope_view outlines.now) }
    ensures { IfOk result (AreTables (map scope_view outlines.now)) }
{
    let accesses = all_accesses(alloc, outlines)?;
    let modules = modules_by_name(alloc, outlines)?;
    let scopes = filled(alloc, outlines, order, &accesses, &modules)?;
    Ok(Tables {
        scopes,
        accesses,
        modules,
    })
}
