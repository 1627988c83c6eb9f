//! Orders, scopes and names, as text.

use f3_access::{module, used};
use f3_graph::{UnitId, UnitOrder};
use f3_lookups::lookup::{Lookup, Visible};
use f3_names::entity::Entity;
use f3_names::resolve;
use f3_names::table::{Names, ScopeId};
use f3_scopes::outline::Outline;
use f3_tree::program::{Program, Unit};
use std::alloc::{AllocError, Global};

/// The numbers of units in a line.
pub fn order_text(alloc: Global, order: &UnitOrder) -> Result<String, AllocError> {
    let mut text = String::from_str(alloc, "order")?;
    for unit in &order.units {
        let number = unit.number;
        write!(text, " {number}")?;
    }
    text.push('\n')?;
    Ok(text)
}

/// Adds the names that a scope declares.
fn add_declared(text: &mut String, program: &Program, outline: &Outline) -> Result<(), AllocError> {
    for declared in &outline.declared {
        if let Some(name) = program.names.get_index(declared.name.symbol) {
            write!(text, " {name}")?;
        }
    }
    text.push('\n')
}

/// Adds the kind of a scope, the number of its host, and the names that it declares.
fn add_scope(text: &mut String, program: &Program, outline: &Outline) -> Result<(), AllocError> {
    let kind = outline.kind;
    match outline.host {
        Some(host) => write!(text, "{kind:?} in {host}")?,
        None => write!(text, "{kind:?}")?,
    }
    add_declared(text, program, outline)
}

/// The scopes, in a line each.
pub fn scopes_text(
    alloc: Global,
    program: &Program,
    outlines: &[Outline],
) -> Result<String, AllocError> {
    let mut text = String::new(alloc);
    for outline in outlines {
        add_scope(&mut text, program, outline)?;
    }
    Ok(text)
}

/// Adds what an entity is: the names of its unit and of its declaration, its kind, and whether it is protected.
fn add_meaning(text: &mut String, names: &Names, entity: &Entity) -> Result<(), AllocError> {
    let home = names.text(entity.home);
    let original = names.text(entity.original);
    let kind = entity.kind;
    let protected = if entity.is_protected {
        " protected"
    } else {
        ""
    };
    write!(text, "{home}.{original} {kind:?}{protected}")
}

/// Adds an entity with the numbers of its scope and of its unit's, and its place.
fn add_entity(text: &mut String, names: &Names, entity: &Entity) -> Result<(), AllocError> {
    let scope = entity.scope;
    let unit = entity.unit;
    let place = entity.place;
    add_meaning(text, names, entity)?;
    writeln!(text, " of scope {scope} in unit {unit} at {place:?}")
}

fn add_entities(text: &mut String, names: &Names) -> Result<(), AllocError> {
    for entity in names.entities() {
        add_entity(text, names, entity)?;
    }
    Ok(())
}

/// Adds a name and the number of its entity.
fn add_pair(text: &mut String, names: &Names, pair: Visible) -> Result<(), AllocError> {
    let name = names.text(pair.symbol);
    let entity = pair.entity;
    write!(text, " {name}={entity}")
}

fn add_pairs(text: &mut String, names: &Names, pairs: &[Visible]) -> Result<(), AllocError> {
    for pair in pairs {
        add_pair(text, names, *pair)?;
    }
    Ok(())
}

fn add_visible(text: &mut String, names: &Names, scope: ScopeId) -> Result<(), AllocError> {
    for pair in names.visible(scope) {
        add_pair(text, names, pair)?;
    }
    Ok(())
}

/// What is found in a scope under a name that is written in capitals.
fn found(alloc: Global, names: &Names, scope: ScopeId, name: &str) -> Result<Lookup, AllocError> {
    let mut capitals = String::from_str(alloc, name)?;
    capitals.make_ascii_uppercase();
    Ok(resolve(names, scope, capitals.as_str()))
}

/// Adds what is found in a scope under a name, where there is something.
fn add_found(text: &mut String, name: &str, found: Lookup) -> Result<(), AllocError> {
    match found {
        Lookup::Nothing => Ok(()),
        Lookup::One(entity) => write!(text, " {name}={entity}"),
        Lookup::Several => write!(text, " {name}=several"),
    }
}

/// Adds whether a USE brings a name, and whether it is private.
fn add_marks(
    text: &mut String,
    names: &Names,
    scope: ScopeId,
    symbol: usize,
) -> Result<(), AllocError> {
    if used(names.tables(), scope.number, symbol) {
        text.push_str(" used")?;
    }
    if names.is_private(scope, symbol) {
        text.push_str(" private")?;
    }
    Ok(())
}

/// Adds what a scope has under a name.
fn add_name(
    alloc: Global,
    text: &mut String,
    names: &Names,
    scope: ScopeId,
    symbol: usize,
) -> Result<(), AllocError> {
    let name = names.text(symbol);
    let found = found(alloc, names, scope, name)?;
    add_found(text, name, found)?;
    add_marks(text, names, scope, symbol)
}

/// Adds what a scope has under each name of the program.
fn add_names(
    alloc: Global,
    text: &mut String,
    program: &Program,
    names: &Names,
    scope: ScopeId,
) -> Result<(), AllocError> {
    for symbol in 0..program.names.len() {
        add_name(alloc, text, names, scope, symbol)?;
    }
    text.push('\n')
}

/// Adds what a scope has of its own, and what it sees.
fn add_sight(text: &mut String, names: &Names, scope: ScopeId) -> Result<(), AllocError> {
    let number = scope.number;
    write!(text, "scope {number} has")?;
    add_pairs(text, names, names.own(scope))?;
    text.push_str(", sees")?;
    add_visible(text, names, scope)
}

fn add_scopes(
    alloc: Global,
    text: &mut String,
    program: &Program,
    names: &Names,
) -> Result<(), AllocError> {
    for number in 0..names.outlines().len() {
        add_sight(text, names, ScopeId { number })?;
        text.push_str(", finds")?;
        add_names(alloc, text, program, names, ScopeId { number })?;
    }
    Ok(())
}

/// Adds the number of a unit, that of its scope where it is a module, and what it exports.
fn add_unit(
    text: &mut String,
    names: &Names,
    unit: &Unit,
    number: usize,
) -> Result<(), AllocError> {
    let module = module(names.tables(), unit.name.symbol);
    write!(text, "unit {number} is module {module:?}, exports")?;
    add_pairs(text, names, names.exports(UnitId { number }))?;
    text.push('\n')
}

fn add_units(text: &mut String, program: &Program, names: &Names) -> Result<(), AllocError> {
    for (number, unit) in program.units.iter().enumerate() {
        add_unit(text, names, unit, number)?;
    }
    Ok(())
}

/// The entities in the order of their numbers, what each scope sees of them, and what each unit exports.
pub fn names_text(alloc: Global, program: &Program, names: &Names) -> Result<String, AllocError> {
    let mut text = String::new(alloc);
    add_entities(&mut text, names)?;
    add_scopes(alloc, &mut text, program, names)?;
    add_units(&mut text, program, names)?;
    Ok(text)
}
