//! The lines of a table of names.

ghost use Rattle.std.specs.Prelude.{◌≡◌, ◌++◌, [], codes, OnOk, IfOk, if◌then◌else◌, slice_get, string_bytes};
ghost use Rattle.std.specs.List.{flat_map};
ghost use Rattle.f3_tree.specs.Tree.{unit_view, view};
ghost use Rattle.f3_scopes.specs.Scopes.{unit_kind};
ghost use Rattle.f3_access.specs.Tables.{own_of};
ghost use Rattle.f3_names.specs.Tables.{AreNames};
ghost use Rattle.f3_name_table.specs.NameTable.{unit_word, kind_word, entity_text, table_text};
ghost use Rattle.f3_name_table.specs.Inner.Lines.{texts_of, access_word, line_by, head_by, unit_by, units_by};

use f3_graph::UnitId;
use f3_lookups::lookup::Visible;
use f3_names::table::{Names, ScopeId};
use f3_scopes::outline::EntityKind;
use f3_tree::program::{Program, Unit, UnitKind};
use std::alloc::{AllocError, Global};

/// The word of a unit's kind.
fn unit_word(kind: UnitKind) -> &'static str
    ensures { result.now ≡ unit_word (unit_kind kind) }
{
    match kind {
        UnitKind::Module => "module",
        UnitKind::Program => "program",
    }
}

/// The word of what an entity is.
fn kind_word(kind: EntityKind) -> &'static str
    ensures { result.now ≡ kind_word kind }
{
    match kind {
        EntityKind::Constant => "constant",
        EntityKind::Variable => "variable",
        EntityKind::DerivedType => "type",
        EntityKind::Subroutine => "subroutine",
        EntityKind::Function => "function",
    }
}

/// What a line says of PROTECTED.
fn protected_word(is_protected: bool) -> &'static str
    ensures { result.now ≡ (if is_protected then codes " protected" else []) }
{
    if is_protected { " protected" } else { "" }
}

/// What a line in a unit of this kind says of access: a module has public and private names.
fn access_word(kind: UnitKind, is_private: bool) -> &'static str
    ensures { result.now ≡ access_word kind is_private }
{
    match kind {
        UnitKind::Module if is_private => " private",
        UnitKind::Module => " public",
        UnitKind::Program => "",
    }
}

/// Adds what an entity is, the unit that holds it and its name there, and whether it is protected; nothing where there is
/// no entity of this number.
fn add_entity(text: &mut String, names: &Names, number: usize) -> Result<(), AllocError>
    ensures { OnOk result (string_bytes text.new ≡ string_bytes text.old ++ entity_text (texts_of names.now) (slice_get names.now.entities.items number)) }
{
    let Some(entity) = names.entities().get(number) else {
        return Ok(());
    };
    let kind = kind_word(entity.kind);
    let home = names.text(entity.home);
    let original = names.text(entity.original);
    let protected = protected_word(entity.is_protected);
    write!(text, "{kind} {home}.{original}{protected}")
}

/// Adds the line of a name that is visible in a unit.
fn add_line(
    text: &mut String,
    names: &Names,
    scope: ScopeId,
    kind: UnitKind,
    visible: Visible,
) -> Result<(), AllocError>
    ensures { OnOk result (string_bytes text.new ≡ string_bytes text.old ++ line_by names.now scope.number kind visible) }
{
    let name = names.text(visible.symbol);
    let access = access_word(kind, names.is_private(scope, visible.symbol));
    write!(text, "  {name} ")?;
    add_entity(text, names, visible.entity)?;
    writeln!(text, "{access}")
}

/// Adds a line for each name that is visible in a unit.
fn add_lines(
    text: &mut String,
    names: &Names,
    scope: ScopeId,
    kind: UnitKind,
) -> Result<(), AllocError>
    ensures { OnOk result (string_bytes text.new ≡ string_bytes text.old ++ flat_map (line_by names.now scope.number kind) (own_of names.now.tables scope.number)) }
{
    for visible in names.own(scope) {
        add_line(text, names, scope, kind, *visible)?;
    }
    Ok(())
}

/// Adds the line of a unit itself.
fn add_head(text: &mut String, names: &Names, unit: &Unit) -> Result<(), AllocError>
    ensures { OnOk result (string_bytes text.new ≡ string_bytes text.old ++ head_by names.now (unit_view unit.now)) }
{
    let kind = unit_word(unit.kind);
    let name = names.text(unit.name.symbol);
    writeln!(text, "{kind} {name}")
}

/// Adds the lines of the unit of this number.
fn add_unit(text: &mut String, names: &Names, number: usize, unit: &Unit) -> Result<(), AllocError>
    ensures { OnOk result (string_bytes text.new ≡ string_bytes text.old ++ unit_by names.now (slice_get names.now.units.items number) (unit_view unit.now)) }
{
    let Some(scope) = names.unit_scope(UnitId { number }) else {
        return Ok(());
    };
    add_head(text, names, unit)?;
    add_lines(text, names, scope, unit.kind)
}

/// The lines of all units in the order of their places.
fn units_text(alloc: Global, program: &Program, names: &Names) -> Result<String, AllocError>
    ensures { IfOk result (λ text. string_bytes text ≡ units_by names.now 0 (view program.now).units) }
{
    let mut text = String::new(alloc);
    for (number, unit) in program.units.iter().enumerate() {
        add_unit(&mut text, names, number, unit)?;
    }
    Ok(text)
}

/// The text of a program's table of names, in time linear in its length.
///
/// AllocError: a growth of the host's memory was refused.
pub fn table_text(alloc: Global, program: &Program, names: &Names) -> Result<String, AllocError>
    requires { AreNames (view program.now) names.now }
    ensures { IfOk result (λ text. string_bytes text ≡ table_text (view program.now) (own_of names.now.tables)) }
{
    units_text(alloc, program, names)
}
