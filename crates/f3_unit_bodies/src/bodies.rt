//! The blocks of units and procedures.

ghost use Rattle.std.specs.Prelude.{◌≡◌, ◌+◌, ◌<◌, ◌^◌, map, OnOk, IfOk};
ghost use Rattle.f3_tree.specs.Statements.{block_of, statement_view};
ghost use Rattle.f3_tree.specs.Tree.{procedure_view, unit_view};
ghost use Rattle.f3_type_rules.specs.Declarations.{is_function};
ghost use Rattle.f3_typed_parts.specs.Noted.{noted};
ghost use Rattle.f3_sites.specs.Sites.{site_of};
ghost use Rattle.f3_associates.specs.Known.{IsSettled};
ghost use Rattle.f3_unit_bodies.specs.Bodies.{anywhere, width, widths, unit_width, unit_widths, body_rows, is_pure_in, procedure_rows, unit_rows, units_rows};

use f3_bodies::blocks::block;
use f3_rules::breaks::Break;
use f3_sites::site::Site;
use f3_tree::program::{Procedure, ProcedureKind, Unit};
use f3_tree::statement::Statement;
use f3_typed_parts::known::Position;
use std::alloc::{AllocError, Global};

/// Where a body stands.
#[derive(Clone, Copy)]
struct Standpoint {
    /// The scope of its unit.
    unit: usize,
    /// The scope of its unit or procedure.
    scope: usize,
    /// Whether it is that of a PURE procedure or of a function.
    is_pure: bool,
}

/// Notes the first break of a body; answers the number of the scope behind it.
fn body(
    alloc: Global,
    site: &mut Site<'_>,
    first: &mut Option<Break>,
    at: Standpoint,
    statements: &[Statement],
) -> Result<usize, AllocError>
    requires settled { IsSettled (site_of site.old) }
    requires numbers { at.scope + width (block_of (map statement_view statements.now)) < 2 ^ 64 }
    ensures noted { OnOk result (first.new ≡ noted first.old (body_rows (site_of site.old) at.unit at.scope at.is_pure (block_of (map statement_view statements.now)))) }
    ensures next { IfOk result (λ n. n ≡ at.scope + width (block_of (map statement_view statements.now))) }
    ensures site { OnOk result (anywhere (site_of site.new) ≡ anywhere (site_of site.old)) }
{
    site.at = Position {
        scope: at.scope,
        unit: at.unit,
        phase: 6,
    };
    site.body = at.scope;
    site.is_pure = at.is_pure;
    block(alloc, site, first, at.scope + 1, statements)
}

fn is_function(kind: ProcedureKind) -> bool
    ensures { result ≡ is_function kind }
{
    match kind {
        ProcedureKind::Subroutine => false,
        ProcedureKind::Function(_, _) => true,
    }
}

/// Whether a procedure is PURE or a function.
fn is_pure(procedure: &Procedure) -> bool
    ensures { result ≡ is_pure_in (procedure_view procedure.now) }
{
    procedure.header.pure || is_function(procedure.header.kind)
}

/// Notes the first break of the bodies of a unit's procedures, of which the first has this scope; answers the number of the
/// scope behind them.
fn procedures(
    alloc: Global,
    site: &mut Site<'_>,
    first: &mut Option<Break>,
    unit: usize,
    mut scope: usize,
    list: &[Procedure],
) -> Result<usize, AllocError>
    requires settled { IsSettled (site_of site.old) }
    requires numbers { scope + widths (map procedure_view list.now) < 2 ^ 64 }
    ensures noted { OnOk result (first.new ≡ noted first.old (procedure_rows (site_of site.old) unit scope (map procedure_view list.now))) }
    ensures next { IfOk result (λ n. n ≡ scope + widths (map procedure_view list.now)) }
    ensures site { OnOk result (anywhere (site_of site.new) ≡ anywhere (site_of site.old)) }
{
    for procedure in list {
        let at = Standpoint {
            unit,
            scope,
            is_pure: is_pure(procedure),
        };
        scope = body(alloc, site, first, at, &procedure.body)?;
    }
    Ok(scope)
}

/// Notes the first break of the bodies of a unit and its procedures; answers the number of the scope behind them.
fn unit_bodies(
    alloc: Global,
    site: &mut Site<'_>,
    first: &mut Option<Break>,
    scope: usize,
    unit: &Unit,
) -> Result<usize, AllocError>
    requires settled { IsSettled (site_of site.old) }
    requires numbers { scope + unit_width (unit_view unit.now) < 2 ^ 64 }
    ensures noted { OnOk result (first.new ≡ noted first.old (unit_rows (site_of site.old) scope (unit_view unit.now))) }
    ensures next { IfOk result (λ n. n ≡ scope + unit_width (unit_view unit.now)) }
    ensures site { OnOk result (anywhere (site_of site.new) ≡ anywhere (site_of site.old)) }
{
    let at = Standpoint {
        unit: scope,
        scope,
        is_pure: false,
    };
    let next = body(alloc, site, first, at, &unit.body)?;
    procedures(alloc, site, first, scope, next, &unit.procedures)
}

/// Notes the first break of phases 6 and 7 of the bodies of all units, of which the first has this scope.
///
/// # Errors
///
/// Where memory runs out: then the site is of no use any more.
pub fn bodies(
    alloc: Global,
    site: &mut Site<'_>,
    first: &mut Option<Break>,
    mut scope: usize,
    units: &[Unit],
) -> Result<(), AllocError>
    requires settled { IsSettled (site_of site.old) }
    requires numbers { scope + unit_widths (map unit_view units.now) < 2 ^ 64 }
    ensures noted { OnOk result (first.new ≡ noted first.old (units_rows (site_of site.old) scope (map unit_view units.now))) }
    ensures site { OnOk result (anywhere (site_of site.new) ≡ anywhere (site_of site.old)) }
{
    for unit in units {
        scope = unit_bodies(alloc, site, first, scope, unit)?;
    }
    Ok(())
}
