//! The rules on a SELECT CASE statement.

ghost use Rattle.std.specs.Prelude.{◌≡◌, ◌++◌, map, IfOk, OnOk};
ghost use Rattle.std.specs.List.{flat_map};
ghost use Rattle.f3_tree.specs.Expressions.{expression_view};
ghost use Rattle.f3_scopes.specs.Blocks.{cases_view};
ghost use Rattle.f3_type_rules.specs.Cases.{default_rows, defaults, select_breaks};
ghost use Rattle.f3_typed_parts.specs.Known.{context_of};
ghost use Rattle.f3_typed_parts.specs.Noted.{noted};
ghost use Rattle.f3_cases.specs.Inner.Blocks.{chosen_held, chosen_rows, next_seen, default_row};
ghost use Rattle.f3_cases.specs.Inner.Spans.{held_view};

use crate::overlaps::overlaps;
use crate::spans::Held;
use crate::values::{hold_all, selected_type};
use f3_kinds::types::{DataType, Wanted};
use f3_places::source::Place;
use f3_rules::breaks::Break;
use f3_rules::rule::Rule;
use f3_tree::expression::Expression;
use f3_tree::statement::{Selector, Statement};
use f3_typed_parts::known::{Known, Position};
use f3_typed_parts::noted::{at_place, unless};
use f3_typed_parts::rows::scalar;
use f3_typing::typing::expression;
use std::alloc::{AllocError, Global};

/// Notes the first break of the values of one CASE statement, and appends what they hold.
#[tactic(auto, using(f3_typed_parts::proofs::Noting::noted_none))]
fn chosen(
    alloc: Global,
    known: &Known<'_>,
    at: Position,
    first: &mut Option<Break>,
    data_type: Option<DataType>,
    all: &mut Vec<Held>,
    selector: &Selector,
) -> Result<(), AllocError>
    ensures held { OnOk result (map held_view all.new.items ≡ map held_view all.old.items ++ chosen_held (context_of known.now at) data_type selector.now) }
    ensures noted { OnOk result (first.new ≡ noted first.old (chosen_rows (context_of known.now at) data_type selector.now)) }
{
    match selector {
        Selector::Values(values) => hold_all(alloc, known, at, first, data_type, all, values),
        Selector::Default => Ok(()),
    }
}

/// Notes the first break of all values, and says what they hold.
fn all_chosen(
    alloc: Global,
    known: &Known<'_>,
    at: Position,
    first: &mut Option<Break>,
    data_type: Option<DataType>,
    cases: &[(Place, Selector, Vec<Statement>)],
) -> Result<Vec<Held>, AllocError>
    ensures held { IfOk result (λ v. map held_view v.items ≡ flat_map (λ x. chosen_held (context_of known.now at) data_type x.1) cases.now) }
    ensures noted { OnOk result (first.new ≡ noted first.old (flat_map (λ x. chosen_rows (context_of known.now at) data_type x.1) cases.now)) }
{
    let mut all = Vec::new(alloc);
    for case in cases {
        chosen(alloc, known, at, first, data_type, &mut all, &case.1)?;
    }
    Ok(all)
}

/// Notes a DEFAULT behind another one. Says whether there is one now.
#[tactic(auto, using(f3_typed_parts::proofs::Noting::noted_none))]
fn default(first: &mut Option<Break>, seen: bool, place: Place, selector: &Selector) -> bool
    ensures seen { result ≡ next_seen seen selector.now }
    ensures noted { first.new ≡ noted first.old (default_row seen place selector.now) }
{
    match selector {
        Selector::Values(_) => seen,
        Selector::Default => {
            unless(first, !seen, at_place(6, Rule::T11, place));
            true
        }
    }
}

/// Notes the first DEFAULT behind another one (8.1.3).
fn all_defaults(first: &mut Option<Break>, cases: &[(Place, Selector, Vec<Statement>)])
    ensures { first.new ≡ noted first.old (default_rows (defaults (cases_view cases.now))) }
{
    let mut seen = false;
    for case in cases {
        seen = default(first, seen, case.0, &case.1);
    }
}

/// Notes the first break of a SELECT CASE statement and of the values of its blocks (8.1.3), not of the blocks themselves.
#[tactic(auto, using(f3_typed_parts::proofs::Noting::noted_more))]
pub fn select(
    alloc: Global,
    known: &Known<'_>,
    at: Position,
    first: &mut Option<Break>,
    selector: &Expression,
    cases: &[(Place, Selector, Vec<Statement>)],
) -> Result<(), AllocError>
    ensures noted { OnOk result (first.new ≡ noted first.old (select_breaks (context_of known.now at) (expression_view selector.now) (cases_view cases.now))) }
{
    let said = expression(alloc, known, at, first, selector)?;
    scalar(first, Wanted::Intrinsic, &said);
    let data_type = selected_type(&said);
    let all = all_chosen(alloc, known, at, first, data_type, cases)?;
    overlaps(alloc, first, &all)?;
    all_defaults(first, cases);
    Ok(())
}
