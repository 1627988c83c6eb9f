//! Conditions, bounds and steps.

ghost use Rattle.std.specs.Prelude.{◌≡◌, OnOk, [], option_map};
ghost use Rattle.f3_tree.specs.Expressions.{expression_view};
ghost use Rattle.f3_kinds.specs.Things.{map_or};
ghost use Rattle.f3_type_rules.specs.Statements.{condition_breaks, number_breaks};
ghost use Rattle.f3_typed_parts.specs.Known.{context_of};
ghost use Rattle.f3_typed_parts.specs.Noted.{noted};

use f3_kinds::types::Wanted;
use f3_rules::breaks::Break;
use f3_tree::expression::Expression;
use f3_typed_parts::known::{Known, Position};
use f3_typed_parts::rows::scalar;
use f3_typing::typing::expression;
use std::alloc::{AllocError, Global};

/// Notes the first break of phase 6 of a condition of IF, ELSE IF or DO WHILE, a scalar logical (8.1). It fails where memory runs out.
#[tactic(auto, using(f3_typed_parts::proofs::Noting::noted_more))]
pub fn condition(
    alloc: Global,
    known: &Known<'_>,
    at: Position,
    first: &mut Option<Break>,
    e: &Expression,
) -> Result<(), AllocError>
    ensures noted { OnOk result (first.new ≡ noted first.old (condition_breaks (context_of known.now at) (expression_view e.now))) }
{
    let said = expression(alloc, known, at, first, e)?;
    scalar(first, Wanted::Logical, &said);
    Ok(())
}

/// Notes the first break of phase 6 of a bound or a step of DO, a scalar integer (8.1.6). It fails where memory runs out.
#[tactic(auto, using(f3_typed_parts::proofs::Noting::noted_more))]
pub(crate) fn number(
    alloc: Global,
    known: &Known<'_>,
    at: Position,
    first: &mut Option<Break>,
    e: &Expression,
) -> Result<(), AllocError>
    ensures noted { OnOk result (first.new ≡ noted first.old (number_breaks (context_of known.now at) (expression_view e.now))) }
{
    let said = expression(alloc, known, at, first, e)?;
    scalar(first, Wanted::Integer, &said);
    Ok(())
}

/// Notes the first break of phase 6 of a step of DO that may be absent. It fails where memory runs out.
#[tactic(auto, using(f3_typed_parts::proofs::Noting::noted_none))]
pub(crate) fn step(
    alloc: Global,
    known: &Known<'_>,
    at: Position,
    first: &mut Option<Break>,
    e: &Option<Expression>,
) -> Result<(), AllocError>
    ensures noted { OnOk result (first.new ≡ noted first.old (map_or [] (number_breaks (context_of known.now at)) (option_map expression_view e.now))) }
{
    match e {
        Some(e) => number(alloc, known, at, first, e),
        None => Ok(()),
    }
}
