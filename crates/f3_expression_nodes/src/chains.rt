//! Operands of one level, and the operators between them (7.1.1.3).

ghost use Rattle.std.specs.Prelude.{◌≡◌, map, IfOk};
ghost use Rattle.f3_expression_nodes.specs.Inner.Lists.{further_of};
ghost use Rattle.f3_expression_nodes.specs.Inner.Operands.{chained, raised};
ghost use Rattle.f3_expression_parts.specs.Parts.{operand_of};
ghost use Rattle.f3_numbers.specs.Surroundings.{surroundings_of};

use f3_expression_parts::operators::{Operand, is_power, joined};
use f3_numbers::surroundings::Surroundings;
use f3_tree::expression::Operator;
use std::alloc::{AllocError, Global};

/// Raises each operand to what stands behind it, the last of them to `exponent`.
fn raised(
    alloc: Global,
    from: Surroundings<'_>,
    mut bases: Vec<Operand>,
    exponent: Operand,
) -> Result<Operand, AllocError>
    ensures { IfOk result (λ y. operand_of y ≡ raised (surroundings_of from.entry) (map operand_of bases.items) (operand_of exponent)) }
{
    let mut found = exponent;
    while let Some(base) = bases.pop() {
        found = joined(alloc, from, Operator::Power, base, found)?;
    }
    Ok(found)
}

/// An operand and those behind it, each behind its operator: `**` goes from the right, all else from the left.
///
/// # Errors
///
/// Where memory runs out.
pub fn chained(
    alloc: Global,
    from: Surroundings<'_>,
    first: Operand,
    others: Vec<(Operator, Operand)>,
) -> Result<Operand, AllocError>
    ensures { IfOk result (λ y. operand_of y ≡ chained (surroundings_of from.entry) (operand_of first) (map further_of others.items)) }
{
    let mut bases = Vec::new(alloc);
    let mut last = first;
    for (operator, operand) in others {
        if is_power(operator) {
            bases.push(last)?;
            last = operand;
        } else {
            last = joined(alloc, from, operator, last, operand)?;
        }
    }
    raised(alloc, from, bases, last)
}
