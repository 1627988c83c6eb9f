//! Types and kinds of expressions (7.1.4).

ghost use Rattle.std.specs.Prelude.{◌≡◌, map, IfOk};
ghost use Rattle.f3_tree.specs.Expressions.{designator, expression_view, part_view, parts_list};
ghost use Rattle.f3_kinds.specs.Operands.{kind_of};
ghost use Rattle.f3_kinds.specs.Typing.{said};
ghost use Rattle.f3_elaboration.specs.Expressions as elaborated;
ghost use Rattle.f3_numbers.specs.Surroundings.{surroundings_of};
ghost use Rattle.f3_typed_parts.specs.Known.{context_of};

use f3_kinds::said::{Has, Role};
use f3_kinds::types::DataType;
use f3_numbers::surroundings::Surroundings;
use f3_tree::expression::{Argument, Expression, IntegerKind, Name};
use f3_typed_parts::operands::type_in;
use f3_typing::designators::designator;
use f3_typing::typing::expression;
use std::alloc::{AllocError, Global};

/// The type of an expression; none where it breaks a rule, or where its TYPE(n) names no type.
///
/// # Errors
///
/// Where memory runs out.
pub fn type_of(
    alloc: Global,
    from: Surroundings<'_>,
    e: &Expression,
) -> Result<Option<DataType>, AllocError>
    ensures { IfOk result (λ t. t ≡ elaborated.type_of (surroundings_of from.entry) (expression_view e.now)) }
{
    let mut first = None;
    let said = expression(alloc, from.known, from.at, &mut first, e)?;
    Ok(type_in(said.has))
}

/// The type of what a designator of these parts means.
///
/// # Errors
///
/// Where memory runs out.
pub fn type_of_parts(
    alloc: Global,
    from: Surroundings<'_>,
    list: &[(Name, Option<Vec<Argument>>)],
) -> Result<Option<DataType>, AllocError>
    ensures { IfOk result (λ t. t ≡ elaborated.type_of (surroundings_of from.entry) (designator (parts_list (map part_view list.now)))) }
{
    let mut first = None;
    let said = designator(
        alloc,
        from.known,
        from.at,
        &mut first,
        Role::Expression,
        list,
    )?;
    Ok(type_in(said.has))
}

fn kind_of(has: Option<Has>) -> IntegerKind
    ensures { result ≡ kind_of has }
{
    match has {
        Some(has) => match has.data_type {
            Some(DataType::Integer(kind)) => kind,
            Some(DataType::Logical) => IntegerKind::Four,
            Some(DataType::Derived(_)) => IntegerKind::Four,
            None => IntegerKind::Four,
        },
        None => IntegerKind::Four,
    }
}

/// The kind of an operand; 4 where it is no integer.
///
/// # Errors
///
/// Where memory runs out.
pub fn operand_kind(
    alloc: Global,
    from: Surroundings<'_>,
    e: &Expression,
) -> Result<IntegerKind, AllocError>
    ensures { IfOk result (λ k. k ≡ kind_of (said (context_of from.entry.known.now from.entry.at) (expression_view e.now)).has) }
{
    let mut first = None;
    let said = expression(alloc, from.known, from.at, &mut first, e)?;
    Ok(kind_of(said.has))
}
