//! What a name and what stands behind it mean.

ghost use Rattle.std.specs.Prelude.{◌≡◌, Some, map, IfOk};
ghost use Rattle.f3_elaboration.specs.Expressions.{designated, given_in, intrinsic_value, given_value, meant};
ghost use Rattle.f3_elaboration.specs.Context.{base};
ghost use Rattle.f3_elaboration.specs.Views.{expression_view};
ghost use Rattle.f3_expression_parts.specs.Parts.{part_of};
ghost use Rattle.f3_kinds.specs.Things.{entity, intrinsic, map_or, meaning_of, nothing};
ghost use Rattle.f3_numbers.specs.Surroundings.{surroundings_of};
ghost use Rattle.f3_typed_parts.specs.Known.{context_of, nature_of};

use crate::intrinsics::intrinsic_value;
use crate::lists::split;
use crate::values::{constant, given_in, given_values, no_value};
use crate::variables::variable_of;
use f3_access::lookup;
use f3_expression_parts::arguments::{arguments_for, components_for};
use f3_expression_parts::given::Part;
use f3_kinds::things::{Intrinsic, Thing};
use f3_kinds::types::DataType;
use f3_lookups::lookup::Lookup;
use f3_numbers::surroundings::Surroundings;
use f3_program::expression::Expression;
use f3_typed_parts::known::{Known, Position};
use std::alloc::{AllocError, Global};

/// What an entity's name and what stands behind it mean.
fn entity(
    alloc: Global,
    from: Surroundings<'_>,
    of: Option<DataType>,
    part: Part,
    others: Vec<Part>,
    number: usize,
    thing: &Thing,
) -> Result<Expression, AllocError>
    ensures { IfOk result (λ x. expression_view x ≡ meant (surroundings_of from.entry) of (part_of part) (map part_of others.items) (entity number (nature_of thing.now))) }
{
    match thing {
        Thing::Variable(object) => {
            let found = variable_of(alloc, from, number, *object, part, others)?;
            Ok(Expression::Variable(Box::new(alloc, found)?))
        }
        Thing::Constant(_) => Ok(Expression::Literal(constant(from.known, from.at, number))),
        Thing::Function(signature, _) => {
            let list = arguments_for(alloc, &signature.dummies, given_in(alloc, part))?;
            Ok(Expression::Call(from.numbers.procedure(number), list))
        }
        Thing::Type(table) => {
            let list = components_for(alloc, &table.components, given_in(alloc, part))?;
            Ok(Expression::Structure(from.numbers.derived(number), list))
        }
        Thing::Subroutine(_) => Ok(no_value()),
    }
}

/// The intrinsic procedure that a name means where no entity has it.
fn intrinsic_of(known: &Known<'_>, at: Position, symbol: usize) -> Option<Intrinsic>
    ensures { result ≡ (context_of known.now at).intrinsic symbol }
{
    match known.intrinsics.get(symbol) {
        Some(intrinsic) => *intrinsic,
        None => None,
    }
}

fn called(
    alloc: Global,
    from: Surroundings<'_>,
    of: Option<DataType>,
    part: Part,
    intrinsic: Intrinsic,
) -> Result<Expression, AllocError>
    ensures { IfOk result (λ x. expression_view x ≡ intrinsic_value (base (surroundings_of from.entry) of) intrinsic (map given_value (given_in (part_of part)))) }
{
    let list = given_values(alloc, given_in(alloc, part))?;
    intrinsic_value(alloc, from.numbers.base(of), intrinsic, list)
}

/// What a name that no entity has and what stands behind it mean.
fn unlisted(
    alloc: Global,
    from: Surroundings<'_>,
    of: Option<DataType>,
    part: Part,
    others: Vec<Part>,
) -> Result<Expression, AllocError>
    ensures { IfOk result (λ x. expression_view x ≡ meant (surroundings_of from.entry) of (part_of part) (map part_of others.items) (map_or nothing intrinsic ((context_of from.entry.known.now from.entry.at).intrinsic part.name.symbol))) }
{
    match intrinsic_of(from.known, from.at, part.name.symbol) {
        Some(intrinsic) => called(alloc, from, of, part, intrinsic),
        None => Ok(no_value()),
    }
}

fn meant(
    alloc: Global,
    from: Surroundings<'_>,
    of: Option<DataType>,
    part: Part,
    others: Vec<Part>,
) -> Result<Expression, AllocError>
    ensures { IfOk result (λ x. expression_view x ≡ meant (surroundings_of from.entry) of (part_of part) (map part_of others.items) (meaning_of (context_of from.entry.known.now from.entry.at) part.name.symbol)) }
{
    match lookup(from.known.tables, from.at.scope, part.name.symbol) {
        Lookup::One(number) => match from.known.things.get(number) {
            Some(thing) => entity(alloc, from, of, part, others, number, thing),
            None => Ok(no_value()),
        },
        Lookup::Several => Ok(no_value()),
        Lookup::Nothing => unlisted(alloc, from, of, part, others),
    }
}

/// What a designator means: a variable or a part of one, a named constant, a reference to a function, a structure
/// constructor, or a reference to an intrinsic function whose result has this type (ISO/IEC 1539-1:2004, 6.1, 7.1.1.1).
///
/// # Errors
///
/// Where memory runs out.
pub fn designated(
    alloc: Global,
    from: Surroundings<'_>,
    of: Option<DataType>,
    parts: Vec<Part>,
) -> Result<Expression, AllocError>
    ensures { IfOk result (λ x. expression_view x ≡ designated (surroundings_of from.entry) of (map part_of parts.items)) }
{
    match split(parts) {
        Some((part, others)) => meant(alloc, from, of, part, others),
        None => Ok(no_value()),
    }
}
