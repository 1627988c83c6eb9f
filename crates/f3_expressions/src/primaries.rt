//! Primaries: literals, designators, expressions in parentheses, array constructors (7.1.1.1).

ghost use Rattle.std.specs.Prelude.{◌≡◌, ◌≤◌, ◌<◌, ◌∷◌, true, IfOk, length};
ghost use Rattle.f3_tree.specs.Expressions.{integer, expression_view};
ghost use Rattle.f3_words.specs.declared.item.Word.TheVariants.{Open};
ghost use Rattle.f3_words.specs.Lists.{is_comma, EatsRun, Separated};
ghost use Rattle.f3_words.specs.Reads.{Reads, AreBehind};
ghost use Rattle.f3_expressions.specs.Readings.{EatsUpTo, EatsWhole, is_opener};
ghost use Rattle.f3_expressions.specs.Views.{elements_view};

use crate::designators::parts;
use crate::expressions::operation;
use crate::levels::WHOLE;
use crate::marks::{behind, behind_closer};
use f3_tree::expression::Expression;
use f3_words::error::ReadError;
use f3_words::item::{Item, Word};
use f3_words::reading::front;
use std::alloc::Global;

/// A primary (7.1.1.1).
#[cycle(operation)]
pub fn primary(alloc: Global, items: &[Item]) -> Result<(Expression, &[Item]), ReadError>
    ensures read { Reads (EatsUpTo 0) expression_view result items.now }
    ensures shorter { IfOk result (λ x. length x.1.now < length items.now) }
{
    match front(items) {
        None => Err(ReadError::NoForm),
        Some((item, tail)) => match item.word {
            Word::KindDigit(_) => Ok((integer(item), tail)),
            Word::ShortInteger | Word::LongInteger => Ok((integer(item), tail)),
            Word::Truth(truth) => Ok((Expression::Truth(item.place, truth), tail)),
            Word::Text => Ok((Expression::Text(item.place, item.symbol), tail)),
            Word::Name(_) => {
                let (parts, rest) = parts(alloc, items)?;
                Ok((Expression::Designator(parts), rest))
            }
            Word::Open => group(alloc, item, tail),
            Word::OpenBracket => array(alloc, item, tail),
            Word::OpenSlash => array(alloc, item, tail),
            _ => Err(ReadError::NoForm),
        },
    }
}

/// The literal that an integer is.
fn integer(item: Item) -> Expression
    ensures { expression_view result ≡ integer item.place item.value }
{
    Expression::Integer(item.place, item.value)
}

/// What an open parenthesis begins, from behind it.
#[cycle(operation)]
fn group(alloc: Global, first: Item, items: &[Item]) -> Result<(Expression, &[Item]), ReadError>
    requires { first.word ≡ Open }
    ensures read { Reads (EatsUpTo 0) expression_view result (first ∷ items.now) }
    ensures shorter { IfOk result (λ x. length x.1.now < length items.now) }
{
    let (inner, rest) = operation(alloc, WHOLE, items)?;
    match behind(Word::Close, rest) {
        Some(tail) => Ok((
            Expression::Group(first.place, Box::new(alloc, inner)?),
            tail,
        )),
        None => Err(ReadError::NoForm),
    }
}

/// What a sign begins that opens an array constructor, from behind it.
#[cycle(operation)]
fn array(alloc: Global, first: Item, items: &[Item]) -> Result<(Expression, &[Item]), ReadError>
    requires { is_opener first.word ≡ true }
    ensures read { Reads (EatsUpTo 0) expression_view result (first ∷ items.now) }
    ensures shorter { IfOk result (λ x. length x.1.now < length items.now) }
{
    let (element, rest) = operation(alloc, WHOLE, items)?;
    let (elements, rest) = elements(alloc, element, rest)?;
    match behind_closer(first.word, rest) {
        Some(tail) => Ok((Expression::Array(first.place, elements), tail)),
        None => Err(ReadError::NoForm),
    }
}

/// The first element of an array constructor, and those at the front, each behind a comma.
#[cycle(operation)]
fn elements(
    alloc: Global,
    first: Expression,
    items: &[Item],
) -> Result<(Vec<Expression>, &[Item]), ReadError>
    ensures read { Reads (AreBehind (expression_view first) (EatsRun is_comma (Separated EatsWhole))) elements_view result items.now }
    ensures shorter { IfOk result (λ x. length x.1.now ≤ length items.now) }
{
    let mut found = Vec::new(alloc);
    found.push(first)?;
    let mut rest = items;
    while let Some(tail) = behind(Word::Comma, rest) {
        let (element, after) = operation(alloc, WHOLE, tail)?;
        found.push(element)?;
        rest = after;
    }
    found.shrink_to_fit();
    Ok((found, rest))
}
