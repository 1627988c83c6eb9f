//! The levels of expressions, from primaries on (7.1.1, 7.1.3).

ghost use Rattle.std.specs.Prelude.{◌≡◌};
ghost use Rattle.f3_expressions.specs.Levels.{level_of, unsigned};
ghost use Rattle.f3_expressions.specs.Readings.{HasOperator, HasRelation, HasSign};

use f3_tree::expression::{Operator, Relation, Sign};
use f3_words::item::{Item, Word};
use f3_words::reading::front;

/// A primary.
pub const PRIMARY: usize = 0;
/// A term.
pub const TERM: usize = 2;
/// A term, or a sign and a term.
pub const SIGNED_TERM: usize = 3;
/// A sum.
pub const SUM: usize = 4;
/// A sum, or a comparison of two.
pub const COMPARED: usize = 5;
/// A comparison, or `.NOT.` and a comparison.
pub const NEGATED: usize = 6;
/// Any expression.
pub const WHOLE: usize = 9;

/// The level of the first operand of an operator.
pub fn operator_level(operator: Operator) -> usize
    ensures { result ≡ level_of operator }
{
    match operator {
        Operator::Power => PRIMARY,
        Operator::Multiply | Operator::Divide => 1,
        Operator::Add | Operator::Subtract => SIGNED_TERM,
        Operator::And => NEGATED,
        Operator::Or => 7,
        Operator::Equivalent | Operator::NotEquivalent => 8,
    }
}

/// The level of the operands behind the first: no sign stands behind an operator of sums.
pub fn unsigned_level(level: usize) -> usize
    ensures { result ≡ unsigned level }
{
    if level == SIGNED_TERM { TERM } else { level }
}

/// The operator of a level at the front, and what stands behind it.
pub fn operator_front(level: usize, items: &[Item]) -> Option<(Operator, &[Item])>
    ensures { HasOperator level result items.now }
{
    match front(items) {
        Some((item, tail)) => match item.word {
            Word::Operator(operator) => {
                if operator_level(operator) == level {
                    Some((operator, tail))
                } else {
                    None
                }
            }
            _ => None,
        },
        None => None,
    }
}

/// The relational operator at the front, and what stands behind it.
pub fn relation_front(items: &[Item]) -> Option<(Relation, &[Item])>
    ensures { HasRelation result items.now }
{
    match front(items) {
        Some((item, tail)) => match item.word {
            Word::Relation(relation) => Some((relation, tail)),
            _ => None,
        },
        None => None,
    }
}

/// The sign at the front, its token, and what stands behind it.
pub fn sign_front(items: &[Item]) -> Option<(Item, Sign, &[Item])>
    ensures { HasSign result items.now }
{
    match front(items) {
        Some((item, tail)) => match item.word {
            Word::Operator(Operator::Add) => Some((item, Sign::Plus, tail)),
            Word::Operator(Operator::Subtract) => Some((item, Sign::Minus, tail)),
            _ => None,
        },
        None => None,
    }
}
