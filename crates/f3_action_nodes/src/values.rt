//! Values that are not written.

ghost use Rattle.std.specs.Prelude.{◌≡◌, pos, option_map};
ghost use Rattle.f3_elaboration.specs.Expressions as elaborated;
ghost use Rattle.f3_elaboration.specs.Views.{expression_view};

use f3_program::declarations::Constant;
use f3_program::expression::Expression;

/// The literal 1.
pub fn one() -> Expression
    ensures { expression_view result ≡ elaborated.number (pos 1) }
{
    Expression::Literal(Constant::Number(1))
}

/// 1 where none is written.
pub fn or_one(x: Option<Expression>) -> Expression
    ensures { expression_view result ≡ elaborated.or_one (option_map expression_view x) }
{
    match x {
        Some(x) => x,
        None => one(),
    }
}
