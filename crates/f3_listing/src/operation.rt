//! The names of instructions, and their operands.

ghost use Rattle.std.specs.Prelude.{◌≡◌, [], ◌∷◌};
ghost use Rattle.f3_listing.specs.Listing.{counts, typed, constant, unary_word, binary_word};
ghost use Rattle.f3_listing.specs.Inner.Shown.{operation_of};

use f3_program::declarations::{Base, Constant};
use f3_program::expression::{BinaryOperator, UnaryOperator};

/// The operands that stand behind a name.
#[derive(Clone, Copy)]
pub enum Operands {
    None,
    Count(usize),
    Counts(usize, usize),
    Integer(i64),
    Integers(i64, i64),
}

/// What is shown of an instruction: a name in two parts, and operands.
#[derive(Clone, Copy)]
pub struct Shown {
    pub name: &'static str,
    pub ending: &'static str,
    pub operands: Operands,
}

/// A name alone.
pub fn alone(name: &'static str) -> Shown
    ensures { operation_of result ≡ counts name.now [] }
{
    Shown {
        name,
        ending: "",
        operands: Operands::None,
    }
}

/// A name and a count.
pub fn one(name: &'static str, count: usize) -> Shown
    ensures { operation_of result ≡ counts name.now (count ∷ []) }
{
    Shown {
        name,
        ending: "",
        operands: Operands::Count(count),
    }
}

/// A name and two counts.
pub fn two(name: &'static str, first: usize, second: usize) -> Shown
    ensures { operation_of result ≡ counts name.now (first ∷ second ∷ []) }
{
    Shown {
        name,
        ending: "",
        operands: Operands::Counts(first, second),
    }
}

/// A name that ends with a type.
pub fn typed(name: &'static str, base: Base) -> Shown
    ensures { operation_of result ≡ typed name.now base }
{
    let (ending, operands) = match base {
        Base::Integer => ("_integer", Operands::None),
        Base::Long => ("_long", Operands::None),
        Base::Logical => ("_logical", Operands::None),
        Base::Derived(number) => ("_derived", Operands::Count(number)),
    };
    Shown {
        name,
        ending,
        operands,
    }
}

/// A name and a constant.
pub fn constant(name: &'static str, value: Constant) -> Shown
    ensures { operation_of result ≡ constant name.now value }
{
    let (ending, operands) = match value {
        Constant::Number(number) => ("", Operands::Integer(number)),
        Constant::Truth(true) => ("_true", Operands::None),
        Constant::Truth(false) => ("_false", Operands::None),
    };
    Shown {
        name,
        ending,
        operands,
    }
}

/// The word of an operator on one value.
pub fn unary_word(operator: UnaryOperator) -> &'static str
    ensures { result.now ≡ unary_word operator }
{
    match operator {
        UnaryOperator::Negate => "negate",
        UnaryOperator::Absolute => "absolute",
        UnaryOperator::Not => "not",
    }
}

/// The word of an operator on two values.
pub fn binary_word(operator: BinaryOperator) -> &'static str
    ensures { result.now ≡ binary_word operator }
{
    match operator {
        BinaryOperator::Add => "add",
        BinaryOperator::Subtract => "subtract",
        BinaryOperator::Multiply => "multiply",
        BinaryOperator::Divide => "divide",
        BinaryOperator::Power => "power",
        BinaryOperator::Mod => "mod",
        BinaryOperator::Modulo => "modulo",
        BinaryOperator::Max => "max",
        BinaryOperator::Min => "min",
        BinaryOperator::Equal => "equal",
        BinaryOperator::NotEqual => "not_equal",
        BinaryOperator::Less => "less",
        BinaryOperator::LessOrEqual => "less_or_equal",
        BinaryOperator::Greater => "greater",
        BinaryOperator::GreaterOrEqual => "greater_or_equal",
        BinaryOperator::And => "and",
        BinaryOperator::Or => "or",
        BinaryOperator::Equivalent => "equivalent",
        BinaryOperator::NotEquivalent => "not_equivalent",
    }
}
