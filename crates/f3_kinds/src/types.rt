//! Types (ISO/IEC 1539-1:2004, clause 4).

use f3_tree::expression::IntegerKind;

/// The type of an expression.
#[derive(Clone, Copy)]
pub enum DataType {
    Integer(IntegerKind),
    Logical,
    /// A derived type: the entity that it is.
    Derived(usize),
}

/// What an object of a program is declared as: a variable, a named constant, a component or a result.
#[derive(Clone, Copy)]
pub struct Object {
    /// None where TYPE(n) names no type.
    pub data_type: Option<DataType>,
    pub rank: usize,
    pub is_allocatable: bool,
}

/// The value of a constant.
#[derive(Clone, Copy)]
pub enum Scalar {
    /// A whole number in the range of its kind.
    Number(IntegerKind, i64),
    Truth(bool),
}

/// What an operand, a subscript or a condition has to be: a scalar of a type.
#[derive(Clone, Copy)]
pub enum Wanted {
    Integer,
    Logical,
    /// One or the other.
    Intrinsic,
}
