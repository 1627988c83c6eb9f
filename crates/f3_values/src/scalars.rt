//! Values of constants.

ghost use Rattle.std.specs.Prelude.{◌≡◌};
ghost use Rattle.f3_kinds.specs.Values.{same_truth, converted, has_value, is_number};

use crate::numbers::number;
use f3_kinds::types::{DataType, Scalar};

/// Whether two truth values are the same.
pub fn same_truth(a: bool, b: bool) -> bool
    ensures { result ≡ same_truth a b }
{
    a == b
}

/// A value as one of a type: integers are converted (7.4.1.3); none past the range of the kind, or of another type.
pub fn converted(data_type: DataType, value: Option<Scalar>) -> Option<Scalar>
    ensures { result ≡ converted data_type value }
{
    match (data_type, value) {
        (DataType::Integer(kind), Some(Scalar::Number(_, z))) => number(kind, z),
        (DataType::Logical, Some(Scalar::Truth(truth))) => Some(Scalar::Truth(truth)),
        (_, _) => None,
    }
}

/// Whether there is a value.
pub fn has_value(value: Option<Scalar>) -> bool
    ensures { result ≡ has_value value }
{
    value.is_some()
}

/// Whether a value is a number.
pub fn is_number(value: Option<Scalar>) -> bool
    ensures { result ≡ is_number value }
{
    match value {
        Some(Scalar::Number(_, _)) => true,
        Some(Scalar::Truth(_)) => false,
        None => false,
    }
}
