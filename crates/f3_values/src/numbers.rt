//! Operations on whole numbers, none past the range of their kind.

ghost use Rattle.std.specs.Prelude.{◌≡◌, pos, negsuc, ◌+ℤ◌, ◌-ℤ◌, ◌*ℤ◌, ◌<ℤ◌, ◌≤ℤ◌, neg_ℤ, unsigned_abs};
ghost use Rattle.f3_kinds.specs.Values.{fits_kind, number, quotient, raised, power};

use f3_kinds::types::Scalar;
use f3_tree::expression::IntegerKind;

/// Whether a number lies in the range of a kind.
pub fn fits_kind(kind: IntegerKind, z: i64) -> bool
    ensures { result ≡ fits_kind kind z }
{
    match kind {
        IntegerKind::Four => -0x8000_0000 <= z && z <= 0x7fff_ffff,
        IntegerKind::Eight => true,
    }
}

/// A number as one of a kind; none past its range.
pub fn number(kind: IntegerKind, z: i64) -> Option<Scalar>
    ensures { result ≡ number kind z }
{
    if fits_kind(kind, z) {
        Some(Scalar::Number(kind, z))
    } else {
        None
    }
}

/// A sum; none past the range of the kind.
#[tactic(auto, using(crate::proofs::Ranges::number_unfit))]
pub fn sum(kind: IntegerKind, x: i64, y: i64) -> Option<Scalar>
    ensures { result ≡ number kind (x +ℤ y) }
{
    match x.checked_add(y) {
        Some(sum) => number(kind, sum),
        None => None,
    }
}

/// A difference; none past the range of the kind.
#[tactic(auto, using(crate::proofs::Ranges::number_unfit))]
pub fn difference(kind: IntegerKind, x: i64, y: i64) -> Option<Scalar>
    ensures { result ≡ number kind (x -ℤ y) }
{
    match x.checked_sub(y) {
        Some(difference) => number(kind, difference),
        None => None,
    }
}

/// A product; none past the range of the kind.
#[tactic(auto, using(crate::proofs::Ranges::number_unfit))]
pub fn product(kind: IntegerKind, x: i64, y: i64) -> Option<Scalar>
    ensures { result ≡ number kind (x *ℤ y) }
{
    match x.checked_mul(y) {
        Some(product) => number(kind, product),
        None => None,
    }
}

/// A number with the other sign; none past the range of the kind.
#[tactic(auto, using(crate::proofs::Ranges::number_unfit))]
pub fn negative(kind: IntegerKind, x: i64) -> Option<Scalar>
    ensures { result ≡ number kind (neg_ℤ x) }
{
    match x.checked_neg() {
        Some(negative) => number(kind, negative),
        None => None,
    }
}

/// The quotient, rounded toward zero; none by zero.
#[tactic(auto, using(crate::proofs::Ranges::number_unfit))]
pub fn quotient(kind: IntegerKind, x: i64, y: i64) -> Option<Scalar>
    ensures { result ≡ quotient kind x y }
{
    match x.checked_div(y) {
        Some(quotient) => number(kind, quotient),
        None => None,
    }
}

/// A power of -1.
#[tactic(auto, using(crate::proofs::Ranges::even_power, crate::proofs::Ranges::odd_power))]
fn alternating(exponent: i64) -> i64
    ensures { result ≡ raised (negsuc 0) (unsigned_abs exponent) }
{
    if exponent.unsigned_abs() % 2 == 0 {
        1
    } else {
        -1
    }
}

/// A power whose exponent is negative: 1 divided by the power, over whole numbers.
fn inverse_power(kind: IntegerKind, x: i64, exponent: i64) -> Option<Scalar>
    requires { exponent <ℤ pos 0 }
    ensures { result ≡ power kind x exponent }
{
    if x == 0 {
        return None;
    }
    if x == 1 {
        return Some(Scalar::Number(kind, 1));
    }
    if x == -1 {
        return Some(Scalar::Number(kind, alternating(exponent)));
    }
    Some(Scalar::Number(kind, 0))
}

/// A power whose exponent is at least 64: past every range, but for powers of -1, 0 and 1.
#[tactic(auto, using(crate::proofs::Ranges::high_zero, crate::proofs::Ranges::high_one, crate::proofs::Ranges::high_minus, crate::proofs::Ranges::high_other))]
fn high_power(kind: IntegerKind, x: i64, exponent: i64) -> Option<Scalar>
    requires { pos 64 ≤ℤ exponent }
    ensures { result ≡ power kind x exponent }
{
    if x == 0 {
        return Some(Scalar::Number(kind, 0));
    }
    if x == 1 {
        return Some(Scalar::Number(kind, 1));
    }
    if x == -1 {
        return Some(Scalar::Number(kind, alternating(exponent)));
    }
    None
}

/// A power whose exponent is below 64.
#[tactic(auto, using(crate::proofs::Ranges::number_unfit))]
fn low_power(kind: IntegerKind, x: i64, exponent: u32) -> Option<Scalar>
    ensures { result ≡ power kind x (pos exponent) }
{
    match x.checked_pow(exponent) {
        Some(power) => number(kind, power),
        None => None,
    }
}

/// A power, in at most 64 steps (7.1.7).
pub fn power(kind: IntegerKind, x: i64, exponent: i64) -> Option<Scalar>
    ensures { result ≡ power kind x exponent }
{
    if exponent < 0 {
        return inverse_power(kind, x, exponent);
    }
    if exponent < 64 {
        return low_power(kind, x, exponent as u32);
    }
    high_power(kind, x, exponent)
}
