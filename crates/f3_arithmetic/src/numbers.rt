//! Operations on whole numbers: each answers one of its type, or the error that ends the run.

ghost use Rattle.std.specs.Prelude.{◌≡◌, pos, negsuc, ◌+ℤ◌, ◌-ℤ◌, ◌*ℤ◌, ◌<ℤ◌, ◌≤ℤ◌, neg_ℤ, nat_abs, unsigned_abs, int_div, int_rem};
ghost use Rattle.f3_places.specs.declared.source.Place.{Place};
ghost use Rattle.f3_meaning_whole.specs.Value.{Number};
ghost use Rattle.f3_meaning_whole.specs.Arithmetic.{fits, converted, divided, floor_rem, raised, power};
ghost use Rattle.f3_arithmetic.specs.Scalars.{base_of, floored, number_ran};

use f3_meaning_whole::run_error::RunError;

/// How wide a whole number is: integers of kind 4 and of kind 8 (ISO/IEC 1539-1:2004, 4.4.1).
#[derive(Clone, Copy, PartialEq, Eq, Debug)]
pub enum Width {
    Four,
    Eight,
}

/// Whether a number lies in the range of a kind.
#[inline(always)]
pub fn fits(width: Width, z: i64) -> bool
    ensures { result ≡ fits (base_of width) z }
{
    match width {
        Width::Four => -0x8000_0000 <= z && z <= 0x7fff_ffff,
        Width::Eight => true,
    }
}

/// A number as one of a kind (7.4.1.3).
///
/// `Overflow` where it lies past the range (own rule).
#[tactic(auto, using(crate::proofs::Limits::in_range, crate::proofs::Limits::out_of_range))]
#[inline(always)]
pub fn number(width: Width, z: i64) -> Result<i64, RunError>
    ensures { (place : Place) → number_ran result place ≡ converted (base_of width) (Number z) place }
{
    if fits(width, z) {
        Ok(z)
    } else {
        Err(RunError::Overflow)
    }
}

/// A sum.
///
/// `Overflow` past the range of the kind (own rule).
#[tactic(auto, using(crate::proofs::Limits::unfit))]
#[inline(always)]
pub fn sum(width: Width, x: i64, y: i64) -> Result<i64, RunError>
    ensures { (place : Place) → number_ran result place ≡ converted (base_of width) (Number (x +ℤ y)) place }
{
    match x.checked_add(y) {
        Some(sum) => number(width, sum),
        None => Err(RunError::Overflow),
    }
}

/// A difference.
///
/// `Overflow` past the range of the kind (own rule).
#[tactic(auto, using(crate::proofs::Limits::unfit))]
#[inline(always)]
pub fn difference(width: Width, x: i64, y: i64) -> Result<i64, RunError>
    ensures { (place : Place) → number_ran result place ≡ converted (base_of width) (Number (x -ℤ y)) place }
{
    match x.checked_sub(y) {
        Some(difference) => number(width, difference),
        None => Err(RunError::Overflow),
    }
}

/// A product.
///
/// `Overflow` past the range of the kind (own rule).
#[tactic(auto, using(crate::proofs::Limits::unfit))]
#[inline(always)]
pub fn product(width: Width, x: i64, y: i64) -> Result<i64, RunError>
    ensures { (place : Place) → number_ran result place ≡ converted (base_of width) (Number (x *ℤ y)) place }
{
    match x.checked_mul(y) {
        Some(product) => number(width, product),
        None => Err(RunError::Overflow),
    }
}

/// A number with the other sign.
///
/// `Overflow` past the range of the kind (own rule).
#[tactic(auto, using(crate::proofs::Limits::unfit))]
#[inline(always)]
pub fn negative(width: Width, x: i64) -> Result<i64, RunError>
    ensures { (place : Place) → number_ran result place ≡ converted (base_of width) (Number (neg_ℤ x)) place }
{
    match x.checked_neg() {
        Some(negative) => number(width, negative),
        None => Err(RunError::Overflow),
    }
}

/// The quotient, rounded toward zero (7.1.7.1).
///
/// `DivisionByZero`; `Overflow` past the range of the kind (own rules).
#[tactic(auto, using(crate::proofs::Limits::unfit, crate::proofs::Limits::by_zero, crate::proofs::Limits::by_some))]
pub fn quotient(width: Width, x: i64, y: i64) -> Result<i64, RunError>
    ensures { (place : Place) → number_ran result place ≡ divided y (base_of width) (int_div x y) place }
{
    if y == 0 {
        return Err(RunError::DivisionByZero);
    }
    match x.checked_div(y) {
        Some(quotient) => number(width, quotient),
        None => Err(RunError::Overflow),
    }
}

/// The remainder of the quotient (13.7.73).
///
/// `DivisionByZero` (own rule).
#[tactic(auto, using(crate::proofs::Limits::by_zero, crate::proofs::Limits::by_some))]
pub fn remainder(width: Width, x: i64, y: i64) -> Result<i64, RunError>
    ensures { (place : Place) → number_ran result place ≡ divided y (base_of width) (int_rem x y) place }
{
    if y == 0 {
        return Err(RunError::DivisionByZero);
    }
    number(width, x.wrapping_rem(y))
}

/// A remainder that is not zero, with the sign of the divisor.
fn floored(width: Width, x: i64, y: i64, remainder: i64) -> Result<i64, RunError>
    requires { remainder ≡ int_rem x y }
    ensures { (place : Place) → number_ran result place ≡ converted (base_of width) (Number (floored x y)) place }
{
    if x < 0 && y < 0 {
        return number(width, remainder);
    }
    if x < 0 || y < 0 {
        return sum(width, remainder, y);
    }
    number(width, remainder)
}

/// The remainder with the sign of the divisor (13.7.74).
///
/// `DivisionByZero` (own rule).
#[tactic(auto, using(crate::proofs::Limits::by_zero, crate::proofs::Limits::by_some, crate::proofs::Limits::floor_zero, crate::proofs::Limits::floor_other))]
pub fn modulo(width: Width, x: i64, y: i64) -> Result<i64, RunError>
    ensures { (place : Place) → number_ran result place ≡ divided y (base_of width) (floor_rem x y) place }
{
    if y == 0 {
        return Err(RunError::DivisionByZero);
    }
    let remainder = x.wrapping_rem(y);
    if remainder == 0 {
        return number(width, 0);
    }
    floored(width, x, y, remainder)
}

/// A number without its sign (13.7.1).
///
/// `Overflow` past the range of the kind (own rule).
#[tactic(auto, using(crate::proofs::Limits::absolute_negative, crate::proofs::Limits::absolute_other))]
pub fn absolute(width: Width, x: i64) -> Result<i64, RunError>
    ensures { (place : Place) → number_ran result place ≡ converted (base_of width) (Number (pos (nat_abs x))) place }
{
    if x < 0 {
        negative(width, x)
    } else {
        number(width, x)
    }
}

/// A power of -1.
#[tactic(auto, using(crate::proofs::Limits::even_power, crate::proofs::Limits::odd_power))]
fn alternating(exponent: i64) -> i64
    ensures { result ≡ raised (negsuc 0) (unsigned_abs exponent) }
{
    if exponent.unsigned_abs() % 2 == 0 {
        1
    } else {
        -1
    }
}

/// A power whose exponent is negative: 1 divided by the power, over whole numbers.
fn inverse_power(width: Width, x: i64, exponent: i64) -> Result<i64, RunError>
    requires { exponent <ℤ pos 0 }
    ensures { (place : Place) → number_ran result place ≡ power x exponent (base_of width) place }
{
    if x == 0 {
        return Err(RunError::DivisionByZero);
    }
    if x == 1 {
        return Ok(1);
    }
    if x == -1 {
        return Ok(alternating(exponent));
    }
    Ok(0)
}

/// A power whose exponent is at least 64: past every range, but for powers of -1, 0 and 1.
#[tactic(auto, using(crate::proofs::Limits::high_zero, crate::proofs::Limits::high_one, crate::proofs::Limits::high_minus, crate::proofs::Limits::high_other))]
fn high_power(width: Width, x: i64, exponent: i64) -> Result<i64, RunError>
    requires { pos 64 ≤ℤ exponent }
    ensures { (place : Place) → number_ran result place ≡ power x exponent (base_of width) place }
{
    if x == 0 {
        return Ok(0);
    }
    if x == 1 {
        return Ok(1);
    }
    if x == -1 {
        return Ok(alternating(exponent));
    }
    Err(RunError::Overflow)
}

/// A power whose exponent is below 64.
#[tactic(auto, using(crate::proofs::Limits::unfit))]
fn low_power(width: Width, x: i64, exponent: u32) -> Result<i64, RunError>
    ensures { (place : Place) → number_ran result place ≡ power x (pos exponent) (base_of width) place }
{
    match x.checked_pow(exponent) {
        Some(power) => number(width, power),
        None => Err(RunError::Overflow),
    }
}

/// A power, in at most 64 steps (7.1.7.1).
///
/// `DivisionByZero` for zero to a negative exponent; `Overflow` past the range of the kind (own rules).
pub fn power(width: Width, x: i64, exponent: i64) -> Result<i64, RunError>
    ensures { (place : Place) → number_ran result place ≡ power x exponent (base_of width) place }
{
    if exponent < 0 {
        return inverse_power(width, x, exponent);
    }
    if exponent < 64 {
        return low_power(width, x, exponent as u32);
    }
    high_power(width, x, exponent)
}
