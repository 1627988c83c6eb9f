//! Operations on values.

ghost use Rattle.std.specs.Prelude.{◌<◌, ◌^◌};
ghost use Rattle.f3_code.specs.declared.instruction.Instruction.TheVariants.{Unary, Binary, Convert};
ghost use Rattle.f3_cells.specs.Follows.{Does};

use crate::finish::finish;
use f3_cells::stacks::pop_datum;
use f3_cells::state::{State, Stop};
use f3_program::declarations::Base;
use f3_program::expression::{BinaryOperator, UnaryOperator};
use f3_shaping::operators;

/// An operation on a value, with the type of the result (ISO/IEC 1539-1:2004, 7.1.4, 7.1.5, 13.7.1).
///
/// `Overflow` where the result is a number past the range of its type (own rule).
#[inline(never)]
pub fn unary(state: &mut State, operator: UnaryOperator, of: Base) -> Result<(), Stop>
    requires { state.old.pc < 2 ^ 63 }
    ensures { Does (Unary operator of) result state.old state.new }
{
    let Some(x) = pop_datum(&mut state.stack) else {
        return Err(Stop::Stuck);
    };
    let given = operators::unary(operator, of, &x);
    drop(x);
    finish(state, given)
}

/// An operation on two values, with the type of the result (7.1.4, 7.1.5, 13.7).
///
/// `Overflow` where the result is a number past the range of its type, `DivisionByZero` (own rules).
#[inline(never)]
pub fn binary(state: &mut State, operator: BinaryOperator, of: Base) -> Result<(), Stop>
    requires { state.old.pc < 2 ^ 63 }
    ensures { Does (Binary operator of) result state.old state.new }
{
    let Some(y) = pop_datum(&mut state.stack) else {
        return Err(Stop::Stuck);
    };
    let Some(x) = pop_datum(&mut state.stack) else {
        drop(y);
        return Err(Stop::Stuck);
    };
    finish(state, operators::binary(operator, of, x, y))
}

/// A value as one of a type (7.4.1.3).
///
/// `Overflow` where a number lies past the range (own rule).
#[inline(never)]
pub fn convert(state: &mut State, of: Base) -> Result<(), Stop>
    requires { state.old.pc < 2 ^ 63 }
    ensures { Does (Convert of) result state.old state.new }
{
    let Some(value) = pop_datum(&mut state.stack) else {
        return Err(Stop::Stuck);
    };
    finish(state, operators::converted(of, value))
}
