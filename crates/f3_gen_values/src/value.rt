//! The code of expressions, designators and arguments: what stands behind is emitted first.

ghost use Rattle.std.specs.Prelude.{◌∷◌, [], ◌++◌, OnOk};
ghost use Rattle.std.specs.List.{flat_map};
ghost use Rattle.f3_code.specs.State.{line};
ghost use Rattle.f3_code.specs.Code.{value_code, bounds_code, argument_code, locate_code, select_code, select_of_code, subscript_code};
ghost use Rattle.f3_gen_values.specs.Emitted.{Emitted, IsOperand, limit_code};

use crate::line::{Line, put};
use f3_code::instruction::Instruction;
use f3_places::source::Place;
use f3_program::expression::{Argument, Designator, Expression, Selection, Subscript};
use std::alloc::AllocError;

/// The value of an expression (ISO/IEC 1539-1:2004, 7.1). The operands of operators are taken one by one, the last first,
/// and those before it wait: so a long chain of operators takes no more of the stack than a short one.
#[cycle(value)]
pub fn emit_value(
    code: &mut Vec<Line>,
    place: Option<Place>,
    expression: &Expression,
) -> Result<(), AllocError>
    ensures { OnOk result (Emitted code.old.items code.new.items (value_code place expression.now)) }
{
    let mut waiting: Vec<&Expression> = Vec::new(*code.allocator());
    let mut current = expression;
    loop {
        match current {
            Expression::Binary(operator, of, x, y) => {
                put(code, place, Instruction::Binary(*operator, *of))?;
                waiting.push(x)?;
                current = y;
            }
            _ => {
                emit_operand(code, place, current)?;
                match waiting.pop() {
                    Some(x) => current = x,
                    None => return Ok(()),
                }
            }
        }
    }
}

/// The value of an expression whose operator, if it has one, has one operand (7.1.1).
#[cycle(value)]
fn emit_operand(
    code: &mut Vec<Line>,
    place: Option<Place>,
    operand: &Expression,
) -> Result<(), AllocError>
    requires { IsOperand operand.now }
    ensures { OnOk result (Emitted code.old.items code.new.items (value_code place operand.now)) }
{
    match operand {
        Expression::Literal(constant) => put(code, place, Instruction::Push(*constant)),
        Expression::Variable(x) => emit_object_then(code, place, x, Instruction::Load),
        Expression::Group(x) => emit_value_then(code, place, x, Instruction::Plain),
        Expression::Unary(operator, of, x) => {
            emit_value_then(code, place, x, Instruction::Unary(*operator, *of))
        }
        Expression::Binary(_, _, _, _) => unreachable!(),
        Expression::Array(values) => {
            put(code, place, Instruction::Array(values.len()))?;
            emit_arguments(code, place, values)
        }
        Expression::Structure(of, values) => {
            put(code, place, Instruction::Structure(*of, values.len()))?;
            emit_arguments(code, place, values)
        }
        Expression::Call(procedure, arguments) => {
            put(code, place, Instruction::Result)?;
            put(code, place, Instruction::Call(*procedure, arguments.len()))?;
            emit_arguments(code, place, arguments)
        }
        Expression::Allocated(x) => emit_object_then(code, place, x, Instruction::IsAllocated),
        Expression::Size(array) => {
            put(code, place, Instruction::Size)?;
            emit_bounds(code, place, array)
        }
        Expression::Bound(query, array, dimension) => {
            emit_value_then(code, place, dimension, Instruction::Bound(*query))?;
            emit_bounds(code, place, array)
        }
    }
}

/// The value of an expression, and what is done with it.
#[cycle(value)]
pub fn emit_value_then(
    code: &mut Vec<Line>,
    place: Option<Place>,
    expression: &Expression,
    act: Instruction,
) -> Result<(), AllocError>
    ensures { OnOk result (Emitted code.old.items code.new.items (value_code place expression.now ++ line place act ∷ [])) }
{
    put(code, place, act)?;
    emit_value(code, place, expression)
}

/// The object that a designator means, and what is done with it.
#[cycle(value)]
pub fn emit_object_then(
    code: &mut Vec<Line>,
    place: Option<Place>,
    designator: &Designator,
    act: Instruction,
) -> Result<(), AllocError>
    ensures { OnOk result (Emitted code.old.items code.new.items (locate_code place designator.now ++ line place act ∷ [])) }
{
    put(code, place, act)?;
    emit_object(code, place, designator)
}

/// The bounds of an array (13.7.60, 13.7.112, 13.7.121).
#[cycle(value)]
fn emit_bounds(
    code: &mut Vec<Line>,
    place: Option<Place>,
    array: &Argument,
) -> Result<(), AllocError>
    ensures { OnOk result (Emitted code.old.items code.new.items (bounds_code place array.now)) }
{
    match array {
        Argument::Value(_, x) => emit_value_then(code, place, x, Instruction::BoundsOfValue),
        Argument::Variable(_, x) => emit_object_then(code, place, x, Instruction::BoundsOfVariable),
    }
}

/// An argument with its number (12.4.1).
#[cycle(value)]
fn emit_argument(
    code: &mut Vec<Line>,
    place: Option<Place>,
    argument: &Argument,
) -> Result<(), AllocError>
    ensures { OnOk result (Emitted code.old.items code.new.items (argument_code place argument.now)) }
{
    match argument {
        Argument::Value(k, x) => emit_value_then(code, place, x, Instruction::PassValue(*k)),
        Argument::Variable(k, x) => emit_object_then(code, place, x, Instruction::PassVariable(*k)),
    }
}

/// Arguments in their order.
#[cycle(value)]
fn emit_arguments(
    code: &mut Vec<Line>,
    place: Option<Place>,
    arguments: &[Argument],
) -> Result<(), AllocError>
    ensures { OnOk result (Emitted code.old.items code.new.items (flat_map (argument_code place) arguments.now)) }
{
    let mut i = arguments.len();
    while i > 0 {
        i -= 1;
        emit_argument(code, place, &arguments[i])?;
    }
    Ok(())
}

/// The object that a designator means (6.1).
#[cycle(value)]
pub fn emit_object(
    code: &mut Vec<Line>,
    place: Option<Place>,
    designator: &Designator,
) -> Result<(), AllocError>
    ensures { OnOk result (Emitted code.old.items code.new.items (locate_code place designator.now)) }
{
    match designator {
        Designator::Name(name, selection) => {
            emit_selection(code, place, selection)?;
            put(code, place, Instruction::Refer(*name))
        }
        Designator::Component(object, component, selection) => {
            emit_selection_of(code, place, *component, selection)?;
            emit_object(code, place, object)
        }
    }
}

/// What of an object is meant (6.2).
#[cycle(value)]
fn emit_selection(
    code: &mut Vec<Line>,
    place: Option<Place>,
    selection: &Selection,
) -> Result<(), AllocError>
    ensures { OnOk result (Emitted code.old.items code.new.items (select_code place selection.now)) }
{
    match selection {
        Selection::Whole => Ok(()),
        Selection::Contents => put(code, place, Instruction::Contents),
        Selection::Elements(is_opened, subscripts) => {
            put(
                code,
                place,
                Instruction::Select(*is_opened, subscripts.len()),
            )?;
            emit_subscripts(code, place, subscripts)
        }
    }
}

/// What of a component is meant (6.1.2, 6.2).
#[cycle(value)]
fn emit_selection_of(
    code: &mut Vec<Line>,
    place: Option<Place>,
    component: usize,
    selection: &Selection,
) -> Result<(), AllocError>
    ensures { OnOk result (Emitted code.old.items code.new.items (select_of_code place component selection.now)) }
{
    match selection {
        Selection::Whole => put(code, place, Instruction::Component(component)),
        Selection::Contents => {
            put(code, place, Instruction::Contents)?;
            put(code, place, Instruction::Component(component))
        }
        Selection::Elements(is_opened, subscripts) => {
            put(
                code,
                place,
                Instruction::SelectOf(*is_opened, component, subscripts.len()),
            )?;
            emit_subscripts(code, place, subscripts)?;
            put(code, place, Instruction::ComponentOf(component))
        }
    }
}

/// Subscripts and triplets in their order (6.2.2).
#[cycle(value)]
fn emit_subscripts(
    code: &mut Vec<Line>,
    place: Option<Place>,
    subscripts: &[Subscript],
) -> Result<(), AllocError>
    ensures { OnOk result (Emitted code.old.items code.new.items (flat_map (subscript_code place) subscripts.now)) }
{
    let mut i = subscripts.len();
    while i > 0 {
        i -= 1;
        emit_subscript(code, place, &subscripts[i])?;
    }
    Ok(())
}

/// A subscript or a triplet (6.2.2.1, 6.2.2.3.1).
#[cycle(value)]
fn emit_subscript(
    code: &mut Vec<Line>,
    place: Option<Place>,
    subscript: &Subscript,
) -> Result<(), AllocError>
    ensures { OnOk result (Emitted code.old.items code.new.items (subscript_code place subscript.now)) }
{
    match subscript {
        Subscript::At(x) => emit_value_then(code, place, x, Instruction::Subscript),
        Subscript::Range(has_lower, lower, has_upper, upper, step) => {
            emit_value_then(code, place, step, Instruction::Triplet)?;
            emit_limit(code, place, *has_upper, upper)?;
            emit_limit(code, place, *has_lower, lower)
        }
    }
}

/// A bound of a triplet, if there is one (6.2.2.3.1).
#[cycle(value)]
fn emit_limit(
    code: &mut Vec<Line>,
    place: Option<Place>,
    is_there: bool,
    bound: &Expression,
) -> Result<(), AllocError>
    ensures { OnOk result (Emitted code.old.items code.new.items (limit_code place is_there bound.now)) }
{
    if is_there {
        emit_value_then(code, place, bound, Instruction::Limit)
    } else {
        put(code, place, Instruction::NoLimit)
    }
}
