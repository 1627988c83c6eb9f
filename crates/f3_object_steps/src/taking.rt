//! What stands on top of a stack, by what goes on with it.

ghost use Rattle.std.specs.Prelude.{MatchOption};
ghost use Rattle.f3_code.specs.Machine.{on_datum, on_object};
ghost use Rattle.f3_data.specs.Values.{value_of};
ghost use Rattle.f3_data.specs.References.{reference_of};
ghost use Rattle.f3_object_steps.specs.Taken.{Popped, Shows, ShowsNone};

use f3_cells::cell::Cell;
use f3_cells::{look, stacks};
use f3_data::reference::Reference;
use f3_data::value::Value;

/// The value on top, which is taken.
pub fn pop_datum(stack: &mut Vec<Cell>) -> Option<Value>
    ensures { Popped value_of on_datum result stack.old.items stack.new.items }
{
    stacks::pop_datum(stack)
}

/// The object on top, which is taken.
pub fn pop_object(stack: &mut Vec<Cell>) -> Option<Reference>
    ensures { Popped reference_of on_object result stack.old.items stack.new.items }
{
    stacks::pop_object(stack)
}

/// The value below so many cells.
pub fn datum_at(stack: &Vec<Cell>, depth: usize) -> Option<&Value>
    ensures { MatchOption result (ShowsNone on_datum stack.now.items depth) (λ x. Shows on_datum stack.now.items depth (value_of x.now)) }
{
    look::datum_at(stack, depth)
}

/// The object below so many cells.
pub fn object_at(stack: &Vec<Cell>, depth: usize) -> Option<&Reference>
    ensures { MatchOption result (ShowsNone on_object stack.now.items depth) (λ x. Shows on_object stack.now.items depth (reference_of x.now)) }
{
    look::object_at(stack, depth)
}
