//! Names of dummies.

ghost use Rattle.std.specs.Prelude.{◌≡◌, ◌+◌, ◌<◌, ◌≤◌, ◌^◌, ◌++◌, ℕ, List, length, MatchOption, None, Some};
ghost use Rattle.f3_word_cells.specs.declared.state.Name as n;
ghost use Rattle.f3_word_entries.specs.Names.{AreNamed, IsNamed, IsNameOf, held_object, number_of, numbered};

use f3_program::declarations::Constant;
use f3_program::program::Dummy;
use f3_word_areas::copies::{copied, copied_object};
use f3_word_calls::bounds::bind;
use f3_word_cells::cell::{Area, Cell, Datum, Object, Passed};
use f3_word_cells::stack::Stack;
use f3_word_cells::state::Name;

/// The number of an argument.
fn number_of(argument: &Passed) -> usize
    ensures { result ≡ number_of argument.now }
{
    match argument {
        Passed::Given(number, _) => *number,
        Passed::Lent(number, _) => *number,
    }
}

/// The first argument of a number.
fn argument_of(arguments: &[Cell], number: usize) -> Option<&Passed>
    ensures { MatchOption result (numbered number arguments.now ≡ None) (λ r. numbered number arguments.now ≡ Some r.now) }
{
    let Some((cell, others)) = arguments.split_first() else {
        return None;
    };
    if let Cell::Argument(argument) = cell {
        if number_of(argument) == number {
            return Some(argument);
        }
    }
    argument_of(others, number)
}

/// The object of a value that is held for a dummy.
fn held_object(datum: &Datum, dummy: &Dummy) -> Object
    ensures { result ≡ held_object dummy.now.kind.of datum.now }
{
    let of = dummy.kind.of;
    match datum {
        Datum::Scalar(value) => Object::Held(of, *value),
        Datum::Block(area) => Object::Stands(Area {
            elements: copied(area).elements,
            of,
        }),
    }
}

/// The name of a dummy for an argument (ISO/IEC 1539-1:2004, 12.4.1.2).
fn name_for(argument: &Passed, dummy: &Dummy) -> Name
    ensures { IsNameOf dummy.now argument.now result }
{
    let (mut object, is_held) = match argument {
        Passed::Given(_, datum) => (held_object(datum, dummy), true),
        Passed::Lent(_, object) => (copied_object(object), false),
    };
    bind(&mut object, dummy);
    Name { object, is_held }
}

/// The name of the dummy of a number.
fn name_of(arguments: &[Cell], number: usize, dummy: &Dummy) -> Name
    ensures { IsNamed dummy.now (numbered number arguments.now) result }
{
    match argument_of(arguments, number) {
        Some(argument) => name_for(argument, dummy),
        None => Name {
            object: Object::Held(dummy.kind.of, Constant::Number(0)),
            is_held: false,
        },
    }
}

/// The names of dummies, of which the first has this number, become the last ones, in their order.
pub(crate) fn name_all(
    names: &mut Stack<Name>,
    arguments: &[Cell],
    number: usize,
    dummies: &[Dummy],
)
    requires room { length names.old.items.items + length dummies.now ≤ names.old.room }
    requires small { number + length dummies.now < 2 ^ 64 }
    ensures names { (added : List n.Name) × (names.new.items.items ≡ names.old.items.items ++ added) × AreNamed arguments.now number dummies.now added }
    ensures room { names.new.room ≡ names.old.room }
{
    let Some((dummy, others)) = dummies.split_first() else {
        return;
    };
    names.push(name_of(arguments, number, dummy));
    name_all(names, arguments, number + 1, others);
}
