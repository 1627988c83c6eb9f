//! Associate names for their selectors.

ghost use Rattle.std.specs.Prelude.{◌≡◌, ◌+◌, ◌≤◌, ◌++◌, List, length};
ghost use Rattle.f3_word_cells.specs.declared.state.Name as n;
ghost use Rattle.f3_word_associates.specs.Names.{AreNamed, IsHolding, IsNameOf, IsNamed};

use f3_program::declarations::{Base, Constant};
use f3_word_areas::copies::{copied, copied_object};
use f3_word_calls::bounds::associate;
use f3_word_cells::cell::{Area, Association, Cell, Datum, Object};
use f3_word_cells::stack::Stack;
use f3_word_cells::state::Name;

/// The object of a value of a type that is held.
fn held_object(of: Base, datum: &Datum) -> Object
    ensures { IsHolding of datum.now result }
{
    match datum {
        Datum::Scalar(value) => Object::Held(of, *value),
        Datum::Block(area) => {
            let _few = area.elements.dims.as_slice();
            let elements = copied(area).elements;
            Object::Stands(Area { elements, of })
        }
    }
}

/// The associate name for a selector (ISO/IEC 1539-1:2004, 8.1.4.3).
fn name_for(selector: &Association) -> Name
    ensures { IsNameOf selector.now result }
{
    match selector {
        Association::Holds(of, datum) => Name {
            object: held_object(*of, datum),
            is_held: true,
        },
        Association::Means(selected) => {
            let mut object = copied_object(selected);
            associate(&mut object);
            Name {
                object,
                is_held: false,
            }
        }
    }
}

/// The associate name for a cell that is a selector.
fn name_of(cell: &Cell) -> Name
    ensures { IsNamed cell.now result }
{
    match cell {
        Cell::Selector(selector) => name_for(selector),
        _ => Name {
            object: Object::Held(Base::Integer, Constant::Number(0)),
            is_held: false,
        },
    }
}

/// The names for selectors become the last ones, in their order.
pub(crate) fn name_all(names: &mut Stack<Name>, cells: &[Cell])
    requires { length names.old.items.items + length cells.now ≤ names.old.room }
    ensures names { (added : List n.Name) × (names.new.items.items ≡ names.old.items.items ++ added) × AreNamed cells.now added }
    ensures room { names.new.room ≡ names.old.room }
{
    let Some((cell, others)) = cells.split_first() else {
        return;
    };
    names.push(name_of(cell));
    name_all(names, others);
}
