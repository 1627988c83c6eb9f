//! The types of a program, with what emission asks of them.

ghost use Rattle.std.specs.Prelude.{◌≡◌, ◌||◌, length, not, nat_eq, slice_index_or, IfOk};
ghost use Rattle.std.specs.List.{list_any};
ghost use Rattle.f3_meaning_whole.specs.Shape.{Whole, shapes_of};
ghost use Rattle.f3_meaning_whole.specs.Destroy.{is_destroyed};
ghost use Rattle.f3_gen_work.specs.Destroyed.{is_base_destroyed, is_component_destroyed};

use f3_program::declarations::{Base, Component, Derived};
use std::alloc::{AllocError, Global};
use std::marker::Model;

/// The types of a program. Which of them are destroyed where their objects end is told once, for all that is emitted.
#[derive(Drop)]
pub struct Types<'a> {
    items: &'a [Derived],
    destroyed: Vec<bool>,
}

impl<'a> Model for Types<'a> {
    ghost use Rattle.std.specs.Prelude.{◌≡◌, List};
    ghost use Rattle.f3_program.specs.declared.declarations.Derived.{Derived};

    ghost Value = { List Derived };

    ghost use Rattle.f3_gen_work.specs.Destroyed.{destroyed_types};

    ghost view = { λ t. t.items.now };

    ghost invariant = { λ t. t.destroyed.items ≡ destroyed_types t.items.now };
}

/// Whether objects of a type are destroyed, as is told of the types before the one that they are components of.
fn is_base_destroyed_by(told: &[bool], of: Base) -> bool
    ensures { result ≡ is_base_destroyed told.now of }
{
    match of {
        Base::Integer => false,
        Base::Long => false,
        Base::Logical => false,
        Base::Derived(number) => match told.get(number) {
            Some(is) => *is,
            None => false,
        },
    }
}

/// Whether a component is deallocated or destroyed (4.5.5.1, 6.3.3.1).
fn is_component_destroyed_by(told: &[bool], component: &Component) -> bool
    ensures { result ≡ is_component_destroyed told.now component.now }
{
    let kind = component.declared.kind;
    kind.is_allocatable || is_base_destroyed_by(told, kind.of)
}

/// Whether one of these components is.
fn is_any_destroyed_by(told: &[bool], components: &[Component]) -> bool
    ensures { result ≡ list_any (is_component_destroyed told.now) components.now }
{
    components
        .iter()
        .any(|component| is_component_destroyed_by(told, component))
}

/// Whether objects of a type are destroyed: it has a final subroutine, or such a component (4.5.5.1).
fn is_type_destroyed_by(told: &[bool], of: &Derived) -> bool
    ensures { result ≡ not (nat_eq (length of.now.finals.items) 0) || list_any (is_component_destroyed told.now) of.now.components.items }
{
    !of.finals.is_empty() || is_any_destroyed_by(told, &of.components)
}

impl<'a> Types<'a> {
    /// The types of a program, in their order.
    ///
    /// # Errors
    ///
    /// Where memory runs out.
    pub fn of(alloc: Global, items: &'a [Derived]) -> Result<Types<'a>, AllocError>
        ensures { IfOk result (λ types. types ≡ items.now) }
    {
        let mut destroyed = Vec::new(alloc);
        for one in items {
            let is_destroyed = is_type_destroyed_by(&destroyed, one);
            destroyed.push(is_destroyed)?;
        }
        Ok(Types { items, destroyed })
    }

    /// The types themselves.
    pub fn items(&self) -> &'a [Derived]
        ensures { result.now ≡ self.now }
    {
        self.items
    }

    /// How many there are.
    pub fn len(&self) -> usize
        ensures { result ≡ length self.now }
    {
        self.items.len()
    }

    /// Whether objects of the type of a number are destroyed where they end (4.5.5.1).
    pub fn is_destroyed(&self, number: usize) -> bool
        ensures { result ≡ is_destroyed self.now (slice_index_or (shapes_of self.now) number Whole) }
    {
        match self.destroyed.get(number) {
            Some(is) => *is,
            None => false,
        }
    }
}
