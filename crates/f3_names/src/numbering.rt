//! The numbers of the units among the scopes.

ghost use Rattle.std.specs.Prelude.{◌≡◌, ◌<◌, ◌++◌, OnOk, IfOk, length, map};
ghost use Rattle.std.specs.List.{All};
ghost use Rattle.f3_scopes.specs.Outlines.{scope_view};
ghost use Rattle.f3_names.specs.Inner.Making.{of_unit, unit_numbers, among_scopes};

use f3_graph::UnitId;
use f3_scopes::outline::Outline;
use std::alloc::{AllocError, Global};

/// Adds the number of a scope that is a unit.
fn add_unit(numbers: &mut Vec<usize>, number: usize, host: Option<usize>) -> Result<(), AllocError>
    ensures { OnOk result (numbers.new.items ≡ numbers.old.items ++ of_unit number host) }
{
    match host {
        Some(_) => Ok(()),
        None => {
            numbers.push(number)?;
            Ok(())
        }
    }
}

/// The numbers of the units among these scopes: the units are those that no other scope holds.
pub fn unit_numbers(alloc: Global, outlines: &[Outline]) -> Result<Vec<usize>, AllocError>
    ensures { IfOk result (λ v. v.items ≡ unit_numbers 0 (map scope_view outlines.now)) }
{
    let mut numbers = Vec::new(alloc);
    for (number, outline) in outlines.iter().enumerate() {
        add_unit(&mut numbers, number, outline.host)?;
    }
    Ok(numbers)
}

/// The scopes of these units in the same order, where the units have these numbers among the scopes.
pub fn scope_order(
    alloc: Global,
    numbers: &[usize],
    order: &[UnitId],
) -> Result<Vec<usize>, AllocError>
    requires { All (λ u. u.number < length numbers.now) order.now }
    ensures { IfOk result (λ v. v.items ≡ among_scopes numbers.now (map (λ u. u.number) order.now)) }
{
    let mut scopes = Vec::new(alloc);
    for unit in order {
        scopes.push(numbers[unit.number])?;
    }
    Ok(scopes)
}
