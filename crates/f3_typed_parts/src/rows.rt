//! Scalars of a type that is wanted.

ghost use Rattle.std.specs.Prelude.{◌≡◌};
ghost use Rattle.f3_kinds.specs.Rows.{is_wanted, same_kind, same_type, may_take, wider, computed, has_type, is_unbroken, has_fits, fits, scalar_rows};
ghost use Rattle.f3_typed_parts.specs.Noted.{noted};

use crate::noted::{at_place, unless};
use f3_kinds::said::{Form, Has, Said};
use f3_kinds::types::{DataType, Wanted};
use f3_rules::breaks::Break;
use f3_rules::rule::Rule;
use f3_tree::expression::IntegerKind;

/// Whether a type is the one that is wanted.
pub fn is_wanted(wanted: Wanted, data_type: DataType) -> bool
    ensures { result ≡ is_wanted wanted data_type }
{
    match (wanted, data_type) {
        (Wanted::Integer, DataType::Integer(_)) => true,
        (Wanted::Logical, DataType::Logical) => true,
        (Wanted::Intrinsic, DataType::Integer(_)) => true,
        (Wanted::Intrinsic, DataType::Logical) => true,
        (_, _) => false,
    }
}

pub fn same_kind(a: IntegerKind, b: IntegerKind) -> bool
    ensures { result ≡ same_kind a b }
{
    match (a, b) {
        (IntegerKind::Four, IntegerKind::Four) => true,
        (IntegerKind::Eight, IntegerKind::Eight) => true,
        (_, _) => false,
    }
}

pub fn same_type(a: DataType, b: DataType) -> bool
    ensures { result ≡ same_type a b }
{
    match (a, b) {
        (DataType::Integer(j), DataType::Integer(k)) => same_kind(j, k),
        (DataType::Logical, DataType::Logical) => true,
        (DataType::Derived(t), DataType::Derived(u)) => t == u,
        (_, _) => false,
    }
}

/// Whether a value of the second type may define an object of the first.
pub fn may_take(a: DataType, b: DataType) -> bool
    ensures { result ≡ may_take a b }
{
    match (a, b) {
        (DataType::Integer(_), DataType::Integer(_)) => true,
        (_, _) => same_type(a, b),
    }
}

/// The wider of two kinds.
pub fn wider(a: IntegerKind, b: IntegerKind) -> IntegerKind
    ensures { result ≡ wider a b }
{
    match a {
        IntegerKind::Four => b,
        IntegerKind::Eight => a,
    }
}

/// A value that is computed.
pub fn computed(data_type: DataType, rank: usize) -> Has
    ensures { result ≡ computed data_type rank }
{
    Has {
        data_type: Some(data_type),
        rank,
        is_allocatable: false,
        form: Form::Computed,
    }
}

/// Whether an expression breaks no rule and its type is known.
pub fn has_type(has: Option<Has>) -> bool
    ensures { result ≡ has_type has }
{
    match has {
        Some(has) => has.data_type.is_some(),
        None => false,
    }
}

pub fn is_unbroken(has: Option<Has>) -> bool
    ensures { result ≡ is_unbroken has }
{
    has.is_some()
}

/// Whether an expression is a scalar of the type that is wanted.
pub fn fits(wanted: Wanted, said: &Said) -> bool
    ensures { result ≡ fits wanted said.now }
{
    match said.has {
        Some(has) => match has.data_type {
            Some(data_type) => is_wanted(wanted, data_type) && has.rank == 0,
            None => false,
        },
        None => false,
    }
}

/// Notes where an expression that has to be a scalar of some type is none.
#[tactic(auto, using(crate::proofs::Noting::noted_more, crate::proofs::Noting::noted_none))]
pub fn scalar(first: &mut Option<Break>, wanted: Wanted, said: &Said)
    ensures { first.new ≡ noted first.old (scalar_rows wanted said.now) }
{
    if let Some(has) = said.has {
        if let Some(data_type) = has.data_type {
            unless(
                first,
                is_wanted(wanted, data_type),
                at_place(6, Rule::T6, said.place),
            );
            unless(first, has.rank == 0, at_place(6, Rule::T7, said.place));
        }
    }
}
