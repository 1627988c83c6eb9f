//! The objects that names mean.

ghost use Rattle.std.specs.Prelude.{◌≡◌, IfOk, slice_get};
ghost use Rattle.f3_meaning_whole.specs.Store as s;
ghost use Rattle.f3_meaning_whole.specs.Act as a;
ghost use Rattle.f3_meaning_whole.specs.Act.{to_root, whole};
ghost use Rattle.f3_meaning_whole.specs.Exec.{declared_in};
ghost use Rattle.f3_data.specs.Values.{value_of};
ghost use Rattle.f3_data.specs.Stores.{root_of, store_of};
ghost use Rattle.f3_data.specs.References.{right_of, reference_of};

use crate::reaches::{reach_at, reach_of};
use f3_data::reference::{Reference, Right};
use f3_data::store::{Path, Root, Store};
use f3_data::value::Value;
use f3_program::declarations::Base;
use f3_program::program::{Procedure, Static};
use std::alloc::{AllocError, Global};

/// The reference to a root of a type that holds a value, by a statement of a unit.
pub fn to_value(
    alloc: Global,
    root: Root,
    of: Base,
    right: Right,
    unit: usize,
    value: &Value,
) -> Result<Reference, AllocError>
    ensures { IfOk result (λ r. reference_of r ≡ to_root (root_of root) of (right_of right) unit (value_of value.now)) }
{
    Ok(Reference {
        path: Path {
            root,
            steps: Vec::new(alloc),
        },
        reach: reach_of(alloc, value)?,
        of,
        right,
        origin: unit,
        makers: Vec::new(alloc),
    })
}

/// The reference to a root of a type, by a statement of a unit.
pub fn to_object(
    alloc: Global,
    root: Root,
    of: Base,
    right: Right,
    unit: usize,
    store: &Store,
) -> Result<Reference, AllocError>
    ensures { IfOk result (λ r. reference_of r ≡ to_root (root_of root) of (right_of right) unit (s.get (store_of store.now) (whole (root_of root)))) }
{
    let path = Path {
        root,
        steps: Vec::new(alloc),
    };
    let reach = reach_at(alloc, store, &path)?;
    Ok(Reference {
        path,
        reach,
        of,
        right,
        origin: unit,
        makers: Vec::new(alloc),
    })
}

/// The type that is declared of a variable that lives for the whole run.
fn static_type(statics: &[Static], i: usize) -> Base
    ensures { result ≡ a.static_type (slice_get statics.now i) }
{
    match statics.get(i) {
        Some(variable) => variable.declared.kind.of,
        None => Base::Integer,
    }
}

/// The right of a unit to such a variable: to define it, but only to read a protected one of another unit (ISO/IEC
/// 1539-1:2004, 5.1.2.12).
fn right_to(statics: &[Static], i: usize, unit: usize) -> Right
    ensures { right_of result ≡ a.right_to unit (slice_get statics.now i) }
{
    match statics.get(i) {
        Some(variable) => {
            if variable.is_protected && variable.home != unit {
                Right::Read
            } else {
                Right::Define
            }
        }
        None => Right::Define,
    }
}

/// A variable that lives for the whole run, in a statement of a unit.
pub fn static_object(
    alloc: Global,
    statics: &[Static],
    i: usize,
    unit: usize,
    store: &Store,
) -> Result<Reference, AllocError>
    ensures { IfOk result (λ r. reference_of r ≡ to_root (s.Static i) (a.static_type (slice_get statics.now i)) (a.right_to unit (slice_get statics.now i)) unit (s.get (store_of store.now) (whole (s.Static i)))) }
{
    let of = static_type(statics, i);
    let right = right_to(statics, i, unit);
    to_object(alloc, Root::Static(i), of, right, unit, store)
}

/// The type that is declared of a variable of an activation; the result stands behind the others.
#[tactic(auto, using(crate::proofs::Declaring::declared_here, crate::proofs::Declaring::declared_result, crate::proofs::Declaring::declared_past))]
pub fn variable_type(procedure: &Procedure, i: usize) -> Base
    ensures { result ≡ a.type_of (slice_get (declared_in procedure.now) i) }
{
    if i < procedure.locals.len() {
        return procedure.locals[i].kind.of;
    }
    match &procedure.result {
        Some(declared) if i == procedure.locals.len() => declared.kind.of,
        _ => Base::Integer,
    }
}
