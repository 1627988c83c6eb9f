//! Parts of objects.

ghost use Rattle.std.specs.Prelude.{◌≡◌, IfOk, OnOk, MatchOption, false};
ghost use Rattle.f3_meaning_whole.specs.Value as v;
ghost use Rattle.f3_meaning_whole.specs.Store as s;
ghost use Rattle.f3_meaning_whole.specs.Store.{within};
ghost use Rattle.f3_meaning_whole.specs.Reference as m;
ghost use Rattle.f3_meaning_whole.specs.Act as a;
ghost use Rattle.f3_meaning_whole.specs.Act.{Setting, Here, moved, component_path, component_reach};
ghost use Rattle.f3_meaning_whole.specs.declared.run_error.RunError.TheVariants.{NotAllocated};
ghost use Rattle.f3_data.specs.Values.{value_of};
ghost use Rattle.f3_data.specs.Stores.{path_of, store_of};
ghost use Rattle.f3_data.specs.References.{maker_of, section_in, reach_in, reference_of};
ghost use Rattle.f3_located.specs.Finds.{Finds, FailsBy};

use crate::reaches::{count_from_one, reach_at, reach_of};
use f3_data::reference::{Made, Maker, Reach, Reference, Section};
use f3_data::store::{Path, Step, Store};
use f3_data::value::Value;
use f3_program::declarations::{Base, Derived};
use std::alloc::{AllocError, Global};

/// The type of a component of an object of a type (ISO/IEC 1539-1:2004, 6.1.2).
pub fn component_type(types: &[Derived], of: Base, k: usize) -> Base
    ensures { result ≡ a.component_type types.now of k }
{
    let Base::Derived(t) = of else {
        return Base::Integer;
    };
    let Some(derived) = types.get(t) else {
        return Base::Integer;
    };
    match derived.components.get(k) {
        Some(component) => component.declared.kind.of,
        None => Base::Integer,
    }
}

/// A component of what is meant of each element.
fn select_in_each(section: &mut Section, k: usize) -> Result<(), AllocError>
    ensures { OnOk result ((p at : s.Path) (store : s.Store) → section_in p section.new ≡ component_reach (section_in p section.old) at k store) }
{
    count_from_one(&mut section.spans);
    section.tail.push(Step::Component(k))?;
    Ok(())
}

/// What a component of an object, or of each element of an array, reaches.
fn reach_component(
    alloc: Global,
    path: &mut Path,
    reach: Reach,
    k: usize,
    store: &Store,
) -> Result<Reach, AllocError>
    ensures path { IfOk result (λ r. path_of path.new ≡ component_path (reach_in (path_of path.old) reach) (path_of path.old) k) }
    ensures reach { IfOk result (λ r. reach_in (path_of path.new) r ≡ component_reach (reach_in (path_of path.old) reach) (path_of path.old) k (store_of store.now)) }
{
    match reach {
        Reach::One => {
            path.steps.push(Step::Component(k))?;
            reach_at(alloc, store, path)
        }
        Reach::Many(mut section) => {
            select_in_each(&mut section, k)?;
            Ok(Reach::Many(section))
        }
    }
}

/// A component of an object, or of each element of an array (6.1.2).
pub fn component(
    alloc: Global,
    reference: Reference,
    k: usize,
    maker: Maker,
    types: &[Derived],
    store: &Store,
) -> Result<Reference, AllocError>
    ensures { IfOk result (λ q. (g : Setting) → g.program.types.items ≡ types.now → Finds (a.component g k (maker_of maker) (reference_of reference)) store.now (reference_of q)) }
{
    let Reference {
        mut path,
        reach,
        of,
        right,
        origin,
        mut makers,
    } = reference;
    let reach = reach_component(alloc, &mut path, reach, k, store)?;
    makers.push(Made {
        of,
        component: k,
        maker,
    })?;
    Ok(Reference {
        path,
        reach,
        of: component_type(types, of, k),
        right,
        origin,
        makers,
    })
}

/// What an allocatable holds.
fn opened(alloc: Global, reference: Reference, held: &Value) -> Result<Reference, AllocError>
    ensures { IfOk result (λ q. reference_of q ≡ moved (reference_of reference) (within (path_of reference.path) s.Contents) (m.reach_of (within (path_of reference.path) s.Contents) (value_of held.now))) }
{
    let Reference {
        mut path,
        reach,
        of,
        right,
        origin,
        makers,
    } = reference;
    drop(reach);
    path.steps.push(Step::Contents)?;
    let reach = reach_of(alloc, held)?;
    Ok(Reference {
        path,
        reach,
        of,
        right,
        origin,
        makers,
    })
}

/// What an allocatable holds: none where it holds nothing.
fn held_by(value: &Value) -> Option<&Value>
    ensures { MatchOption result (v.is_allocated (value_of value.now) ≡ false) (λ x. value_of value.now ≡ v.Allocated (value_of x.now)) }
{
    match value {
        Value::Allocated(held) => Some(held),
        _ => None,
    }
}

/// What the allocatable object at a path holds: none where it holds nothing.
pub fn held_at<'a>(store: &'a Store, path: &Path) -> Option<&'a Value>
    ensures { MatchOption result (v.is_allocated (s.get (store_of store.now) (path_of path.now)) ≡ false) (λ x. s.get (store_of store.now) (path_of path.now) ≡ v.Allocated (value_of x.now)) }
{
    match store.get(path) {
        Some(value) => held_by(value),
        None => None,
    }
}

/// What an allocatable holds (6.3.1.1): none where it is unallocated (own rule: an error).
pub fn contents(
    alloc: Global,
    reference: Reference,
    store: &Store,
) -> Result<Option<Reference>, AllocError>
    ensures { IfOk result (λ found. (here : Here) → MatchOption found (FailsBy (a.contents (reference_of reference) here) store.now NotAllocated here.place) (λ q. Finds (a.contents (reference_of reference) here) store.now (reference_of q))) }
{
    match &reference.reach {
        Reach::One => (),
        Reach::Many(_) => return Ok(None),
    }
    match held_at(store, &reference.path) {
        Some(held) => Ok(Some(opened(alloc, reference, held)?)),
        None => Ok(None),
    }
}
