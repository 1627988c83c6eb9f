//! The objects that names mean, and parts of objects.

ghost use Rattle.std.specs.Prelude.{◌≡◌, IfOk, slice_get, slice_index_or};
ghost use Rattle.f3_places.specs.declared.source.Place.{Place};
ghost use Rattle.f3_program.specs.declared.declarations.Base.TheVariants as base;
ghost use Rattle.f3_meaning_whole.specs.Value as v;
ghost use Rattle.f3_meaning_whole.specs.Store as s;
ghost use Rattle.f3_meaning_whole.specs.Reference as m;
ghost use Rattle.f3_meaning_whole.specs.Act as a;
ghost use Rattle.f3_meaning_whole.specs.Act.{Setting, at};
ghost use Rattle.f3_data.specs.References.{maker_of, reference_of, references_of};
ghost use Rattle.f3_located.specs.Finds.{Finds};
ghost use Rattle.f3_cells.specs.Cells.{variables_of, here_of};
ghost use Rattle.f3_cells.specs.States.{setting};
ghost use Rattle.f3_object_steps.specs.Performed.{Performed, PerformedAt};

use f3_cells::cell::Here;
use f3_cells::state::Stop;
use f3_data::copies;
use f3_data::reference::{Maker, Reference, Right};
use f3_data::store::{Root, Store};
use f3_data::value::Value;
use f3_located::names::{static_object, to_object, to_value, variable_type};
use f3_located::parts;
use f3_meaning_whole::run_error::RunError;
use f3_program::declarations::{Base, Derived};
use f3_program::expression::Name;
use f3_program::program::Program;
use std::alloc::{AllocError, Global};

/// The type that is declared of a variable of an activation.
fn type_at(program: &Program, procedure: Option<usize>, i: usize) -> Base
    ensures { result ≡ a.type_of (slice_get (variables_of program.now procedure) i) }
{
    let Some(f) = procedure else {
        return variable_type(&program.main, i);
    };
    match program.procedures.get(f) {
        Some(procedure) => variable_type(procedure, i),
        None => Base::Integer,
    }
}

/// The object of a dummy or an associate name.
fn lent(alloc: Global, names: &[Reference], i: usize) -> Result<Reference, AllocError>
    ensures { IfOk result (λ r. reference_of r ≡ slice_index_or (references_of names.now) i (a.to_root (s.Local 0 0) base.Integer m.Read 0 v.Unallocated)) }
{
    match names.get(i) {
        Some(object) => copies::reference(alloc, object),
        None => to_value(
            alloc,
            Root::Local(0, 0),
            Base::Integer,
            Right::Read,
            0,
            &Value::Unallocated,
        ),
    }
}

/// What a name means, where an activation is (ISO/IEC 1539-1:2004, 16.4).
fn meant(
    alloc: Global,
    program: &Program,
    here: &Here,
    store: &Store,
    name: Name,
) -> Result<Reference, AllocError>
    ensures { IfOk result (λ r. (place : Place) → Finds (a.named (setting program.now) name (at place (here_of program.now here.now))) store.now (reference_of r)) }
{
    match name {
        Name::Static(i) => static_object(alloc, &program.statics, i, here.unit, store),
        Name::Local(i) => {
            let of = type_at(program, here.procedure, i);
            to_object(
                alloc,
                Root::Local(here.level, i),
                of,
                Right::Define,
                here.unit,
                store,
            )
        }
        Name::Lent(i) => lent(alloc, &here.names, i),
    }
}

/// A component of an object, or of each element of an array (6.1.2).
pub fn component(
    alloc: Global,
    types: &[Derived],
    store: &Store,
    object: Reference,
    k: usize,
    maker: Maker,
) -> Result<Reference, Stop>
    ensures { (g : Setting) → g.program.types.items ≡ types.now → Performed reference_of (λ (here : a.Here). a.component g k (maker_of maker) (reference_of object)) result store.now store.now }
{
    match parts::component(alloc, object, k, maker, types, store) {
        Ok(part) => Ok(part),
        Err(_) => Err(Stop::Memory),
    }
}

/// What an allocatable holds (6.3.1.1).
///
/// `NotAllocated` where it is unallocated (own rule).
pub fn contents(alloc: Global, store: &Store, object: Reference) -> Result<Reference, Stop>
    ensures { Performed reference_of (λ (here : a.Here). a.contents (reference_of object) here) result store.now store.now }
{
    let Ok(found) = parts::contents(alloc, object, store) else {
        return Err(Stop::Memory);
    };
    match found {
        Some(held) => Ok(held),
        None => Err(Stop::Failed(RunError::NotAllocated)),
    }
}

/// What a name means, where an activation is.
pub fn named(
    alloc: Global,
    program: &Program,
    here: &Here,
    store: &Store,
    name: Name,
) -> Result<Reference, Stop>
    ensures { (place : Place) → PerformedAt reference_of (a.named (setting program.now) name (at place (here_of program.now here.now))) result store.now }
{
    match meant(alloc, program, here, store, name) {
        Ok(object) => Ok(object),
        Err(_) => Err(Stop::Memory),
    }
}
