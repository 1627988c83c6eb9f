//! Where statements are executed within a procedure or an ASSOCIATE.

ghost use Rattle.std.specs.Prelude.{◌≡◌, ◌++◌, Some, IfOk};
ghost use Rattle.f3_program.specs.declared.program.Program.{Program};
ghost use Rattle.f3_meaning_whole.specs.Value as m;
ghost use Rattle.f3_meaning_whole.specs.Act.{associating};
ghost use Rattle.f3_data.specs.References.{references_of};
ghost use Rattle.f3_data.specs.Lent.{lent_of};
ghost use Rattle.f3_cells.specs.Cells.{here_of, variables_of};

use f3_cells::cell::Here;
use f3_data::copies;
use f3_data::lent::{Lent, lent_too, shared};
use f3_data::reference::Reference;
use f3_data::value::Value;
use f3_places::source::Place;
use std::alloc::{AllocError, Global};

/// What is lent where these objects are lent too, the first of them last.
fn lending(alloc: Global, lent: &Lent, objects: &[Reference]) -> Result<Lent, AllocError>
    ensures { IfOk result (λ l. lent_of l ≡ references_of objects.now ++ lent_of lent.now) }
{
    let mut all = shared(lent)?;
    let mut i = objects.len();
    while i > 0 {
        i -= 1;
        all = lent_too(alloc, copies::reference(alloc, &objects[i])?, all)?;
    }
    Ok(all)
}

/// Within a procedure of a number, on a level, with these objects of its dummies, which are lent (12.4).
///
/// `AllocError` where the host has no memory for it.
pub fn within_procedure(
    alloc: Global,
    outer: &Here,
    place: Place,
    unit: usize,
    level: usize,
    procedure: usize,
    names: Vec<Reference>,
) -> Result<Here, AllocError>
    ensures { IfOk result (λ h. (p : Program) → here_of p h ≡ record {
      place = place;
      unit = unit;
      level = level;
      variables = variables_of p (Some procedure);
      names = references_of names.items;
      lent = references_of names.items ++ lent_of outer.now.lent;
      selected = m.Unallocated;
    }) }
{
    let lent = lending(alloc, &outer.lent, &names)?;
    Ok(Here {
        place,
        unit,
        level,
        procedure: Some(procedure),
        names,
        lent,
        selected: Value::Unallocated,
    })
}

/// Within an ASSOCIATE with these objects of its names, which are lent (8.1.4).
pub(crate) fn within_associate(
    alloc: Global,
    outer: &Here,
    objects: &[Reference],
) -> Result<Here, AllocError>
    ensures { IfOk result (λ h. (p : Program) → here_of p h ≡ associating (references_of objects.now) (here_of p outer.now)) }
{
    let lent = lending(alloc, &outer.lent, objects)?;
    let names = joined(alloc, &outer.names, objects)?;
    let selected = copies::value(alloc, &outer.selected)?;
    Ok(Here {
        place: outer.place,
        unit: outer.unit,
        level: outer.level,
        procedure: outer.procedure,
        names,
        lent,
        selected,
    })
}

/// Copies of references, and of others behind them.
fn joined(
    alloc: Global,
    first: &[Reference],
    second: &[Reference],
) -> Result<Vec<Reference>, AllocError>
    ensures { IfOk result (λ rs. references_of rs.items ≡ references_of first.now ++ references_of second.now) }
{
    let mut all = copies::references(alloc, first)?;
    for reference in second {
        all.push(copies::reference(alloc, reference)?)?;
    }
    Ok(all)
}
