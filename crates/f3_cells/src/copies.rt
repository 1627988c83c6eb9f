//! Copies. Each answers `AllocError` where the host has no memory for it.

ghost use Rattle.std.specs.Prelude.{◌≡◌, IfOk};
ghost use Rattle.f3_program.specs.declared.program.Program.{Program};
ghost use Rattle.f3_cells.specs.Cells.{here_of, passed_of};

use crate::cell::{Here, Passed};
use f3_data::copies;
use f3_data::lent::shared;
use std::alloc::{AllocError, Global};

/// A copy of where a statement is executed.
pub fn here(alloc: Global, original: &Here) -> Result<Here, AllocError>
    ensures { IfOk result (λ h. (p : Program) → here_of p h ≡ here_of p original.now) }
{
    let names = copies::references(alloc, &original.names)?;
    let lent = shared(&original.lent)?;
    let selected = copies::value(alloc, &original.selected)?;
    Ok(Here {
        place: original.place,
        unit: original.unit,
        level: original.level,
        procedure: original.procedure,
        names,
        lent,
        selected,
    })
}

/// A copy of an argument.
pub fn passed(alloc: Global, original: &Passed) -> Result<Passed, AllocError>
    ensures { IfOk result (λ x. passed_of x ≡ passed_of original.now) }
{
    match original {
        Passed::Given(number, value) => Ok(Passed::Given(*number, copies::value(alloc, value)?)),
        Passed::Lent(number, object) => Ok(Passed::Lent(
            *number,
            copies::reference(alloc, object)?,
        )),
    }
}
