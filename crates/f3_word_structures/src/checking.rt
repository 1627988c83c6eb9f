//! Whether components can take values.

ghost use Rattle.std.specs.Prelude.{◌≡◌, List};
ghost use Rattle.f3_program.specs.declared.declarations.Kind.{Kind};
ghost use Rattle.f3_program.specs.declared.program.Program.{Program};
ghost use Rattle.f3_meaning_whole.specs.Act.{Passed};
ghost use Rattle.f3_meaning_whole.specs.Shape.{spans_declared};
ghost use Rattle.f3_meaning_whole.specs.Value as v;
ghost use Rattle.f3_meaning_whole.specs.Value.{same_extents};
ghost use Rattle.f3_room_places.specs.Places.{HasTables};
ghost use Rattle.f3_word_cells.specs.Areas.{spans_of};
ghost use Rattle.f3_word_copies.specs.Fits.{CanFit};
ghost use Rattle.f3_word_structures.specs.Members.{conforms_to};
ghost use Rattle.f3_word_structures.specs.Fitting.{AreGiven, Checked, Tested};

use crate::finding::given;
use f3_desc::descriptor::Dim;
use f3_heap::Blocks;
use f3_meaning_whole::run_error::RunError;
use f3_program::declarations::{Component, Declared, Dimension};
use f3_room_places::types::Types;
use f3_word_cells::cell::{Cell, Datum};
use f3_word_copies::fitting::fits;

/// Whether arrays have the same shape (ISO/IEC 1539-1:2004, 2.4.5).
fn same_extents(declared: &[Dimension], dims: &[Dim]) -> bool
    ensures { result ≡ same_extents (spans_declared declared.now) (spans_of dims.now) }
{
    let Some((first, others)) = declared.split_first() else {
        return dims.is_empty();
    };
    let Some((second, rest)) = dims.split_first() else {
        return false;
    };
    first.extent == second.extent as u64 && same_extents(others, rest)
}

/// Whether a value has the shape of a component, or is a scalar.
fn conforms(declared: &Declared, datum: &Datum) -> bool
    ensures { result ≡ conforms_to (spans_declared declared.now.dimensions.items) datum.now }
{
    let Datum::Block(area) = datum else {
        return true;
    };
    area.elements.dims.is_empty() || same_extents(&declared.dimensions, &area.elements.dims)
}

/// Whether a component can take a value (own rule for 4.5.9).
///
/// `ShapesDiffer` where the value is an array of another shape, else `Overflow` where a number of it is not one of the component's type.
fn test<B: Blocks>(
    heap: &B,
    types: Types<'_>,
    declared: &Declared,
    datum: &Datum,
) -> Result<(), RunError>
    requires tables { HasTables types }
    requires can { (p : Program) × (k : Kind) × (v : v.Value) × CanFit p types (B.blocks heap.now) k datum.now v }
    ensures { (p : Program) (k : Kind) (v : v.Value) → CanFit p types.entry (B.blocks heap.now) k datum.now v → Tested declared.now v result }
{
    if !conforms(declared, datum) {
        return Err(RunError::ShapesDiffer);
    }
    if !fits(heap, types, declared.kind.of, datum) {
        return Err(RunError::Overflow);
    }
    Ok(())
}

/// Whether each component can take the value that is given for it.
///
/// An error of the first component that cannot, as of `test`.
pub(crate) fn check<B: Blocks>(
    heap: &B,
    types: Types<'_>,
    components: &[Component],
    cells: &[Cell],
) -> Result<(), RunError>
    requires tables { HasTables types }
    requires given { (p : Program) × (ps : List Passed) × AreGiven p types (B.blocks heap.now) cells.now ps }
    ensures { (p : Program) (ps : List Passed) → AreGiven p types.entry (B.blocks heap.now) cells.now ps → Checked components.now ps result }
{
    for number in 0..components.len() {
        if let Some(datum) = given(cells, number) {
            match test(heap, types, &components[number].declared, datum) {
                Ok(()) => {}
                Err(error) => return Err(error),
            }
        }
    }
    Ok(())
}
