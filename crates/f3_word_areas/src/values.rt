//! Values as expressions give them.

ghost use Rattle.std.specs.Prelude.{◌≡◌};
ghost use Rattle.f3_program.specs.declared.program.Program.{Program};
ghost use Rattle.f3_program.specs.declared.declarations.Kind.{Kind};
ghost use Rattle.f3_live_blocks.specs.Blocks.{Live};
ghost use Rattle.f3_meaning_whole.specs.Value as m;
ghost use Rattle.f3_word_cells.specs.Areas.{IsDatum};
ghost use Rattle.f3_word_cells.specs.States.{IsLaid, datum_blocks};

use crate::bounds::from_one;
use f3_word_cells::cell::Datum;

/// The value of an expression that is no variable: its bounds are from 1 on.
pub fn plain(datum: Datum) -> Datum
    ensures value { (p : Program) (live : Live) (v : m.Value) → IsDatum p live datum v → IsDatum p live result (m.plain v) }
    ensures kind { (p : Program) (k : Kind) → IsLaid p k datum → IsLaid p k result }
    ensures blocks { datum_blocks result ≡ datum_blocks datum }
{
    match datum {
        Datum::Block(mut area) => {
            let dims = from_one(&area.elements.dims);
            area.elements.dims = dims;
            Datum::Block(area)
        }
        scalar => scalar,
    }
}
