//! Lines of code, each put in front of those that stand behind it.

ghost use Rattle.std.specs.Prelude.{◌∷◌, [], OnOk};
ghost use Rattle.f3_code.specs.State.{line};
ghost use Rattle.f3_gen_values.specs.Emitted.{Emitted};

use f3_code::instruction::Instruction;
use f3_places::source::Place;
use f3_program::declarations::Base;
use std::alloc::AllocError;

/// A line of code: an instruction, the place that its errors tell, where that is not the activation's, and the type
/// whose initial value it takes, if it takes one.
#[derive(Clone, Copy)]
pub struct Line {
    pub place: Option<Place>,
    pub initial: Option<Base>,
    pub act: Instruction,
}

/// One more line in front.
pub fn put(code: &mut Vec<Line>, place: Option<Place>, act: Instruction) -> Result<(), AllocError>
    ensures { OnOk result (Emitted code.old.items code.new.items (line place act ∷ [])) }
{
    code.push(Line {
        place,
        initial: None,
        act,
    })?;
    Ok(())
}
