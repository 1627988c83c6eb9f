//! How much room stacks are to have.

ghost use Rattle.std.specs.Prelude.{◌≤◌, ◌+◌, ◌*◌, ◌^◌, ◌⊎◌, IfSome, IfNone};
ghost use Rattle.f3_program.specs.declared.program.Program.{Program};
ghost use Rattle.f3_sizes.specs.declared.answer.Needs.{Needs};
ghost use Rattle.f3_word_needs.specs.Needs.{AreEnough, AreTold};
ghost use Rattle.f3_word_machine.specs.Room.{IsRoomy};

use f3_word_needs::needs::StackNeeds;
use f3_word_start::stacks::Room;

/// So many callers there are at most (own rule).
const CALLERS: usize = 1000;

/// Room for each run of a program, by what is told of its code; none where it would be 2 to the 64 or more.
pub fn room_for(needs: &StackNeeds) -> Option<Room>
    ensures roomy { IfSome result (λ r. (p : Program) (n : Needs) → AreTold p n needs.now → AreEnough p needs.now → IsRoomy p r) }
    ensures none { IfNone result ((2 ^ 64 ≤ needs.now.cells + 2) ⊎ (2 ^ 64 ≤ needs.now.kept * 2 + 1002) ⊎ (2 ^ 64 ≤ needs.now.levels + 2)) }
{
    let names = needs.kept.checked_mul(2)?;
    Some(Room {
        cells: needs.cells.checked_add(2)?,
        names,
        callers: CALLERS,
        blocks: names.checked_add(CALLERS + 2)?,
        levels: needs.levels.checked_add(2)?,
    })
}
