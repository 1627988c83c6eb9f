//! The code by which constructs are left.

ghost use Rattle.std.specs.Prelude.{◌≡◌, ◌∷◌, [], ◌+◌, ◌-◌, ◌<◌, length, slice_set, IfOk, OnOk};
ghost use Rattle.f3_code.specs.State.{line};
ghost use Rattle.f3_code.specs.Code.{departing_code, leaving_code, scoped};
ghost use Rattle.f3_gen_values.specs.Emitted.{Emitted};
ghost use Rattle.f3_gen_statements.specs.Leading.{LeadInto, ways_from};

use crate::site::Exits;
use f3_code::instruction::{Instruction, Way};
use f3_gen_values::line::{Line, put};
use f3_places::source::Place;
use std::alloc::AllocError;

/// A CYCLE (8.1.6.4.3).
pub fn emit_cycle(
    code: &mut Vec<Line>,
    place: Option<Place>,
    exits: Exits,
) -> Result<(), AllocError>
    requires { LeadInto code.old.items exits }
    ensures { OnOk result (Emitted code.old.items code.new.items (line place (Instruction.GoOn (ways_from code.old.items exits).cycle) ∷ [])) }
{
    let distance = code.len() - exits.cycle;
    put(code, place, Instruction::GoOn(distance))
}

/// An EXIT (8.1.6.4.4).
pub fn emit_exit(code: &mut Vec<Line>, place: Option<Place>, exits: Exits) -> Result<(), AllocError>
    requires { LeadInto code.old.items exits }
    ensures { OnOk result (Emitted code.old.items code.new.items (line place (Instruction.GoOn (ways_from code.old.items exits).exit) ∷ [])) }
{
    let distance = code.len() - exits.exit;
    put(code, place, Instruction::GoOn(distance))
}

/// The way out of a procedure, with the cells that go (12.5.2.4).
fn emit_way_out(code: &mut Vec<Line>, place: Option<Place>, exits: Exits) -> Result<(), AllocError>
    requires { LeadInto code.old.items exits }
    ensures { OnOk result (Emitted code.old.items code.new.items
        (line place (Instruction.Unwind exits.cells) ∷ line place (Instruction.GoOn (ways_from code.old.items exits).ret) ∷ [])) }
{
    let distance = code.len() - exits.ret;
    put(code, place, Instruction::GoOn(distance))?;
    put(code, place, Instruction::Unwind(exits.cells))
}

/// A RETURN (12.5.2.4).
pub fn emit_return(
    code: &mut Vec<Line>,
    place: Option<Place>,
    exits: Exits,
) -> Result<(), AllocError>
    requires { LeadInto code.old.items exits }
    ensures { OnOk result (Emitted code.old.items code.new.items (line place Instruction.SetPlace
        ∷ line place (Instruction.Unwind exits.cells) ∷ line place (Instruction.GoOn (ways_from code.old.items exits).ret) ∷ [])) }
{
    emit_way_out(code, place, exits)?;
    put(code, place, Instruction::SetPlace)
}

/// Where the ways out of a SELECT CASE or an ASSOCIATE lead from its end.
pub fn emit_departing(
    code: &mut Vec<Line>,
    place: Option<Place>,
    exits: Exits,
) -> Result<(), AllocError>
    requires { LeadInto code.old.items exits }
    ensures { OnOk result (Emitted code.old.items code.new.items (departing_code place (ways_from code.old.items exits))) }
{
    let cycle = code.len() - exits.cycle;
    let exit = code.len() - exits.exit;
    emit_way_out(code, place, exits)?;
    put(code, place, Instruction::Depart(2 + cycle, 2 + exit))
}

/// The four ways out of a SELECT CASE or an ASSOCIATE to its end; answers them as what is within sees them.
pub fn emit_leaving(code: &mut Vec<Line>, place: Option<Place>) -> Result<Exits, AllocError>
    ensures emitted { OnOk result (Emitted code.old.items code.new.items (leaving_code place)) }
    ensures inward { IfOk result (λ e. LeadInto code.new.items e) }
    ensures scoped { IfOk result (λ e. ways_from code.new.items e ≡ scoped) }
{
    put(code, place, Instruction::Leave(Way::Return, 0))?;
    let ret = code.len();
    put(code, place, Instruction::Leave(Way::Exit, 1))?;
    let exit = code.len();
    put(code, place, Instruction::Leave(Way::Cycle, 2))?;
    let cycle = code.len();
    put(code, place, Instruction::Leave(Way::Onward, 3))?;
    Ok(Exits {
        cycle,
        exit,
        ret,
        cells: 0,
    })
}

/// The jump back at the end of a loop, which was emitted as the line of this number from the end, now that it is known how
/// long the loop is.
pub fn close_loop(code: &mut Vec<Line>, place: Option<Place>, behind: usize)
    requires { behind < length code.old.items }
    ensures { code.new.items ≡ slice_set code.old.items behind
        (record { place = place; initial = None; act = Instruction.GoBack (length code.old.items - (behind + 1)) }) }
{
    let distance = code.len() - (behind + 1);
    code[behind] = Line {
        place,
        initial: None,
        act: Instruction::GoBack(distance),
    };
}
