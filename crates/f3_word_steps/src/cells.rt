//! Instructions that know only the cells.

ghost use Rattle.std.specs.Prelude.{◌≡◌, ◌<◌, ◌≤◌, ◌^◌, length, true};
ghost use Rattle.f3_word_cells.specs.Does.{Keeps};
ghost use Rattle.f3_word_steps.specs.Cells.{DoesCells, is_cells_act};

use f3_code::instruction::Instruction;
use f3_places::source::Place;
use f3_word_calls::{associates, dummies, returns};
use f3_word_cells::state::{State, Stop};
use f3_word_control::{constructs, jumps};
use f3_word_copies::clearing;
use f3_word_objects::{asking, shapes};
use f3_word_values::{operations, queries, values};

/// An instruction that takes cells from the stack and puts others there, jumps to another of so many lines, or goes on elsewhere in its
/// activation, at a place.
///
/// `Lost` where it is none of these.
pub fn do_cells(act: Instruction, place: Place, total: usize, state: &mut State) -> Result<(), Stop>
    requires pc { state.old.pc < 2 ^ 63 }
    requires room { length state.old.cells.items.items < state.old.cells.room }
    requires bottom { state.old.base ≤ length state.old.cells.items.items }
    ensures does { is_cells_act act ≡ true → DoesCells place total act result state.old state.new }
    ensures keeps { Keeps state.old state.new }
{
    match act {
        Instruction::Push(a0) => values::push(state, a0),
        Instruction::Plain => values::plain(state),
        Instruction::Unary(a0, a1) => operations::unary(state, a0, a1),
        Instruction::Binary(a0, a1) => operations::binary(state, a0, a1),
        Instruction::BoundsOfVariable => asking::bounds_of_variable(state),
        Instruction::Size => queries::size(state),
        Instruction::Bound(a0) => queries::bound(state, a0),
        Instruction::PassValue(a0) => values::pass_value(state, a0),
        Instruction::PassVariable(a0) => asking::pass_variable(state, a0),
        Instruction::Result => returns::result(state),
        Instruction::Clear => clearing::clear(state),
        Instruction::Subscript => values::subscript(state),
        Instruction::Limit => values::limit(state),
        Instruction::NoLimit => values::no_limit(state),
        Instruction::Triplet => values::triplet(state),
        Instruction::TestShape => shapes::test_shape(state),
        Instruction::Begin => constructs::begin(state),
        Instruction::Swap => jumps::swap(state),
        Instruction::Stop(a0) => constructs::stop(state, a0),
        Instruction::SetPlace => constructs::set_place(state, place),
        Instruction::GoOn(a0) => jumps::go_on(state, a0, total),
        Instruction::GoBack(a0) => jumps::go_back(state, a0),
        Instruction::SkipIfFalse(a0) => jumps::skip_if_false(state, a0, total),
        Instruction::SkipIfTrue(a0) => jumps::skip_if_true(state, a0, total),
        Instruction::Meets(a0) => constructs::meets(state, a0),
        Instruction::Leave(a0, a1) => constructs::leave(state, a0, a1, total),
        Instruction::Depart(a0, a1) => constructs::depart(state, a0, a1, total),
        Instruction::SelectVariable => asking::select_variable(state),
        Instruction::SelectValue(a0) => values::select_value(state, a0),
        Instruction::Associated => associates::associated(state),
        Instruction::NextObject(a0) => dummies::next_object(state, a0, total),
        Instruction::Convert(a0) => operations::convert(state, a0),
        Instruction::TestStep => jumps::test_step(state),
        Instruction::CountNext(a0) => constructs::count_next(state, a0, total),
        Instruction::Lend => constructs::lend(state),
        Instruction::Unlend => constructs::unlend(state),
        Instruction::Discard => constructs::discard(state),
        Instruction::Dummies => dummies::dummies(state),
        Instruction::Outward => dummies::outward(state),
        Instruction::NextArgument(a0, a1) => dummies::next_argument(state, a0, a1, total),
        Instruction::Finish => constructs::finish(state),
        _ => Err(Stop::Lost),
    }
}
