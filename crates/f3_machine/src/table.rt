//! What the instructions do.

ghost use Rattle.std.specs.Prelude.{◌<◌, ◌^◌};
ghost use Rattle.f3_output.specs.Output.{state_of};
ghost use Rattle.f3_gen_values.specs.Emitted.{taken};
ghost use Rattle.f3_cells.specs.States.{setting};
ghost use Rattle.f3_machine.specs.Steps.{PerformsThere};

use crate::printing;
use f3_allocation_steps::{allocating, moving, states, work as parts};
use f3_call_steps::{associates, calls, returns};
use f3_cells::scene::Scene;
use f3_cells::state::{State, Stop};
use f3_code::instruction::Instruction;
use f3_control_steps::{constructs, dummies, jumps, values, work};
use f3_gen_values::line::Line;
use f3_object_steps::{assigning, counting, locating};
use f3_output::output::Output;
use f3_places::source::Place;
use f3_value_steps::{constructors, operations, queries, results, structures};
use std::alloc::Global;
use std::io::Write;

/// An instruction of a line, which takes the initial value of a type or none, at a place.
pub(crate) fn perform<W: Write>(
    alloc: Global,
    scene: &Scene<'_>,
    line: &Line,
    place: Place,
    state: &mut State,
    output: &mut Output<W>,
) -> Result<(), Stop>
    requires { state.old.pc < 2 ^ 63 }
    ensures { PerformsThere scene.now line.now.act (taken (setting scene.now.program.now) line.now.initial) place result state.old state.new
        (state_of W.contents output.old) (state_of W.contents output.new) }
{
    let total = scene.emission.lines.len();
    match line.act {
        Instruction::Push(a0) => values::push(state, a0),
        Instruction::Plain => values::plain(state),
        Instruction::Unary(a0, a1) => operations::unary(state, a0, a1),
        Instruction::Binary(a0, a1) => operations::binary(state, a0, a1),
        Instruction::Array(a0) => constructors::array(alloc, state, a0),
        Instruction::Structure(a0, a1) => structures::structure(alloc, scene, state, a0, a1),
        Instruction::Call(a0, a1) => calls::call(alloc, scene, state, a0, a1, place),
        Instruction::Result => results::result(state),
        Instruction::IsAllocated => states::is_allocated(state),
        Instruction::BoundsOfValue => values::bounds_of_value(alloc, state),
        Instruction::BoundsOfVariable => states::bounds_of_variable(alloc, state),
        Instruction::Size => queries::size(state),
        Instruction::Bound(a0) => queries::bound(state, a0),
        Instruction::Load => assigning::load(alloc, state),
        Instruction::PassValue(a0) => values::pass_value(state, a0),
        Instruction::PassVariable(a0) => values::pass_variable(state, a0),
        Instruction::Refer(a0) => locating::refer(alloc, scene, state, a0),
        Instruction::Component(a0) => locating::component(alloc, scene, state, a0),
        Instruction::ComponentOf(a0) => locating::component_of(alloc, scene, state, a0),
        Instruction::Contents => locating::contents(alloc, state),
        Instruction::Select(a0, a1) => locating::select(alloc, state, a0, a1),
        Instruction::SelectOf(a0, a1, a2) => locating::select_of(alloc, scene, state, a0, a1, a2),
        Instruction::Subscript => values::subscript(state),
        Instruction::Limit => values::limit(state),
        Instruction::NoLimit => values::no_limit(state),
        Instruction::Triplet => values::triplet(state),
        Instruction::TestShape => assigning::test_shape(state),
        Instruction::ByState(a0, a1) => states::by_state(state, a0, a1, total),
        Instruction::TestRank(a0) => states::test_rank(state, a0),
        Instruction::New(a0) => allocating::new(alloc, scene, state, line.initial, a0),
        Instruction::Take(a0) => assigning::take(alloc, state, a0),
        Instruction::Fill(a0) => assigning::fill(alloc, state, a0),
        Instruction::Begin => constructs::begin(state),
        Instruction::Drop => jumps::drop_top(state),
        Instruction::Unwind(a0) => jumps::unwind(state, a0),
        Instruction::Swap => jumps::swap(state),
        Instruction::LendBoth => work::lend_both(alloc, state),
        Instruction::TakeOver => moving::take_over(alloc, state),
        Instruction::Dimension => values::dimension(state),
        Instruction::Allocate(a0, a1) => allocating::allocate(
            alloc,
            scene,
            state,
            line.initial,
            a0,
            a1,
        ),
        Instruction::TestFree(a0) => states::test_free(state, a0, total),
        Instruction::NoError => jumps::no_error(state),
        Instruction::SkipIfFailed(a0) => jumps::skip_if_failed(state, a0, total),
        Instruction::Check => jumps::check(state),
        Instruction::StoreStatus => allocating::store_status(alloc, state),
        Instruction::PrintValue => printing::print_value(state, output),
        Instruction::PrintByte(a0) => printing::print_byte(state, a0, output),
        Instruction::Stop(a0) => constructs::stop(state, a0),
        Instruction::SetPlace => constructs::set_place(state, place),
        Instruction::GoOn(a0) => jumps::go_on(state, a0, total),
        Instruction::GoBack(a0) => jumps::go_back(state, a0),
        Instruction::SkipIfFalse(a0) => jumps::skip_if_false(state, a0, total),
        Instruction::SkipIfTrue(a0) => jumps::skip_if_true(state, a0, total),
        Instruction::Meets(a0) => constructs::meets(state, a0),
        Instruction::Selecting => constructs::selecting(alloc, state),
        Instruction::Leave(a0, a1) => constructs::leave(state, a0, a1, total),
        Instruction::Depart(a0, a1) => constructs::depart(state, a0, a1, total),
        Instruction::SelectVariable => constructs::select_variable(state),
        Instruction::SelectValue(a0) => constructs::select_value(state, a0),
        Instruction::Associate(a0) => associates::associate(alloc, state, a0),
        Instruction::Associated => constructs::associated(alloc, state),
        Instruction::NextObject(a0) => constructs::next_object(state, a0, total),
        Instruction::EndAssociate => associates::end_associate(state),
        Instruction::Convert(a0) => operations::convert(state, a0),
        Instruction::TestStep => jumps::test_step(state),
        Instruction::CountBegin => counting::count_begin(alloc, state),
        Instruction::CountNext(a0) => constructs::count_next(state, a0, total),
        Instruction::CountUp(a0) => counting::count_up(alloc, state, a0),
        Instruction::Lend => work::lend(alloc, state),
        Instruction::Unlend => work::unlend(state),
        Instruction::SkipUnlessRank(a0, a1) => work::skip_unless_rank(state, a0, a1, total),
        Instruction::PassObject => work::pass_object(alloc, state),
        Instruction::Routine(a0) => work::routine(scene, state, a0, place),
        Instruction::Back => work::back(state),
        Instruction::WorkComponent(a0) => parts::work_component(alloc, scene, state, a0),
        Instruction::WalkBegin => parts::walk_begin(alloc, state),
        Instruction::WalkNext(a0) => parts::walk_next(alloc, state, a0, total),
        Instruction::SkipUnlessAllocated(a0) => states::skip_unless_allocated(state, a0, total),
        Instruction::OpenContents => parts::open_contents(alloc, state),
        Instruction::Free => parts::free(alloc, state),
        Instruction::Clear => parts::clear(alloc, state),
        Instruction::Set => allocating::set(alloc, scene, state, line.initial),
        Instruction::Discard => constructs::discard(state),
        Instruction::Dummies => dummies::dummies(alloc, state),
        Instruction::ResultOf(a0) => returns::result_of(alloc, state, a0),
        Instruction::Outward => dummies::outward(alloc, state),
        Instruction::NextArgument(a0, a1) => dummies::next_argument(state, a0, a1, total),
        Instruction::Return => returns::return_to_caller(state),
        Instruction::Finish => constructs::finish(state),
    }
}
