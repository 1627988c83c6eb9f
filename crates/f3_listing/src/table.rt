//! The table of what is shown of each instruction.

ghost use Rattle.std.specs.Prelude.{◌≡◌};
ghost use Rattle.f3_code.specs.declared.instruction.Instruction.TheVariants as instruction;
ghost use Rattle.f3_listing.specs.Listing.{operation};
ghost use Rattle.f3_listing.specs.Inner.Shown.{operation_of};

use crate::operation::{
    Operands, Shown, alone, binary_word, constant, one, two, typed, unary_word,
};
use f3_code::instruction::{Instruction, Way};
use f3_program::expression::{Name, Query};
use f3_program::statement::Range;

/// What is asked of a dimension.
#[tactic(auto, unfolding(crate::specs::Listing::operation))]
fn bound(query: Query) -> Shown
    ensures { operation_of result ≡ operation (instruction.Bound query) }
{
    match query {
        Query::Extent => alone("bound_extent"),
        Query::Lower => alone("bound_lower"),
        Query::Upper => alone("bound_upper"),
    }
}

/// The object that a name means.
#[tactic(auto, unfolding(crate::specs::Listing::operation))]
fn refer(name: Name) -> Shown
    ensures { operation_of result ≡ operation (instruction.Refer name) }
{
    match name {
        Name::Static(number) => one("refer_static", number),
        Name::Local(number) => one("refer_local", number),
        Name::Lent(number) => one("refer_lent", number),
    }
}

/// Elements by so many subscripts.
#[tactic(auto, unfolding(crate::specs::Listing::operation))]
fn select(of_contents: bool, subscripts: usize) -> Shown
    ensures { operation_of result ≡ operation (instruction.Select of_contents subscripts) }
{
    let name = if of_contents {
        "select_contents"
    } else {
        "select"
    };
    one(name, subscripts)
}

/// Elements of a component by so many subscripts.
#[tactic(auto, unfolding(crate::specs::Listing::operation))]
fn select_of(of_contents: bool, first: usize, second: usize) -> Shown
    ensures { operation_of result ≡ operation (instruction.SelectOf of_contents first second) }
{
    let name = if of_contents {
        "select_contents_of"
    } else {
        "select_of"
    };
    two(name, first, second)
}

/// The end of the run.
#[tactic(auto, unfolding(crate::specs::Listing::operation))]
fn stop(code: Option<u32>) -> Shown
    ensures { operation_of result ≡ operation (instruction.Stop code) }
{
    match code {
        None => alone("stop"),
        Some(code) => one("stop_with", code as usize),
    }
}

/// Whether a value is in a range.
#[tactic(auto, unfolding(crate::specs::Listing::operation))]
fn meets(range: Range) -> Shown
    ensures { operation_of result ≡ operation (instruction.Meets range) }
{
    let (name, operands) = match range {
        Range::One(value) => return constant("meets", value),
        Range::From(lower) => ("meets_from", Operands::Integer(lower)),
        Range::To(upper) => ("meets_to", Operands::Integer(upper)),
        Range::Between(lower, upper) => ("meets_between", Operands::Integers(lower, upper)),
    };
    Shown {
        name,
        ending: "",
        operands,
    }
}

/// How a construct is left.
#[tactic(auto, unfolding(crate::specs::Listing::operation))]
fn leave(way: Way, distance: usize) -> Shown
    ensures { operation_of result ≡ operation (instruction.Leave way distance) }
{
    match way {
        Way::Onward => one("leave_onward", distance),
        Way::Cycle => one("leave_cycle", distance),
        Way::Exit => one("leave_exit", distance),
        Way::Return => one("leave_return", distance),
    }
}

/// The value of a function's result.
#[tactic(auto, unfolding(crate::specs::Listing::operation))]
fn result_of(variable: Option<usize>) -> Shown
    ensures { operation_of result ≡ operation (instruction.ResultOf variable) }
{
    match variable {
        None => alone("no_result"),
        Some(variable) => one("result_of", variable),
    }
}

/// What is shown of an instruction.
#[tactic(auto, unfolding(crate::specs::Listing::operation))]
pub fn shown(act: Instruction) -> Shown
    ensures { operation_of result ≡ operation act }
{
    match act {
        Instruction::Push(value) => constant("push", value),
        Instruction::Plain => alone("plain"),
        Instruction::Unary(operator, base) => typed(unary_word(operator), base),
        Instruction::Binary(operator, base) => typed(binary_word(operator), base),
        Instruction::Array(count) => one("array", count),
        Instruction::Structure(number, count) => two("structure", number, count),
        Instruction::Call(number, count) => two("call", number, count),
        Instruction::Result => alone("result"),
        Instruction::IsAllocated => alone("is_allocated"),
        Instruction::BoundsOfValue => alone("bounds_of_value"),
        Instruction::BoundsOfVariable => alone("bounds_of_variable"),
        Instruction::Size => alone("size"),
        Instruction::Bound(query) => bound(query),
        Instruction::Load => alone("load"),
        Instruction::PassValue(number) => one("pass_value", number),
        Instruction::PassVariable(number) => one("pass_variable", number),
        Instruction::Refer(name) => refer(name),
        Instruction::Component(number) => one("component", number),
        Instruction::ComponentOf(number) => one("component_of", number),
        Instruction::Contents => alone("contents"),
        Instruction::Select(of_contents, count) => select(of_contents, count),
        Instruction::SelectOf(of_contents, first, second) => select_of(of_contents, first, second),
        Instruction::Subscript => alone("subscript"),
        Instruction::Limit => alone("limit"),
        Instruction::NoLimit => alone("no_limit"),
        Instruction::Triplet => alone("triplet"),
        Instruction::TestShape => alone("test_shape"),
        Instruction::ByState(first, second) => two("by_state", first, second),
        Instruction::TestRank(rank) => one("test_rank", rank),
        Instruction::New(rank) => one("new", rank),
        Instruction::Take(base) => typed("take", base),
        Instruction::Fill(base) => typed("fill", base),
        Instruction::Begin => alone("begin"),
        Instruction::Drop => alone("drop"),
        Instruction::Unwind(count) => one("unwind", count),
        Instruction::Swap => alone("swap"),
        Instruction::LendBoth => alone("lend_both"),
        Instruction::TakeOver => alone("take_over"),
        Instruction::Dimension => alone("dimension"),
        Instruction::Allocate(rank, count) => two("allocate", rank, count),
        Instruction::TestFree(distance) => one("test_free", distance),
        Instruction::NoError => alone("no_error"),
        Instruction::SkipIfFailed(distance) => one("skip_if_failed", distance),
        Instruction::Check => alone("check"),
        Instruction::StoreStatus => alone("store_status"),
        Instruction::PrintValue => alone("print_value"),
        Instruction::PrintByte(byte) => one("print_byte", usize::from(byte)),
        Instruction::Stop(code) => stop(code),
        Instruction::SetPlace => alone("set_place"),
        Instruction::GoOn(distance) => one("go_on", distance),
        Instruction::GoBack(distance) => one("go_back", distance),
        Instruction::SkipIfFalse(distance) => one("skip_if_false", distance),
        Instruction::SkipIfTrue(distance) => one("skip_if_true", distance),
        Instruction::Meets(range) => meets(range),
        Instruction::Selecting => alone("selecting"),
        Instruction::Leave(way, distance) => leave(way, distance),
        Instruction::Depart(first, second) => two("depart", first, second),
        Instruction::SelectVariable => alone("select_variable"),
        Instruction::SelectValue(base) => typed("select_value", base),
        Instruction::Associate(count) => one("associate", count),
        Instruction::Associated => alone("associated"),
        Instruction::NextObject(distance) => one("next_object", distance),
        Instruction::EndAssociate => alone("end_associate"),
        Instruction::Convert(base) => typed("convert", base),
        Instruction::TestStep => alone("test_step"),
        Instruction::CountBegin => alone("count_begin"),
        Instruction::CountNext(distance) => one("count_next", distance),
        Instruction::CountUp(base) => typed("count_up", base),
        Instruction::Lend => alone("lend"),
        Instruction::Unlend => alone("unlend"),
        Instruction::SkipUnlessRank(rank, distance) => two("skip_unless_rank", rank, distance),
        Instruction::PassObject => alone("pass_object"),
        Instruction::Routine(number) => one("routine", number),
        Instruction::Back => alone("back"),
        Instruction::WorkComponent(number) => one("work_component", number),
        Instruction::WalkBegin => alone("walk_begin"),
        Instruction::WalkNext(distance) => one("walk_next", distance),
        Instruction::SkipUnlessAllocated(distance) => one("skip_unless_allocated", distance),
        Instruction::OpenContents => alone("open_contents"),
        Instruction::Free => alone("free"),
        Instruction::Clear => alone("clear"),
        Instruction::Set => alone("set"),
        Instruction::Discard => alone("discard"),
        Instruction::Dummies => alone("dummies"),
        Instruction::ResultOf(variable) => result_of(variable),
        Instruction::Outward => alone("outward"),
        Instruction::NextArgument(number, distance) => two("next_argument", number, distance),
        Instruction::Return => alone("return"),
        Instruction::Finish => alone("finish"),
    }
}
