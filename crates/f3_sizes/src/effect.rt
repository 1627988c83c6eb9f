//! How many cells instructions take and leave.

ghost use Rattle.std.specs.Prelude.{◌≡◌, ◌^◌, ◌<◌};
ghost use Rattle.f3_heights.specs.Effect.{effect, on, fork, jump, ends};
ghost use Rattle.f3_sizes.specs.Effect.{effect_in};

use f3_code::instruction::Instruction;

/// A way on, over so many lines, with so many cells left.
#[derive(Clone, Copy)]
pub(crate) struct Far {
    pub(crate) over: usize,
    pub(crate) left: usize,
}

/// How many cells an instruction takes, how many it leaves for the next line, where it may go on there, and its other ways on.
#[derive(Clone, Copy)]
pub(crate) struct Effect {
    pub(crate) takes: usize,
    pub(crate) next: Option<usize>,
    pub(crate) far: [Option<Far>; 3],
}

/// To the next line alone.
fn onward(takes: usize, left: usize) -> Effect
    ensures { effect_in result ≡ on takes left }
{
    Effect {
        takes,
        next: Some(left),
        far: [None, None, None],
    }
}

/// To the next line, or over so many lines with so many cells.
fn forked(takes: usize, left: usize, over: usize, cells: usize) -> Effect
    ensures { effect_in result ≡ fork takes left over cells }
{
    let far = Far { over, left: cells };
    Effect {
        takes,
        next: Some(left),
        far: [Some(far), None, None],
    }
}

/// Over so many lines alone.
fn jumping(takes: usize, over: usize, cells: usize) -> Effect
    ensures { effect_in result ≡ jump takes over cells }
{
    let far = Far { over, left: cells };
    Effect {
        takes,
        next: None,
        far: [Some(far), None, None],
    }
}

/// No way on.
fn ending(takes: usize) -> Effect
    ensures { effect_in result ≡ ends takes }
{
    Effect {
        takes,
        next: None,
        far: [None, None, None],
    }
}

/// To the next line, or to two others, with two cells each.
fn by_state(other: usize, unallocated: usize) -> Effect
    ensures { effect_in result ≡ effect (Instruction.ByState other unallocated) }
{
    let far = Far {
        over: other,
        left: 2,
    };
    let farther = Far {
        over: unallocated,
        left: 2,
    };
    Effect {
        takes: 2,
        next: Some(2),
        far: [Some(far), Some(farther), None],
    }
}

/// To the next line, over two, or to two others, with no cell.
fn departing(cycle: usize, exit: usize) -> Effect
    ensures { effect_in result ≡ effect (Instruction.Depart cycle exit) }
{
    let over = Far { over: 2, left: 0 };
    let cycled = Far {
        over: cycle,
        left: 0,
    };
    let left = Far {
        over: exit,
        left: 0,
    };
    Effect {
        takes: 1,
        next: Some(0),
        far: [Some(over), Some(cycled), Some(left)],
    }
}

/// What an instruction takes and leaves, and where.
pub(crate) fn effect_of(act: Instruction) -> Effect
    requires { (effect act).takes < 2 ^ 64 }
    ensures { effect_in result ≡ effect act }
{
    match act {
        Instruction::Begin
        | Instruction::PrintByte(_)
        | Instruction::SetPlace
        | Instruction::Unlend
        | Instruction::Discard => onward(0, 0),
        Instruction::Push(_)
        | Instruction::Refer(_)
        | Instruction::NoLimit
        | Instruction::NoError
        | Instruction::Meets(_)
        | Instruction::Dummies
        | Instruction::ResultOf(_)
        | Instruction::Outward => onward(0, 1),
        Instruction::Drop | Instruction::Check | Instruction::PrintValue => onward(1, 0),
        Instruction::ComponentOf(_)
        | Instruction::PassObject
        | Instruction::WorkComponent(_)
        | Instruction::WalkBegin
        | Instruction::OpenContents => onward(1, 2),
        Instruction::Take(_)
        | Instruction::Fill(_)
        | Instruction::TakeOver
        | Instruction::StoreStatus => onward(2, 0),
        Instruction::Binary(_, _)
        | Instruction::Bound(_)
        | Instruction::Dimension
        | Instruction::CountUp(_) => onward(2, 1),
        Instruction::TestShape
        | Instruction::TestRank(_)
        | Instruction::New(_)
        | Instruction::Swap
        | Instruction::LendBoth => onward(2, 2),
        Instruction::Associated => onward(2, 3),
        Instruction::Triplet | Instruction::EndAssociate => onward(3, 1),
        Instruction::CountBegin => onward(4, 1),
        Instruction::Array(count)
        | Instruction::Structure(_, count)
        | Instruction::Call(_, count) => { onward(count, 1) }
        Instruction::Select(_, count) | Instruction::Allocate(_, count) => onward(count + 1, 1),
        Instruction::SelectOf(_, _, count) => onward(count + 2, 1),
        Instruction::Unwind(count) => onward(count, 0),
        Instruction::Associate(count) => onward(count, 2),
        Instruction::ByState(other, unallocated) => by_state(other, unallocated),
        Instruction::Depart(cycle, exit) => departing(cycle, exit),
        Instruction::TestFree(over)
        | Instruction::CountNext(over)
        | Instruction::SkipUnlessRank(_, over)
        | Instruction::SkipUnlessAllocated(over) => forked(1, 1, over, 1),
        Instruction::SkipIfFailed(over) => forked(1, 0, over, 1),
        Instruction::SkipIfFalse(over) | Instruction::SkipIfTrue(over) => forked(1, 0, over, 0),
        Instruction::NextObject(over) | Instruction::NextArgument(_, over) => forked(1, 2, over, 1),
        Instruction::WalkNext(over) => forked(2, 3, over, 1),
        Instruction::GoOn(over) => jumping(0, over, 0),
        Instruction::Leave(_, over) => jumping(1, over, 1),
        Instruction::Stop(_) | Instruction::GoBack(_) | Instruction::Finish => ending(0),
        Instruction::Back => ending(1),
        Instruction::Return => ending(2),
        Instruction::Plain
        | Instruction::Unary(_, _)
        | Instruction::Result
        | Instruction::IsAllocated
        | Instruction::BoundsOfValue
        | Instruction::BoundsOfVariable
        | Instruction::Size
        | Instruction::Load
        | Instruction::PassValue(_)
        | Instruction::PassVariable(_)
        | Instruction::Component(_)
        | Instruction::Contents
        | Instruction::Subscript
        | Instruction::Limit
        | Instruction::Selecting
        | Instruction::SelectVariable
        | Instruction::SelectValue(_)
        | Instruction::Convert(_)
        | Instruction::TestStep
        | Instruction::Lend
        | Instruction::Routine(_)
        | Instruction::Free
        | Instruction::Clear
        | Instruction::Set => onward(1, 1),
    }
}
