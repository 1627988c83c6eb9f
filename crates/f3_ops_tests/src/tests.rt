//! Ops, found in the code of small statements.

use f3_code::instruction::Instruction;
use f3_gen_values::line::Line;
use f3_ops::op::{Op, Stretch, Value};
use f3_ops::reading::ops;
use f3_program::declarations::{Base, Constant};
use f3_program::expression::{BinaryOperator, Name};
use f3_program::statement::Range;
use std::alloc::{AllocError, Global};
use std::test::Fail;

/// A line that takes no initial value.
fn plain(act: Instruction) -> Line {
    Line {
        place: None,
        initial: None,
        act,
    }
}

/// What a value is of.
fn value_name(value: &Value) -> &'static str {
    match value {
        Value::New(_) => "new",
        Value::Rest(_) => "rest",
    }
}

/// What an op is.
fn op_name(op: &Op) -> &'static str {
    match op {
        Op::Deed(_) => "deed",
        Op::Give(_, _) => "give",
        Op::Put(value) => value_name(value),
        Op::Lend(_, _) | Op::LendElement(_, _) => "lend",
        Op::Call(_, _) => "call",
        Op::Result => "result",
        Op::Assign(_, _, _, _) => "assign",
        Op::Skip(_, _, _) => "skip",
        Op::Limit(_, _) => "limit",
        Op::Count(_) => "count",
        Op::Case(_, _, _) => "case",
        Op::Print(_) => "print",
        Op::Allocate(_, None) => "one",
        Op::Allocate(_, Some(_)) => "array",
        Op::Deallocate(_) => "deallocate",
        Op::Move(_, _, _) => "move",
        _ => "other",
    }
}

/// The line of each op, what it is, and how many lines follow.
fn shown(alloc: Global, found: &[Option<Box<Stretch>>]) -> Result<String, AllocError> {
    let mut text = String::new(alloc);
    let mut pc: usize = 0;
    for stretch in found {
        if let Some(stretch) = stretch {
            let name = op_name(&stretch.op);
            let following = stretch.following;
            text.push_str(&format!(in alloc; "{pc} {name} {following}\n")?)?;
        }
        pc = pc.saturating_add(1);
    }
    Ok(text)
}

const FIRST: Instruction = Instruction::Refer(Name::Lent(0));

const LAST: Instruction = Instruction::Refer(Name::Local(0));

const ADD: Instruction = Instruction::Binary(BinaryOperator::Add, Base::Integer);

const SUBTRACT: Instruction = Instruction::Binary(BinaryOperator::Subtract, Base::Integer);

#[test]
fn two_calls_within_a_sum(rt: HostRuntime) -> Result<(), Fail> {
    let lines = [
        plain(Instruction::Begin),
        plain(FIRST),
        plain(Instruction::Load),
        plain(Instruction::Push(Constant::Number(1))),
        plain(SUBTRACT),
        plain(Instruction::PassValue(0)),
        plain(Instruction::Call(0, 1)),
        plain(Instruction::Result),
        plain(FIRST),
        plain(Instruction::Load),
        plain(Instruction::Push(Constant::Number(2))),
        plain(SUBTRACT),
        plain(Instruction::PassValue(0)),
        plain(Instruction::Call(0, 1)),
        plain(Instruction::Result),
        plain(ADD),
        plain(LAST),
        plain(Instruction::TestShape),
        plain(Instruction::Fill(Base::Integer)),
    ];
    let found = ops(rt.alloc(), &lines)?;
    let text = shown(rt.alloc(), &found)?;
    let expected = "0 other 0\n1 give 4\n6 call 0\n7 result 0\n8 give 4\n13 call 0\n14 assign 4\n";
    assert_eq!(rt; text.as_str(), expected);
    Ok(())
}

#[test]
fn a_value_stays_beneath_a_call(rt: HostRuntime) -> Result<(), Fail> {
    let lines = [
        plain(FIRST),
        plain(Instruction::Load),
        plain(Instruction::Push(Constant::Number(7))),
        plain(ADD),
        plain(LAST),
        plain(Instruction::PassVariable(0)),
        plain(Instruction::Call(0, 1)),
        plain(Instruction::Result),
        plain(Instruction::Push(Constant::Number(3))),
        plain(ADD),
        plain(ADD),
        plain(Instruction::PrintValue),
        plain(Instruction::PrintByte(10)),
    ];
    let found = ops(rt.alloc(), &lines)?;
    let text = shown(rt.alloc(), &found)?;
    let expected = "0 new 3\n4 lend 1\n6 call 0\n7 print 4\n12 other 0\n";
    assert_eq!(rt; text.as_str(), expected);
    Ok(())
}

#[test]
fn the_bounds_of_a_loop_and_a_case(rt: HostRuntime) -> Result<(), Fail> {
    let lines = [
        plain(Instruction::Push(Constant::Number(1))),
        plain(Instruction::Convert(Base::Integer)),
        plain(FIRST),
        plain(Instruction::Load),
        plain(Instruction::Convert(Base::Integer)),
        plain(Instruction::Push(Constant::Number(1))),
        plain(Instruction::Convert(Base::Integer)),
        plain(Instruction::TestStep),
        plain(LAST),
        plain(Instruction::CountBegin),
        plain(Instruction::CountNext(5)),
        plain(Instruction::Meets(Range::One(Constant::Number(4)))),
        plain(Instruction::SkipIfTrue(1)),
        plain(Instruction::GoOn(2)),
    ];
    let found = ops(rt.alloc(), &lines)?;
    let text = shown(rt.alloc(), &found)?;
    let expected =
        "0 limit 1\n2 limit 2\n5 limit 1\n7 other 0\n8 count 1\n10 deed 0\n11 case 1\n13 deed 0\n";
    assert_eq!(rt; text.as_str(), expected);
    Ok(())
}

#[test]
fn an_array_is_allocated_and_a_scalar(rt: HostRuntime) -> Result<(), Fail> {
    let lines = [
        plain(Instruction::Begin),
        plain(FIRST),
        plain(Instruction::Component(0)),
        plain(Instruction::Push(Constant::Number(1))),
        plain(LAST),
        plain(Instruction::Load),
        plain(Instruction::Dimension),
        plain(Instruction::Allocate(1, 1)),
        plain(Instruction::SkipIfFailed(1)),
        plain(Instruction::NoError),
        plain(Instruction::Check),
        plain(Instruction::Begin),
        plain(LAST),
        plain(Instruction::Allocate(0, 0)),
        plain(Instruction::SkipIfFailed(1)),
        plain(Instruction::NoError),
        plain(Instruction::Check),
        plain(Instruction::Begin),
    ];
    let found = ops(rt.alloc(), &lines)?;
    let text = shown(rt.alloc(), &found)?;
    let expected = "0 other 0\n1 array 9\n11 other 0\n12 one 4\n17 other 0\n";
    assert_eq!(rt; text.as_str(), expected);
    Ok(())
}

#[test]
fn a_status_is_stored(rt: HostRuntime) -> Result<(), Fail> {
    let lines = [
        plain(FIRST),
        plain(Instruction::Allocate(0, 0)),
        plain(Instruction::SkipIfFailed(1)),
        plain(Instruction::NoError),
        plain(LAST),
        plain(Instruction::StoreStatus),
        plain(Instruction::Begin),
    ];
    let found = ops(rt.alloc(), &lines)?;
    let text = shown(rt.alloc(), &found)?;
    assert_eq!(rt; text.as_str(), "6 other 0\n");
    Ok(())
}

#[test]
fn an_object_is_deallocated_or_moves(rt: HostRuntime) -> Result<(), Fail> {
    let lines = [
        plain(FIRST),
        plain(Instruction::Component(2)),
        plain(Instruction::TestFree(5)),
        plain(Instruction::OpenContents),
        plain(Instruction::Drop),
        plain(Instruction::Free),
        plain(Instruction::Drop),
        plain(Instruction::NoError),
        plain(Instruction::SkipIfFailed(1)),
        plain(Instruction::NoError),
        plain(Instruction::Check),
        plain(FIRST),
        plain(LAST),
        plain(Instruction::LendBoth),
        plain(Instruction::SkipUnlessAllocated(3)),
        plain(Instruction::OpenContents),
        plain(Instruction::Drop),
        plain(Instruction::Free),
        plain(Instruction::TakeOver),
        plain(Instruction::Begin),
    ];
    let found = ops(rt.alloc(), &lines)?;
    let text = shown(rt.alloc(), &found)?;
    assert_eq!(rt; text.as_str(), "0 deallocate 10\n11 move 7\n19 other 0\n");
    Ok(())
}
