//! Ops, made of a few acts.

use f3_program::expression::Query;
use f3_register_code::act::Act;
use f3_register_code::code::RegisterCode;
use f3_register_ops::op::Op;
use f3_register_ops::ops::Ops;
use std::alloc::{AllocError, Global};
use std::test::Fail;

/// What an op does.
fn op_name(op: &Op) -> &'static str {
    match op {
        Op::Multiply(..) => "multiply",
        Op::MultiplyThenAddTo(..) => "multiply, add to",
        Op::MultiplyThenModFixed(..) => "multiply, mod",
        Op::Add(..) => "add",
        Op::AddThenReturn(..) => "add, return",
        Op::ModFixed(..) => "mod",
        Op::ModFixedThenJumpIfDiffersFixed(..) => "mod, jump",
        Op::JumpIfDiffersFixed(..) => "jump",
        Op::SetElement(..) => "set",
        Op::SetElementThenAgain(..) => "set, again",
        Op::Again(..) => "again",
        Op::LendLocal(..) => "lend",
        Op::LendLocalThenCall(..) => "lend, call",
        Op::LendOpened(..) => "lend part",
        Op::LendOpenedThenGetBy(..) => "lend part, get",
        Op::LendOpenedThenSetBy(..) => "lend part, set",
        Op::LendOpenedThenSetBySmall(..) => "lend part, set small",
        Op::GetBy(..) => "get",
        Op::GetState(..) => "state",
        Op::GetBound(..) => "bound",
        Op::Call(..) => "call",
        Op::Return(..) => "return",
        Op::Release(..) => "release",
        Op::ReleaseNothing(..) => "release nothing",
        Op::CopyBy(..) => "copy",
        Op::ClearBy(..) => "clear",
        Op::Allocate(..) => "allocate",
        Op::Move(..) => "move",
        _ => "other",
    }
}

/// The ops of acts, one in each line.
fn shown(alloc: Global, acts: &[Act]) -> Result<String, AllocError> {
    let mut own = Vec::new(alloc);
    for act in acts {
        own.push(*act)?;
    }
    let code = RegisterCode {
        acts: own,
        arrays: Vec::new(alloc),
        unary: Vec::new(alloc),
        binary: Vec::new(alloc),
        sites: Vec::new(alloc),
        ends: Vec::new(alloc),
    };
    let ops = Ops::new(alloc, &code)?;
    let mut text = String::new(alloc);
    for op in &ops.each {
        text.push_str(op_name(op))?;
        text.push_str("\n")?;
    }
    Ok(text)
}

#[test]
fn two_acts_are_one_op(rt: HostRuntime) -> Result<(), Fail> {
    let acts = [
        Act::Multiply(2, 0, 1, 0),
        Act::ModFixed(3, 2, 7, 0),
        Act::JumpIfDiffersFixed(3, 0, 6, 9),
        Act::Multiply(2, 0, 1, 0),
        Act::Add(4, 4, 2, 8),
        Act::SetElement(0, 1, 4, 8),
        Act::Again(1, 5, 0, 4),
    ];
    let text = shown(rt.alloc(), &acts)?;
    let expected = "multiply, mod\nmod, jump\njump\nmultiply, add to\nadd\nset, again\nagain\n";
    assert_eq!(rt; text.as_str(), expected);
    Ok(())
}

#[test]
fn a_slot_is_another_or_a_stretch_ends(rt: HostRuntime) -> Result<(), Fail> {
    let acts = [
        Act::Multiply(2, 0, 1, 0),
        Act::ModFixed(3, 4, 7, 0),
        Act::Multiply(2, 0, 1, 5),
        Act::ModFixed(3, 2, 7, 9),
    ];
    let text = shown(rt.alloc(), &acts)?;
    assert_eq!(rt; text.as_str(), "multiply\nmod\nmultiply\nmod\n");
    Ok(())
}

#[test]
fn another_loop_does_the_second_act(rt: HostRuntime) -> Result<(), Fail> {
    let acts = [
        Act::LendLocal(4, 3),
        Act::Call(0, 4, 7),
        Act::Add(0, 1, 2, 5),
        Act::Return(0, 6),
    ];
    let text = shown(rt.alloc(), &acts)?;
    assert_eq!(rt; text.as_str(), "lend, call\ncall\nadd, return\nreturn\n");
    Ok(())
}

#[test]
fn a_part_is_lent_for_one_access(rt: HostRuntime) -> Result<(), Fail> {
    let acts = [
        Act::LendOpened(5, 0, 3, 2, 4, 1),
        Act::GetBy(7, 5, 0),
        Act::LendOpened(5, 0, 3, 2, 4, 1),
        Act::SetBySmall(5, 7, 9),
        Act::LendOpened(5, 0, 3, 2, 4, 1),
        Act::SetBy(5, 7, 9),
        Act::LendOpened(5, 0, 3, 2, 4, 1),
        Act::GetBy(7, 6, 0),
    ];
    let text = shown(rt.alloc(), &acts)?;
    let expected =
        "lend part, get\nget\nlend part, set small\nother\nlend part, set\nother\nlend part\nget\n";
    assert_eq!(rt; text.as_str(), expected);
    Ok(())
}

#[test]
fn what_an_allocatable_tells_is_read_alone(rt: HostRuntime) -> Result<(), Fail> {
    let acts = [
        Act::GetState(5, 0, 3, 0),
        Act::GetBound(5, 0, 3, 1, Query::Upper, 0),
        Act::GetBy(7, 5, 0),
    ];
    let text = shown(rt.alloc(), &acts)?;
    assert_eq!(rt; text.as_str(), "state\nbound\nget\n");
    Ok(())
}

#[test]
fn what_a_procedure_holds_is_released_alone(rt: HostRuntime) -> Result<(), Fail> {
    let acts = [
        Act::Add(0, 1, 2, 5),
        Act::Release(0, 1, 6),
        Act::SetBySmall(0, 2, 5),
        Act::ReleaseNothing(2, 6),
    ];
    let text = shown(rt.alloc(), &acts)?;
    assert_eq!(rt; text.as_str(), "add\nrelease\nother\nrelease nothing\n");
    Ok(())
}

#[test]
fn whole_objects_and_what_is_held_change_alone(rt: HostRuntime) -> Result<(), Fail> {
    let acts = [
        Act::ClearBy(0, 12, 4),
        Act::CopyBy(0, 2, 12, 9),
        Act::Allocate(4, 0, 3, 5, 6, 7, 8),
        Act::Move(0, 3, 2, 0, true, 8),
    ];
    let text = shown(rt.alloc(), &acts)?;
    assert_eq!(rt; text.as_str(), "clear\ncopy\nallocate\nmove\n");
    Ok(())
}

#[test]
fn acts_and_ops_are_short(rt: HostRuntime) -> Result<(), Fail> {
    assert_eq!(rt; size_of::<Act>(), 24);
    assert_eq!(rt; size_of::<Op>(), 32);
    Ok(())
}
