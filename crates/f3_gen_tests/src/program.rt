//! Small programs, and their code.

use f3_code::instruction::Instruction;
use f3_gen_program::program::emit_program;
use f3_gen_values::emission::Emission;
use f3_places::source::Place;
use f3_program::declarations::{Base, Component, Constant, Declared, Derived, Kind};
use f3_program::expression::Expression;
use f3_program::program::{Procedure, Program};
use f3_program::statement::{Item, Statement};
use std::alloc::{AllocError, Global};
use std::test::Fail;

/// Where all of the program stands.
fn here() -> Place {
    Place {
        file: 1,
        line: 1,
        column: 1,
    }
}

/// A PRINT of a text.
fn print(alloc: Global, text: &str) -> Result<Statement, AllocError> {
    let bytes = Vec::from_slice(alloc, text.as_bytes())?;
    let mut items = Vec::new(alloc);
    items.push(Item::Text(bytes))?;
    Ok(Statement::Print(items))
}

/// A program with this body.
fn of(alloc: Global, body: Statement) -> Program {
    Program {
        types: Vec::new(alloc),
        statics: Vec::new(alloc),
        procedures: Vec::new(alloc),
        main: Procedure {
            unit: 0,
            dummies: Vec::new(alloc),
            locals: Vec::new(alloc),
            result: None,
            body,
            end: here(),
        },
        start: here(),
    }
}

/// The bytes that lines print.
fn printed(alloc: Global, emission: &Emission) -> Result<Vec<u8>, AllocError> {
    let mut bytes = Vec::new(alloc);
    for line in &emission.lines {
        if let Instruction::PrintByte(byte) = line.act {
            bytes.push(byte)?;
        }
    }
    Ok(bytes)
}

/// How many lines a program has, and the bytes that they print.
fn found(alloc: Global, program: &Program) -> Result<(usize, Vec<u8>), AllocError> {
    let emission = emit_program(alloc, program)?;
    let bytes = printed(alloc, &emission)?;
    Ok((emission.lines.len(), bytes))
}

/// The same of a program that prints a text.
fn of_text(alloc: Global, text: &str) -> Result<(usize, Vec<u8>), AllocError> {
    let program = of(alloc, print(alloc, text)?);
    let answer = found(alloc, &program);
    drop(program);
    answer
}

/// How far back lines jump, the last that does.
fn farthest_back(emission: &Emission) -> usize {
    let mut distance = 0;
    for line in &emission.lines {
        if let Instruction::GoBack(lines) = line.act {
            distance = lines;
        }
    }
    distance
}

/// How many lines a program has, and how far back they jump.
fn turned(alloc: Global, program: &Program) -> Result<(usize, usize), AllocError> {
    let emission = emit_program(alloc, program)?;
    Ok((emission.lines.len(), farthest_back(&emission)))
}

/// A DO with nothing in it but a CYCLE.
fn endless(alloc: Global) -> Result<(usize, usize), AllocError> {
    let body = Box::new(alloc, Statement::Cycle)?;
    let condition = Expression::Literal(Constant::Truth(true));
    let program = of(alloc, Statement::While(condition, body));
    let answer = turned(alloc, &program);
    drop(program);
    answer
}

/// What is declared with a type and nothing else.
fn declared(alloc: Global, of: Base, is_allocatable: bool) -> Declared {
    Declared {
        kind: Kind {
            of,
            rank: 0,
            is_allocatable,
        },
        dimensions: Vec::new(alloc),
        initial: Vec::new(alloc),
    }
}

/// A type with one component.
fn holding(alloc: Global, declared: Declared) -> Result<Derived, AllocError> {
    let mut components = Vec::new(alloc);
    components.push(Component {
        declared,
        is_private: false,
    })?;
    Ok(Derived {
        home: 0,
        components,
        finals: Vec::new(alloc),
    })
}

/// A subroutine with one variable of a type.
fn with_local(alloc: Global, of: Base) -> Result<Procedure, AllocError> {
    let mut locals = Vec::new(alloc);
    locals.push(declared(alloc, of, false))?;
    Ok(Procedure {
        unit: 0,
        dummies: Vec::new(alloc),
        locals,
        result: None,
        body: Statement::Return,
        end: here(),
    })
}

/// How often objects are lent to be destroyed, in the code of a program.
fn lent(alloc: Global, program: &Program) -> Result<usize, AllocError> {
    let emission = emit_program(alloc, program)?;
    Ok(
        emission
            .lines
            .iter()
            .filter(|line| matches!(line.act, Instruction::Lend))
            .count(),
    )
}

/// The same of a program with a variable of a type that has a component of another, which has a number, allocatable or not.
fn nested(alloc: Global, is_allocatable: bool) -> Result<usize, AllocError> {
    let mut program = of(alloc, print(alloc, "")?);
    let inner = holding(alloc, declared(alloc, Base::Integer, is_allocatable))?;
    program.types.push(inner)?;
    let outer = holding(alloc, declared(alloc, Base::Derived(0), false))?;
    program.types.push(outer)?;
    program
        .procedures
        .push(with_local(alloc, Base::Derived(1))?)?;
    let answer = lent(alloc, &program);
    drop(program);
    answer
}

#[test]
fn what_is_allocated_is_destroyed(rt: HostRuntime) -> Result<(), Fail> {
    let count = nested(rt.alloc(), true)?;
    assert_eq!(rt; count, 2);
    Ok(())
}

#[test]
fn nothing_else_is_destroyed(rt: HostRuntime) -> Result<(), Fail> {
    let count = nested(rt.alloc(), false)?;
    assert_eq!(rt; count, 0);
    Ok(())
}

#[test]
fn loop_goes_back(rt: HostRuntime) -> Result<(), Fail> {
    let (count, distance) = endless(rt.alloc())?;
    assert_eq!(rt; count, 6);
    assert_eq!(rt; distance, 3);
    Ok(())
}

#[test]
fn text_is_printed(rt: HostRuntime) -> Result<(), Fail> {
    let (count, bytes) = of_text(rt.alloc(), "Hi")?;
    assert_eq!(rt; count, 6);
    assert_eq!(rt; bytes.as_slice(), b" Hi\n".as_slice());
    Ok(())
}
