//! Acts as lines: what an act is, in words, its numbers, and behind a bar how many instructions the stretch has that it ends.

use f3_program::expression::Query;
use f3_register_code::act::{Act, Slot};
use std::alloc::{AllocError, Global};

/// A line for an act.
fn line(
    alloc: Global,
    words: &str,
    numbers: &[i64],
    instructions: u16,
) -> Result<String, AllocError> {
    let mut text = String::from_str(alloc, words)?;
    for number in numbers {
        let word = format!(in alloc; " {number}")?;
        text.push_str(&word)?;
    }
    let behind = format!(in alloc; " | {instructions}")?;
    text.push_str(&behind)?;
    Ok(text)
}

/// A line for an act that goes on at another one, where a number and another compare so.
fn compared(
    alloc: Global,
    words: &str,
    x: Slot,
    y: i64,
    to: u32,
    n: u16,
) -> Result<String, AllocError> {
    line(alloc, words, &[x as i64, y, to as i64], n)
}

/// An act that compares two numbers and goes on at another act, or that leaves.
fn comparing(alloc: Global, act: Act) -> Result<String, AllocError> {
    match act {
        Act::JumpIfEqual(x, y, to, n) => compared(alloc, "jump if equal", x, y as i64, to, n),
        Act::JumpIfDiffers(x, y, to, n) => compared(alloc, "jump if differs", x, y as i64, to, n),
        Act::JumpIfLess(x, y, to, n) => compared(alloc, "jump if less", x, y as i64, to, n),
        Act::JumpIfAtMost(x, y, to, n) => compared(alloc, "jump if at most", x, y as i64, to, n),
        Act::JumpIfEqualFixed(x, z, to, n) => {
            compared(alloc, "jump if equal fixed", x, z as i64, to, n)
        }
        Act::JumpIfDiffersFixed(x, z, to, n) => {
            compared(alloc, "jump if differs fixed", x, z as i64, to, n)
        }
        Act::JumpIfLessFixed(x, z, to, n) => {
            compared(alloc, "jump if less fixed", x, z as i64, to, n)
        }
        Act::JumpIfAtMostFixed(x, z, to, n) => {
            compared(alloc, "jump if at most fixed", x, z as i64, to, n)
        }
        Act::JumpIfMoreFixed(x, z, to, n) => {
            compared(alloc, "jump if more fixed", x, z as i64, to, n)
        }
        Act::JumpIfAtLeastFixed(x, z, to, n) => {
            compared(alloc, "jump if at least fixed", x, z as i64, to, n)
        }
        _ => line(alloc, "leave", &[], 0),
    }
}

/// An act of a DO, of a procedure or of the end, or one that goes on at another.
fn calling(alloc: Global, act: Act) -> Result<String, AllocError> {
    match act {
        Act::Jump(to, n) => line(alloc, "jump", &[to as i64], n),
        Act::JumpIf(x, to, n) => line(alloc, "jump if", &[x as i64, to as i64], n),
        Act::JumpUnless(x, to, n) => line(alloc, "jump unless", &[x as i64, to as i64], n),
        Act::Count(n, v, t, x, y, z) => {
            line(
                alloc,
                "count",
                &[v as i64, t as i64, x as i64, y as i64, z as i64],
                n,
            )
        }
        Act::Next(t, to, n) => line(alloc, "next", &[t as i64, to as i64], n),
        Act::Again(v, t, to, n) => line(alloc, "again", &[v as i64, t as i64, to as i64], n),
        Act::Call(k, from, n) => line(alloc, "call", &[k as i64, from as i64], n),
        Act::Return(x, n) => line(alloc, "return", &[x as i64], n),
        Act::ReturnNothing(n) => line(alloc, "return nothing", &[], n),
        Act::Release(x, k, n) => line(alloc, "release", &[x as i64, k as i64], n),
        Act::ReleaseNothing(k, n) => line(alloc, "release nothing", &[k as i64], n),
        Act::PrintNumber(x, n) => line(alloc, "print number", &[x as i64], n),
        Act::PrintTruth(x, n) => line(alloc, "print truth", &[x as i64], n),
        Act::PrintByte(b, n) => line(alloc, "print byte", &[b as i64], n),
        Act::Finish(n) => line(alloc, "finish", &[], n),
        Act::Stop(Some(code), n) => line(alloc, "stop", &[code as i64], n),
        Act::Stop(None, n) => line(alloc, "stop", &[], n),
        _ => comparing(alloc, act),
    }
}

/// An act that changes what an allocatable holds or the words of a whole object, or one of those that call.
fn changing(alloc: Global, act: Act) -> Result<String, AllocError> {
    match act {
        Act::AllocateOne(r, behind, width, counted, n) => {
            line(
                alloc,
                "allocate one",
                &[r as i64, behind as i64, width as i64, counted as i64],
                n,
            )
        }
        Act::Allocate(counted, r, behind, x, y, width, n) => {
            line(
                alloc,
                "allocate",
                &[
                    r as i64,
                    behind as i64,
                    x as i64,
                    y as i64,
                    width as i64,
                    counted as i64,
                ],
                n,
            )
        }
        Act::Deallocate(r, behind, n) => {
            line(alloc, "deallocate", &[r as i64, behind as i64], n)
        }
        Act::MoveOne(r, behind, q, beyond, frees, n) => {
            line(
                alloc,
                "move one",
                &[
                    r as i64,
                    behind as i64,
                    q as i64,
                    beyond as i64,
                    frees as i64,
                ],
                n,
            )
        }
        Act::Move(r, behind, q, beyond, frees, n) => {
            line(
                alloc,
                "move",
                &[
                    r as i64,
                    behind as i64,
                    q as i64,
                    beyond as i64,
                    frees as i64,
                ],
                n,
            )
        }
        Act::CopyBy(r, q, k, n) => { line(alloc, "copy by", &[r as i64, q as i64, k as i64], n) }
        Act::ClearBy(r, k, n) => line(alloc, "clear by", &[r as i64, k as i64], n),
        _ => calling(alloc, act),
    }
}

/// An act that lends a part of an element of what a component holds, or one of those above.
fn opening(alloc: Global, act: Act) -> Result<String, AllocError> {
    match act {
        Act::LendOpened(d, r, behind, x, width, part) => {
            line(
                alloc,
                "lend opened",
                &[
                    d as i64,
                    r as i64,
                    behind as i64,
                    x as i64,
                    width as i64,
                    part as i64,
                ],
                0,
            )
        }
        Act::LendOpenedEntry(behind, d, r, x, y, width, part) => {
            line(
                alloc,
                "lend opened entry",
                &[
                    behind as i64,
                    d as i64,
                    r as i64,
                    x as i64,
                    y as i64,
                    width as i64,
                    part as i64,
                ],
                0,
            )
        }
        _ => changing(alloc, act),
    }
}

/// An act by which another place takes the word of a slot, or one of the above.
fn putting(alloc: Global, act: Act) -> Result<String, AllocError> {
    match act {
        Act::SetStatic(at, x, n) => line(alloc, "set static", &[at as i64, x as i64], n),
        Act::SetStaticSmall(at, x, n) => line(alloc, "set static small", &[at as i64, x as i64], n),
        Act::SetBy(r, x, n) => line(alloc, "set by", &[r as i64, x as i64], n),
        Act::SetBySmall(r, x, n) => line(alloc, "set by small", &[r as i64, x as i64], n),
        Act::SetElement(k, x, y, n) => {
            line(alloc, "set element", &[k as i64, x as i64, y as i64], n)
        }
        Act::SetEntry(k, x, y, z, n) => {
            line(
                alloc,
                "set entry",
                &[k as i64, x as i64, y as i64, z as i64],
                n,
            )
        }
        Act::Fill(k, x, n) => line(alloc, "fill", &[k as i64, x as i64], n),
        Act::LendLocal(d, at) => line(alloc, "lend local", &[d as i64, at as i64], 0),
        Act::LendStatic(d, at) => line(alloc, "lend static", &[d as i64, at as i64], 0),
        Act::LendBy(d, r) => line(alloc, "lend by", &[d as i64, r as i64], 0),
        Act::LendElement(d, k, x) => {
            line(alloc, "lend element", &[d as i64, k as i64, x as i64], 0)
        }
        Act::LendEntry(d, k, x, y) => {
            line(
                alloc,
                "lend entry",
                &[d as i64, k as i64, x as i64, y as i64],
                0,
            )
        }
        Act::LendHeld(d, at, x) => { line(alloc, "lend held", &[d as i64, at as i64, x as i64], 0) }
        Act::LendHeldEntry(d, at, x, y) => {
            line(
                alloc,
                "lend held entry",
                &[d as i64, at as i64, x as i64, y as i64],
                0,
            )
        }
        Act::LendStaticHeld(d, at, x) => {
            line(
                alloc,
                "lend static held",
                &[d as i64, at as i64, x as i64],
                0,
            )
        }
        Act::LendStaticHeldEntry(d, at, x, y) => {
            line(
                alloc,
                "lend static held entry",
                &[d as i64, at as i64, x as i64, y as i64],
                0,
            )
        }
        _ => opening(alloc, act),
    }
}

/// An act of an operator, or one of the above.
fn operating(alloc: Global, act: Act) -> Result<String, AllocError> {
    match act {
        Act::Add(d, x, y, n) => line(alloc, "add", &[d as i64, x as i64, y as i64], n),
        Act::Subtract(d, x, y, n) => line(alloc, "subtract", &[d as i64, x as i64, y as i64], n),
        Act::Multiply(d, x, y, n) => line(alloc, "multiply", &[d as i64, x as i64, y as i64], n),
        Act::Divide(d, x, y, n) => line(alloc, "divide", &[d as i64, x as i64, y as i64], n),
        Act::Mod(d, x, y, n) => line(alloc, "mod", &[d as i64, x as i64, y as i64], n),
        Act::AddFixed(d, x, z, n) => line(alloc, "add fixed", &[d as i64, x as i64, z as i64], n),
        Act::MultiplyFixed(d, x, z, n) => {
            line(alloc, "multiply fixed", &[d as i64, x as i64, z as i64], n)
        }
        Act::DivideFixed(d, x, z, n) => {
            line(alloc, "divide fixed", &[d as i64, x as i64, z as i64], n)
        }
        Act::ModFixed(d, x, z, n) => line(alloc, "mod fixed", &[d as i64, x as i64, z as i64], n),
        Act::Unary(d, x, k, n) => line(alloc, "unary", &[d as i64, x as i64, k as i64], n),
        Act::Binary(d, x, y, k, n) => {
            line(
                alloc,
                "binary",
                &[d as i64, x as i64, y as i64, k as i64],
                n,
            )
        }
        _ => putting(alloc, act),
    }
}

/// What is asked of a dimension.
fn bound(query: Query) -> &'static str {
    match query {
        Query::Extent => "bound extent",
        Query::Lower => "bound lower",
        Query::Upper => "bound upper",
    }
}

/// An act that reads what the words of an allocatable tell, or one of the above.
fn telling(alloc: Global, act: Act) -> Result<String, AllocError> {
    match act {
        Act::GetState(d, r, behind, n) => {
            line(alloc, "state", &[d as i64, r as i64, behind as i64], n)
        }
        Act::GetBound(d, r, behind, k, query, n) => {
            line(
                alloc,
                bound(query),
                &[d as i64, r as i64, behind as i64, k as i64],
                n,
            )
        }
        _ => operating(alloc, act),
    }
}

/// An act.
fn shown(alloc: Global, act: Act) -> Result<String, AllocError> {
    match act {
        Act::Fixed(d, z, n) => line(alloc, "fixed", &[d as i64, z as i64], n),
        Act::Copy(d, x, n) => line(alloc, "copy", &[d as i64, x as i64], n),
        Act::CopySmall(d, x, n) => line(alloc, "copy small", &[d as i64, x as i64], n),
        Act::GetStatic(d, at, n) => line(alloc, "get static", &[d as i64, at as i64], n),
        Act::GetBy(d, r, n) => line(alloc, "get by", &[d as i64, r as i64], n),
        Act::GetElement(d, k, x, n) => {
            line(alloc, "get element", &[d as i64, k as i64, x as i64], n)
        }
        Act::GetEntry(d, k, x, y, n) => {
            line(
                alloc,
                "get entry",
                &[d as i64, k as i64, x as i64, y as i64],
                n,
            )
        }
        _ => telling(alloc, act),
    }
}

/// Acts with their numbers, one a line.
pub fn listed(alloc: Global, acts: &[Act]) -> Result<String, AllocError> {
    let mut text = String::new(alloc);
    for (number, act) in acts.iter().enumerate() {
        let line = shown(alloc, *act)?;
        let line = format!(in alloc; "{number}: {line}\n")?;
        text.push_str(&line)?;
    }
    Ok(text)
}
