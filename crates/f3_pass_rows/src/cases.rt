//! Cases, and how they are written.
//!
//! Blocks stand apart by an empty line. The first line of a block is a question, and the lines behind it are one case: a
//! text, and behind `-> ` its answer. In a block that begins with `each QUESTION` each line is a case. In a text and in an answer
//! `` `N:PIECE` `` is N times the piece, with the number of the time, from 0, for each `@` in it, the next number for each `#`, and how many times are left for each `~`.
//! A blank before `-> ` is no part of the text. A block that begins with `#` says nothing.

use crate::answers::answer;
use std::alloc::{AllocError, Global};

/// How many cases have their answers, how many have not, and a line for each of these.
#[derive(Drop)]
pub struct Tally {
    pub passed: usize,
    pub failed: usize,
    pub lines: String,
}

/// Asks the cases of a text, and compares.
pub fn compared(alloc: Global, text: &str) -> Result<Tally, AllocError> {
    let mut all = Tally {
        passed: 0,
        failed: 0,
        lines: String::new(alloc),
    };
    for block in text.strip_suffix('\n').unwrap_or(text).split("\n\n") {
        if !block.starts_with('#') {
            add_block(alloc, &mut all, block)?;
        }
    }
    Ok(all)
}

/// Asks the cases of a block, and compares.
fn add_block(alloc: Global, all: &mut Tally, block: &str) -> Result<(), AllocError> {
    let (question, cases, between) = parts(block);
    for case in cases.split(between) {
        if is_right(alloc, question, case)? {
            all.passed = all.passed.saturating_add(1);
        } else {
            writeln!(all.lines, "{question}: not as expected: {case}")?;
            all.failed = all.failed.saturating_add(1);
        }
    }
    Ok(())
}

/// The question of a block, its cases, and what stands between these.
fn parts(block: &str) -> (&str, &str, &str) {
    let (question, cases) = block.split_once('\n').unwrap_or((block, ""));
    match question.strip_prefix("each ") {
        Some(question) => (question, cases, "\n"),
        None => (question, cases, "\n\n"),
    }
}

/// Whether the text of a case has the case's answer.
fn is_right(alloc: Global, question: &str, case: &str) -> Result<bool, AllocError> {
    let Some((text, wanted)) = case.split_once("-> ") else {
        return Ok(false);
    };
    let text = expanded(alloc, text.strip_suffix(' ').unwrap_or(text))?;
    let wanted = expanded(alloc, wanted)?;
    let answer = answer(alloc, question, text.as_str())?;
    let answer = answer.as_str();
    Ok(answer.strip_suffix('\n').unwrap_or(answer) == wanted.as_str())
}

/// A text with its pieces as often as it says.
fn expanded(alloc: Global, text: &str) -> Result<String, AllocError> {
    let mut all = String::new(alloc);
    let mut is_piece = false;
    for part in text.split('`') {
        if is_piece {
            add_piece(&mut all, part)?;
        } else {
            all.push_str(part)?;
        }
        is_piece = !is_piece;
    }
    Ok(all)
}

/// Adds a piece as often as is said before it.
fn add_piece(all: &mut String, part: &str) -> Result<(), AllocError> {
    let (times, piece) = part.split_once(':').unwrap_or(("", ""));
    let times = times.parse::<usize>().unwrap_or(0);
    for number in 0..times {
        add_numbered(all, piece, number, times)?;
    }
    Ok(())
}

/// Adds a piece with its numbers.
fn add_numbered(
    all: &mut String,
    piece: &str,
    number: usize,
    times: usize,
) -> Result<(), AllocError> {
    for sign in piece.chars() {
        match sign {
            '@' => write!(all, "{number}")?,
            '#' => write!(all, "{}", number.saturating_add(1))?,
            '~' => write!(all, "{}", times.saturating_sub(number).saturating_sub(1))?,
            _ => all.push(sign)?,
        }
    }
    Ok(())
}
