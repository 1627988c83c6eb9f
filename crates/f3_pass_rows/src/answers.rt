//! What is answered on a text, by the question.

use crate::programs::{fronts, of_sources, refusal_line};
use crate::steps::stepped;
use f3_lex::value::{integer, lower_case};
use f3_name_rules::is_intrinsic;
use f3_pass_texts::statements::{cut, of_first};
use f3_text::cut::source_end;
use f3_text::reader::Statements;
use f3_words::constant::characters;
use std::alloc::{AllocError, Global};

/// What is answered on a text.
pub fn answer(alloc: Global, question: &str, text: &str) -> Result<String, AllocError> {
    match question {
        "cut" => cut(alloc, text),
        "tokens" | "words" | "form" | "expression" | "designator" | "arguments" => {
            of_first(alloc, question, text)
        }
        "block" | "units" => stepped(alloc, question, text),
        "fronts" => fronts(alloc, text),
        "refusal" => refusal_line(alloc, text),
        "end" | "integer" | "lower" | "characters" | "intrinsic" => {
            of_bytes(alloc, question, text)
        }
        _ => of_sources(alloc, question, text),
    }
}

/// The place behind the last byte of a source that is not past the limit.
fn end_of(alloc: Global, bytes: &[u8]) -> Result<String, AllocError> {
    if bytes.len() > Statements::LIMIT {
        return String::from_str(alloc, "past the limit");
    }
    format!(in alloc; "{:?}", source_end(1, bytes))
}

/// What is answered on the bytes of a text.
fn of_bytes(alloc: Global, question: &str, text: &str) -> Result<String, AllocError> {
    let bytes = text.as_bytes();
    match question {
        "end" => end_of(alloc, bytes),
        "integer" => format!(in alloc; "{:?}", integer(bytes)),
        "lower" => lower_case(alloc, bytes),
        "characters" => String::from_utf8_lossy(alloc, &characters(alloc, bytes)?),
        _ => format!(in alloc; "{}", is_intrinsic(text)),
    }
}
