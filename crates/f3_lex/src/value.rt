//! What names and integer literals say.

ghost use Rattle.std.specs.Prelude.{◌≡◌, ◌<◌, ◌≤◌, ◌^◌, IfOk, IfSome, string_bytes};
ghost use Rattle.std.specs.Str.{IsAscii};
ghost use Rattle.f3_lex.specs.Tokens.{lower};
ghost use Rattle.f3_lex.specs.Faults.{kind_by, value_within, integer_of};

use crate::length::digits_length;
use f3_tree::expression::{IntegerKind, IntegerLiteral};
use std::alloc::{AllocError, Global};
use std::str;

/// The largest integer of kind 4.
const LARGEST_FOUR: u64 = 2147483647;

/// The largest integer of kind 8.
const LARGEST_EIGHT: u64 = 9223372036854775807;

/// The number that digits write; None where it is larger than the most.
#[tactic(auto, unfolding(crate::specs::Faults::value_within))]
fn value_within(most: u64, digits: &[u8]) -> Option<u64>
    requires { most < 2 ^ 63 }
    ensures value { result ≡ value_within most digits.now }
    ensures within { IfSome result (λ n. n ≤ most) }
{
    let mut value = 0u128;
    for digit in digits {
        value = value * 10 + u128::from(digit.saturating_sub(b'0'));
        if value > u128::from(most) {
            return None;
        }
    }
    Some(value as u64)
}

/// The kind that an integer has by this suffix: 4 where it is none.
fn kind_by(suffix: &[u8]) -> IntegerKind
    ensures { result ≡ kind_by suffix.now }
{
    match suffix {
        [first, second] => {
            if *first == b'_' && *second == b'8' {
                IntegerKind::Eight
            } else {
                IntegerKind::Four
            }
        }
        _ => IntegerKind::Four,
    }
}

/// An integer literal's kind and value, by its digits and its suffix; None where its value is past the largest of its
/// kind: 2147483647 of kind 4, and 9223372036854775807 of kind 8.
#[tactic(auto, unfolding(crate::specs::Faults::integer_of))]
pub fn integer(text: &[u8]) -> Option<IntegerLiteral>
    ensures { result ≡ integer_of text.now }
{
    let length = digits_length(text);
    let (digits, suffix) = (&text[..length], &text[length..]);
    match kind_by(suffix) {
        IntegerKind::Four => match value_within(LARGEST_FOUR, digits) {
            Some(value) => Some(IntegerLiteral::Four(value as i32)),
            None => None,
        },
        IntegerKind::Eight => match value_within(LARGEST_EIGHT, digits) {
            Some(value) => Some(IntegerLiteral::Eight(value as i64)),
            None => None,
        },
    }
}

/// A name in lower case. What it is of bytes past ASCII, which no name has, is left open. AllocError where the
/// host's memory has no room.
pub fn lower_case(alloc: Global, name: &[u8]) -> Result<String, AllocError>
    ensures { IfOk result (λ text. IsAscii name.now → string_bytes text ≡ lower name.now) }
{
    match str::from_utf8(name) {
        Ok(text) => text.to_ascii_lowercase(alloc),
        Err(_) => Ok(String::new(alloc)),
    }
}
