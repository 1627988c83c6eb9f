//! What integers and character constants say.

ghost use Rattle.std.specs.Prelude.{◌≡◌, ◌-◌, IfOk, length, slice_range};
ghost use Rattle.std.specs.List.{list_all};
ghost use Rattle.std.specs.Char.{is_ascii_digit};
ghost use Rattle.f3_words.specs.Constants.{length_word, integer_word, undoubled, characters_of};

use crate::item::Word;
use f3_tree::expression::IntegerKind;
use std::alloc::{AllocError, Global};

/// The most digits of a STOP code (ISO/IEC 1539-1:2004, 8.4).
const STOP_DIGITS: usize = 5;

/// Whether no suffix stands behind the digits.
fn are_digits(text: &[u8]) -> bool
    ensures { result ≡ list_all is_ascii_digit text.now }
{
    text.iter().all(|byte| byte.is_ascii_digit())
}

/// What an integer is that names no kind.
fn length_word(text: &[u8]) -> Word
    ensures { result ≡ length_word text.now }
{
    if text.len() <= STOP_DIGITS && are_digits(text) {
        Word::ShortInteger
    } else {
        Word::LongInteger
    }
}

/// What an integer of these bytes is.
pub fn integer_word(text: &[u8]) -> Word
    ensures { result ≡ integer_word text.now }
{
    if text == b"4".as_slice() {
        Word::KindDigit(IntegerKind::Four)
    } else if text == b"8".as_slice() {
        Word::KindDigit(IntegerKind::Eight)
    } else {
        length_word(text)
    }
}

/// The bytes but the first and the last.
fn inside(text: &[u8]) -> &[u8]
    ensures { result.now ≡ slice_range text.now 1 (length text.now - 1) }
{
    let end = text.len().saturating_sub(1);
    let start = end.min(1);
    &text[start..end]
}

/// The characters between quotes, of which two side by side are one.
fn undoubled(alloc: Global, quote: u8, bytes: &[u8]) -> Result<Vec<u8>, AllocError>
    ensures { IfOk result (λ v. v.items ≡ undoubled quote bytes.now) }
{
    let mut characters = Vec::new(alloc);
    let mut is_behind = false;
    for byte in bytes {
        if is_behind {
            is_behind = false;
        } else {
            characters.push(*byte)?;
            is_behind = *byte == quote;
        }
    }
    Ok(characters)
}

/// The characters of a character constant: those between its quotes, of which two side by side are one (4.4.4).
/// AllocError where the host's memory has no room.
pub fn characters(alloc: Global, text: &[u8]) -> Result<Vec<u8>, AllocError>
    ensures { IfOk result (λ v. v.items ≡ characters_of text.now) }
{
    let quote = match text.first() {
        Some(byte) => *byte,
        None => 0,
    };
    undoubled(alloc, quote, inside(text))
}
