//! Names by their texts.

ghost use Rattle.std.specs.Prelude.{◌≡◌, ℕ, ◌↔◌, Some, IfSome, map, not, position, slice_get, string_bytes};
ghost use Rattle.std.specs.Char.{is_ascii_uppercase};
ghost use Rattle.std.specs.List.{list_all};
ghost use Rattle.std.specs.Str.{bytes_eq};
ghost use Rattle.f3_names.specs.Texts.{lowered, longest_from};

use indexmap::IndexSet;

/// The length of the longest names of the language (own rule), in bytes.
const NAME_LENGTH: usize = 63;

/// A text in lower case, in a buffer; none where it is too long for that.
fn fold<'a>(name: &str, buffer: &'a mut [u8; NAME_LENGTH]) -> Option<&'a str>
    ensures { IfSome result (λ text. text.now ≡ lowered name.now) }
{
    let buffer = buffer.get_mut(..name.len())?;
    buffer.copy_from_slice(name.as_bytes());
    buffer.make_ascii_lowercase();
    str::from_utf8(buffer).ok()
}

/// Whether a text has no letter from A to Z.
fn has_no_capital(text: &str) -> bool
    ensures { result ≡ list_all (λ byte. not (is_ascii_uppercase byte)) text.now }
{
    text.bytes().all(|byte| !byte.is_ascii_uppercase())
}

/// Whether a text is another in lower case.
fn is_lowered(text: &str, name: &str) -> bool
    ensures { result ≡ bytes_eq (lowered name.now) text.now }
{
    text.eq_ignore_ascii_case(name) && has_no_capital(text)
}

/// The first of these texts that is a text in lower case, by its place.
fn find(texts: &[String], name: &str) -> Option<usize>
    ensures { result ≡ position (λ text. bytes_eq (lowered name.now) (string_bytes text)) texts.now }
{
    texts
        .iter()
        .position(|text| is_lowered(text.as_str(), name))
}

/// The length of the longest of these texts, in bytes.
pub fn longest(texts: &[String]) -> usize
    ensures { result ≡ longest_from 0 (map string_bytes texts.now) }
{
    let mut longest = 0;
    for text in texts {
        longest = longest.max(text.as_str().len());
    }
    longest
}

/// The number of the name that a text is, without the case of letters, where the longest name has this length. A name of
/// the language is looked up in a hashed set; one that is longer is none, if no text is as long, and is else looked up among
/// all.
pub fn symbol_of(texts: &IndexSet<String>, longest: usize, name: &str) -> Option<usize>
    requires { longest ≡ longest_from 0 (map string_bytes texts.now.keys) }
    ensures { (symbol : ℕ) → (result ≡ Some symbol) ↔ (slice_get (map string_bytes texts.now.keys) symbol ≡ Some (lowered name.now)) }
{
    let keys = texts.as_slice();
    let mut buffer = [0; NAME_LENGTH];
    match fold(name, &mut buffer) {
        Some(text) => texts.get_index_of(text),
        None if name.len() > longest => None,
        None => find(keys, name),
    }
}
