//! How long the tokens are that begin at the front of a text: 0 where none begins.

ghost use Rattle.std.specs.Prelude.{◌≡◌, ◌≤◌, List, [], ◌∷◌, length, slice_index, IfSome};
ghost use Rattle.std.specs.List.{prefix_len};
ghost use Rattle.f3_lex.specs.Tokens.{lower, is_name_byte, name_length, suffix_length, digits_length, integer_length, begins, listed_length, truths, dot_words, signs, to_closing, constant_length};

fn is_name_byte(byte: u8) -> bool
    ensures { result ≡ is_name_byte byte }
{
    byte.is_ascii_alphanumeric() || byte == b'_'
}

/// How many letters, digits and underscores there are at the front.
fn name_bytes(bytes: &[u8]) -> usize
    ensures { result ≡ prefix_len is_name_byte bytes.now }
{
    let mut n = 0;
    while n < bytes.len() && is_name_byte(bytes[n]) {
        n += 1;
    }
    n
}

#[tactic(auto, unfolding(crate::specs::Tokens::name_length))]
pub fn name_length(bytes: &[u8]) -> usize
    ensures { result ≡ name_length bytes.now }
{
    match bytes.first() {
        Some(first) => {
            if first.is_ascii_alphabetic() {
                name_bytes(bytes)
            } else {
                0
            }
        }
        None => 0,
    }
}

/// How many digits there are at the front.
pub fn digits_length(bytes: &[u8]) -> usize
    ensures value { result ≡ digits_length bytes.now }
    ensures within { result ≤ length bytes.now }
{
    let mut n = 0;
    while n < bytes.len() && bytes[n].is_ascii_digit() {
        n += 1;
    }
    n
}

/// The length of the suffix of an integer: it names a kind, and no letter, digit or underscore comes next.
fn suffix_length(bytes: &[u8]) -> usize
    ensures value { result ≡ suffix_length bytes.now }
    ensures within { result ≤ length bytes.now }
{
    if byte_at(bytes, 0) != b'_' {
        return 0;
    }
    if is_name_byte(byte_at(bytes, 2)) {
        return 0;
    }
    match byte_at(bytes, 1) {
        b'4' | b'8' => 2,
        _ => 0,
    }
}

#[tactic(auto, unfolding(crate::specs::Tokens::integer_length))]
pub fn integer_length(bytes: &[u8]) -> usize
    ensures { result ≡ integer_length bytes.now }
{
    if !byte_at(bytes, 0).is_ascii_digit() {
        return 0;
    }
    let digits = digits_length(bytes);
    digits + suffix_length(&bytes[digits..])
}

/// Whether a word, which is in lower case, stands at the front. Letters compare without case.
fn begins(word: &[u8], bytes: &[u8]) -> bool
    ensures { result ≡ begins word.now (lower bytes.now) }
{
    if bytes.len() < word.len() {
        return false;
    }
    for i in 0..word.len() {
        let (byte, letter) = (bytes[i], word[i]);
        if byte.to_ascii_lowercase() != letter {
            return false;
        }
    }
    true
}

#[tactic(auto, unfolding(crate::specs::Tokens::listed_length))]
pub fn truth_length(bytes: &[u8]) -> usize
    ensures { result ≡ listed_length truths (lower bytes.now) }
{
    if byte_at(bytes, 0) != b'.' {
        return 0;
    }
    if begins(b".true.", bytes) {
        6
    } else if begins(b".false.", bytes) {
        7
    } else {
        0
    }
}

#[tactic(auto, unfolding(crate::specs::Tokens::listed_length))]
pub fn word_length(bytes: &[u8]) -> usize
    ensures { result ≡ listed_length dot_words (lower bytes.now) }
{
    if byte_at(bytes, 0) != b'.' {
        return 0;
    }
    if begins(b".not.", bytes) {
        return 5;
    }
    if begins(b".and.", bytes) {
        return 5;
    }
    if begins(b".or.", bytes) {
        return 4;
    }
    if begins(b".eqv.", bytes) {
        return 5;
    }
    if begins(b".neqv.", bytes) {
        return 6;
    }
    if begins(b".eq.", bytes) || begins(b".ne.", bytes) || begins(b".lt.", bytes) {
        return 4;
    }
    if begins(b".le.", bytes) || begins(b".gt.", bytes) || begins(b".ge.", bytes) {
        return 4;
    }
    0
}

/// The length of the sign that begins with these two bytes, where `::` may be one or not.
#[tactic(auto, unfolding(crate::specs::Tokens::listed_length))]
fn sign_of(depth: usize, first: u8, second: u8) -> usize
    ensures { result ≡ listed_length (signs depth) (first ∷ second ∷ []) }
{
    match first {
        b'*' => { if second == b'*' { 2 } else { 1 } }
        b'=' => {
            if second == b'=' || second == b'>' {
                2
            } else {
                1
            }
        }
        b'/' => {
            if second == b'=' || second == b')' {
                2
            } else {
                1
            }
        }
        b'<' | b'>' => { if second == b'=' { 2 } else { 1 } }
        b'(' => { if second == b'/' { 2 } else { 1 } }
        b':' => { if second == b':' && depth == 0 { 2 } else { 1 } }
        b'+' | b'-' | b')' | b',' | b'[' | b']' | b'%' => 1,
        _ => 0,
    }
}

/// The byte at this place, or 0 past the end.
fn byte_at(bytes: &[u8], at: usize) -> u8
    ensures { result ≡ slice_index bytes.now at }
{
    match bytes.get(at) {
        Some(byte) => *byte,
        None => 0,
    }
}

pub fn sign_length(depth: usize, bytes: &[u8]) -> usize
    ensures { result ≡ listed_length (signs depth) bytes.now }
{
    sign_of(depth, byte_at(bytes, 0), byte_at(bytes, 1))
}

/// Inside a character constant, how many bytes there are up to the quote that ends it, and with it. Where a quote is
/// doubled and none ends the constant later, the first of the two does.
fn to_closing(quote: u8, bytes: &[u8]) -> Option<usize>
    ensures value { result ≡ to_closing quote bytes.now }
    ensures within { IfSome result (λ n. n ≤ length bytes.now) }
{
    let mut n = 0;
    let mut end = None;
    while n < bytes.len() {
        if bytes[n] != quote {
            n += 1;
        } else if n + 1 < bytes.len() && bytes[n + 1] == quote {
            end = Some(n + 1);
            n += 2;
        } else {
            return Some(n + 1);
        }
    }
    end
}

#[tactic(auto, unfolding(crate::specs::Tokens::constant_length))]
pub fn constant_length(bytes: &[u8]) -> usize
    ensures { result ≡ constant_length bytes.now }
{
    let Some((quote, inside)) = bytes.split_first() else {
        return 0;
    };
    if *quote != b'\'' && *quote != b'"' {
        return 0;
    }
    match to_closing(*quote, inside) {
        Some(n) => 1 + n,
        None => 0,
    }
}
