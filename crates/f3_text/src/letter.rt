//! The bytes of source texts, and where character constants stand among them.

ghost use Rattle.std.specs.Prelude.{◌≡◌, ◌==◌};
ghost use Rattle.f3_text.specs.Lines.{is_blank, is_quote, after, is_open};
ghost use Rattle.f3_text.specs.Statements.{is_allowed, opens, closes, separates};

use f3_places::source::Place;

/// A byte of a source text, at its place.
#[derive(Clone, Copy)]
pub struct Letter {
    pub byte: u8,
    pub place: Place,
}

/// How a place of a statement stands to character constants (4.4.4).
#[derive(Clone, Copy)]
pub enum Quoting {
    /// Outside a constant.
    Outside,
    /// Inside the constant that this quote opened.
    Inside(Letter),
    /// Right behind a constant, which goes on where the same quote follows.
    Closed(Letter),
}

/// Whether a byte is a blank or a tab.
#[tactic(auto, unfolding(crate::specs::Lines::is_blank))]
pub(crate) fn is_blank(byte: u8) -> bool
    ensures { result ≡ is_blank byte }
{
    byte == b' ' || byte == b'\t'
}

/// Whether a byte is a quote.
#[tactic(auto, unfolding(crate::specs::Lines::is_quote))]
pub(crate) fn is_quote(byte: u8) -> bool
    ensures { result ≡ is_quote byte }
{
    byte == b'"' || byte == b'\''
}

/// How the place behind a letter stands to constants.
#[tactic(auto, unfolding(crate::specs::Lines::after))]
pub(crate) fn after(quoting: Quoting, letter: Letter) -> Quoting
    ensures { result ≡ after quoting letter }
{
    match quoting {
        Quoting::Outside => {
            if is_quote(letter.byte) {
                Quoting::Inside(letter)
            } else {
                Quoting::Outside
            }
        }
        Quoting::Inside(quote) => {
            if letter.byte == quote.byte {
                Quoting::Closed(quote)
            } else {
                Quoting::Inside(quote)
            }
        }
        Quoting::Closed(quote) => {
            if !is_quote(letter.byte) {
                Quoting::Outside
            } else if letter.byte == quote.byte {
                Quoting::Inside(quote)
            } else {
                Quoting::Inside(letter)
            }
        }
    }
}

/// Whether a constant is open.
#[tactic(auto, unfolding(crate::specs::Lines::is_open))]
pub(crate) fn is_open(quoting: Quoting) -> bool
    ensures { result ≡ is_open quoting }
{
    match quoting {
        Quoting::Inside(_) => true,
        _ => false,
    }
}

/// Whether a letter ends a statement.
#[tactic(auto, unfolding(crate::specs::Statements::separates))]
pub(crate) fn separates(quoting: Quoting, letter: Letter) -> bool
    ensures { result ≡ separates quoting letter }
{
    !is_open(quoting) && letter.byte == b';'
}

/// Whether a byte may stand outside comments and character constants.
#[tactic(auto, unfolding(crate::specs::Statements::is_allowed))]
pub(crate) fn is_allowed(byte: u8) -> bool
    ensures { result ≡ is_allowed byte }
{
    byte.is_ascii_alphanumeric() || b"\t _=+-*/(),.:;!%&<>[]'\"".contains(&byte)
}

/// Whether a byte opens a parenthesis or bracket.
#[tactic(auto, unfolding(crate::specs::Statements::opens))]
pub(crate) fn opens(byte: u8) -> bool
    ensures { result ≡ opens byte }
{
    byte == b'(' || byte == b'['
}

/// Whether a byte closes one.
#[tactic(auto, unfolding(crate::specs::Statements::closes))]
pub(crate) fn closes(byte: u8) -> bool
    ensures { result ≡ closes byte }
{
    byte == b')' || byte == b']'
}
