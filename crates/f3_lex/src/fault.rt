//! Names that are too long, and literals that are too large.

ghost use Rattle.std.specs.Prelude.{◌≡◌};
ghost use Rattle.f3_lex.specs.Faults.{broken_by, first_broken};

use crate::scanner::text;
use crate::token::{Token, TokenKind};
use crate::value::integer;
use f3_rules::rule::Rule;

/// The longest name, in bytes.
const LONGEST: usize = 63;

/// The rule that a token of this kind and these bytes breaks.
#[tactic(auto, unfolding(crate::specs::Faults::integer_of, crate::specs::Faults::value_within))]
fn broken_by(kind: TokenKind, text: &[u8]) -> Option<Rule>
    ensures { result ≡ broken_by kind text.now }
{
    match kind {
        TokenKind::Name => {
            if text.len() > LONGEST {
                Some(Rule::S3)
            } else {
                None
            }
        }
        TokenKind::Integer => {
            if integer(text).is_none() {
                Some(Rule::S4)
            } else {
                None
            }
        }
        TokenKind::Truth => None,
        TokenKind::Word => None,
        TokenKind::Text => None,
        TokenKind::Sign => None,
        TokenKind::Other => None,
    }
}

/// Where the first token that breaks a rule begins, and the rule.
#[tactic(auto, unfolding(crate::specs::Faults::first_broken))]
pub fn first_broken(bytes: &[u8], tokens: &[Token]) -> Option<(usize, Rule)>
    ensures { result ≡ first_broken bytes.now tokens.now }
{
    for token in tokens {
        if let Some(rule) = broken_by(token.kind, text(bytes, *token)) {
            return Some((token.start, rule));
        }
    }
    None
}
