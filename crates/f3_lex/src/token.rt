//! Tokens.

use f3_rules::refusal::Refusal;

/// What a token is (3.2).
#[derive(Clone, Copy, PartialEq, Eq, Debug)]
pub enum TokenKind {
    /// A letter, and then letters, digits and underscores.
    Name,
    /// Digits, and directly behind them the suffix of a kind where one stands there.
    Integer,
    /// `.true.` or `.false.`
    Truth,
    /// An operator between dots, as `.and.`
    Word,
    /// A character constant.
    Text,
    /// An operator or a separator of one or two characters.
    Sign,
    /// A byte at which no token begins: its statement has no form.
    Other,
}

/// A token, which is the bytes from start up to end of its statement, counted from 0.
#[derive(Clone, Copy, PartialEq, Eq, Debug)]
pub struct Token {
    pub kind: TokenKind,
    pub start: usize,
    pub end: usize,
}

/// The tokens of a statement, and the first break of S3 or S4 among them.
#[derive(Drop)]
pub struct Lexed {
    pub tokens: Vec<Token>,
    pub fault: Option<Refusal>,
}
