//! What the grammar sees of a token.

ghost use Rattle.std.specs.Prelude.{◌≡◌};
ghost use Rattle.f3_words.specs.Words.{is_name, name_of};

use f3_places::source::Place;
use f3_tree::expression::{IntegerKind, IntegerLiteral, Name, Operator, Relation};

/// The keyword that a name may be, where a form asks for it. Keywords are not reserved: each is a name as well
/// (ISO/IEC 1539-1:2004, 2.5.2). Words that may be joined stand here as one keyword too (3.3.1.1).
#[derive(Clone, Copy, PartialEq, Eq, Debug)]
pub enum Keyword {
    /// No form asks for it.
    Plain,
    Allocatable,
    Allocate,
    Associate,
    Call,
    Case,
    Contains,
    Continue,
    Cycle,
    Deallocate,
    Default,
    Dimension,
    Do,
    Else,
    ElseIf,
    End,
    EndAssociate,
    EndDo,
    EndFunction,
    EndIf,
    EndModule,
    EndProgram,
    EndSelect,
    EndSubroutine,
    EndType,
    Exit,
    Final,
    Function,
    If,
    Implicit,
    In,
    InOut,
    Integer,
    Intent,
    Kind,
    Logical,
    Module,
    /// The NONE of IMPLICIT NONE.
    NoneWord,
    Only,
    Out,
    Parameter,
    Print,
    Private,
    Program,
    Protected,
    Public,
    Pure,
    Recursive,
    ResultWord,
    Return,
    Save,
    Select,
    SelectCase,
    Stat,
    Stop,
    Subroutine,
    Then,
    Type,
    Use,
    While,
}

/// What a token is to the grammar.
#[derive(Clone, Copy, PartialEq, Eq, Debug)]
pub enum Word {
    /// A name, and the keyword that it may be.
    Name(Keyword),
    /// The digit 4 or 8, which may name a kind; it is an integer of one digit as well.
    KindDigit(IntegerKind),
    /// Another integer of one to five digits.
    ShortInteger,
    /// An integer of more digits, or with a suffix.
    LongInteger,
    /// `.TRUE.` or `.FALSE.`
    Truth(bool),
    /// A character constant.
    Text,
    /// `**`, `*`, `/`, `+`, `-`, or a logical operator but `.NOT.`
    Operator(Operator),
    /// A relational operator, in letters or signs.
    Relation(Relation),
    /// `.NOT.`
    Not,
    /// `=`
    Equals,
    /// `=>`
    Arrow,
    Comma,
    /// `:`
    Colon,
    /// `::`
    Colons,
    Percent,
    /// `(`
    Open,
    /// `)`
    Close,
    /// `(/`
    OpenSlash,
    /// `/)`
    CloseSlash,
    /// `[`
    OpenBracket,
    /// `]`
    CloseBracket,
    /// A token that no form has.
    Other,
}

impl Word {
    /// Whether a name is spelled so.
    pub fn is_name(self) -> bool
        ensures { result ≡ is_name self }
    {
        match self {
            Word::Name(_) => true,
            _ => false,
        }
    }
}

/// A token, as the grammar sees it.
#[derive(Clone, Copy, PartialEq, Eq, Debug)]
pub struct Item {
    pub word: Word,
    /// Of a name, its number among the names of the program; of a character constant, its number among those of the
    /// program; else 0. Numbers are counted from 0.
    pub symbol: usize,
    /// Of an integer, its kind and value; 0 of kind 4 where it is too large, and of all else.
    pub value: IntegerLiteral,
    /// Its first byte.
    pub place: Place,
}

impl Item {
    /// The identifier that stands there.
    pub fn name(self) -> Name
        ensures { result ≡ name_of self }
    {
        Name {
            symbol: self.symbol,
            place: self.place,
        }
    }
}
