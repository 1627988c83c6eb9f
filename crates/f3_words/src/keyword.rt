//! The keyword that a name may be.

ghost use Rattle.std.specs.Prelude.{◌≡◌};
ghost use Rattle.f3_words.specs.declared.item.Keyword.TheVariants.{Plain};
ghost use Rattle.f3_words.specs.Tables.{found};
ghost use Rattle.f3_words.specs.Keywords.{keyword_of, of_2, of_3, of_4, of_5, of_6, of_7, of_8, of_9, of_10, of_11, of_12, of_13};

use crate::item::Keyword;

/// The keyword of two letters.
fn of_two(text: &str) -> Keyword
    ensures { result ≡ found of_2 Plain text.now }
{
    if text == "do" {
        Keyword::Do
    } else if text == "if" {
        Keyword::If
    } else if text == "in" {
        Keyword::In
    } else {
        Keyword::Plain
    }
}

/// The keyword of three letters.
fn of_three(text: &str) -> Keyword
    ensures { result ≡ found of_3 Plain text.now }
{
    if text == "end" {
        Keyword::End
    } else if text == "out" {
        Keyword::Out
    } else if text == "use" {
        Keyword::Use
    } else {
        Keyword::Plain
    }
}

/// The keyword of four letters.
fn of_four(text: &str) -> Keyword
    ensures { result ≡ found of_4 Plain text.now }
{
    if text == "call" {
        Keyword::Call
    } else if text == "case" {
        Keyword::Case
    } else if text == "else" {
        Keyword::Else
    } else if text == "exit" {
        Keyword::Exit
    } else if text == "kind" {
        Keyword::Kind
    } else if text == "none" {
        Keyword::NoneWord
    } else if text == "only" {
        Keyword::Only
    } else if text == "pure" {
        Keyword::Pure
    } else if text == "save" {
        Keyword::Save
    } else if text == "stat" {
        Keyword::Stat
    } else if text == "stop" {
        Keyword::Stop
    } else if text == "then" {
        Keyword::Then
    } else if text == "type" {
        Keyword::Type
    } else {
        Keyword::Plain
    }
}

/// The keyword of five letters.
fn of_five(text: &str) -> Keyword
    ensures { result ≡ found of_5 Plain text.now }
{
    if text == "cycle" {
        Keyword::Cycle
    } else if text == "enddo" {
        Keyword::EndDo
    } else if text == "endif" {
        Keyword::EndIf
    } else if text == "final" {
        Keyword::Final
    } else if text == "inout" {
        Keyword::InOut
    } else if text == "print" {
        Keyword::Print
    } else if text == "while" {
        Keyword::While
    } else {
        Keyword::Plain
    }
}

/// The keyword of six letters.
fn of_six(text: &str) -> Keyword
    ensures { result ≡ found of_6 Plain text.now }
{
    if text == "elseif" {
        Keyword::ElseIf
    } else if text == "intent" {
        Keyword::Intent
    } else if text == "module" {
        Keyword::Module
    } else if text == "public" {
        Keyword::Public
    } else if text == "result" {
        Keyword::ResultWord
    } else if text == "return" {
        Keyword::Return
    } else if text == "select" {
        Keyword::Select
    } else {
        Keyword::Plain
    }
}

/// The keyword of seven letters.
fn of_seven(text: &str) -> Keyword
    ensures { result ≡ found of_7 Plain text.now }
{
    if text == "default" {
        Keyword::Default
    } else if text == "endtype" {
        Keyword::EndType
    } else if text == "integer" {
        Keyword::Integer
    } else if text == "logical" {
        Keyword::Logical
    } else if text == "private" {
        Keyword::Private
    } else if text == "program" {
        Keyword::Program
    } else {
        Keyword::Plain
    }
}

/// The keyword of eight letters.
fn of_eight(text: &str) -> Keyword
    ensures { result ≡ found of_8 Plain text.now }
{
    if text == "allocate" {
        Keyword::Allocate
    } else if text == "contains" {
        Keyword::Contains
    } else if text == "continue" {
        Keyword::Continue
    } else if text == "function" {
        Keyword::Function
    } else if text == "implicit" {
        Keyword::Implicit
    } else {
        Keyword::Plain
    }
}

/// The keyword of nine letters.
fn of_nine(text: &str) -> Keyword
    ensures { result ≡ found of_9 Plain text.now }
{
    if text == "associate" {
        Keyword::Associate
    } else if text == "dimension" {
        Keyword::Dimension
    } else if text == "endmodule" {
        Keyword::EndModule
    } else if text == "endselect" {
        Keyword::EndSelect
    } else if text == "parameter" {
        Keyword::Parameter
    } else if text == "protected" {
        Keyword::Protected
    } else if text == "recursive" {
        Keyword::Recursive
    } else {
        Keyword::Plain
    }
}

/// The keyword of ten letters.
fn of_ten(text: &str) -> Keyword
    ensures { result ≡ found of_10 Plain text.now }
{
    if text == "deallocate" {
        Keyword::Deallocate
    } else if text == "endprogram" {
        Keyword::EndProgram
    } else if text == "selectcase" {
        Keyword::SelectCase
    } else if text == "subroutine" {
        Keyword::Subroutine
    } else {
        Keyword::Plain
    }
}

/// The keyword of eleven letters.
fn of_eleven(text: &str) -> Keyword
    ensures { result ≡ found of_11 Plain text.now }
{
    if text == "allocatable" {
        Keyword::Allocatable
    } else if text == "endfunction" {
        Keyword::EndFunction
    } else {
        Keyword::Plain
    }
}

/// The keyword of twelve letters.
fn of_twelve(text: &str) -> Keyword
    ensures { result ≡ found of_12 Plain text.now }
{
    if text == "endassociate" {
        Keyword::EndAssociate
    } else {
        Keyword::Plain
    }
}

/// The keyword of thirteen letters.
fn of_thirteen(text: &str) -> Keyword
    ensures { result ≡ found of_13 Plain text.now }
{
    if text == "endsubroutine" {
        Keyword::EndSubroutine
    } else {
        Keyword::Plain
    }
}

/// The keyword that a name in lower case may be.
#[tactic(auto, unfolding(crate::specs::Keywords::keyword_of))]
pub fn keyword(text: &str) -> Keyword
    ensures { result ≡ keyword_of text.now }
{
    match text.len() {
        2 => of_two(text),
        3 => of_three(text),
        4 => of_four(text),
        5 => of_five(text),
        6 => of_six(text),
        7 => of_seven(text),
        8 => of_eight(text),
        9 => of_nine(text),
        10 => of_ten(text),
        11 => of_eleven(text),
        12 => of_twelve(text),
        13 => of_thirteen(text),
        _ => Keyword::Plain,
    }
}
