//! END statements.

ghost use Rattle.std.specs.Prelude.{◌≡◌};
ghost use Rattle.f3_words.specs.Reads.{Finds};
ghost use Rattle.f3_form.specs.Forms.{form_view};
ghost use Rattle.f3_forms.specs.Grammar.{ended_of, has_name, IsJoinedEnd, IsEnd};

use f3_form::form::{Ended, Form};
use f3_reading::names::label;
use f3_words::error::ReadError;
use f3_words::item::{Item, Keyword, Word};
use f3_words::reading::front;

/// What a keyword behind END ends.
fn ended(keyword: Keyword) -> Option<Ended>
    ensures { result ≡ ended_of keyword }
{
    match keyword {
        Keyword::Module => Some(Ended::Module),
        Keyword::Program => Some(Ended::Program),
        Keyword::Subroutine => Some(Ended::Subroutine),
        Keyword::Function => Some(Ended::Function),
        Keyword::Type => Some(Ended::Type),
        Keyword::If => Some(Ended::If),
        Keyword::Select => Some(Ended::Select),
        Keyword::Do => Some(Ended::Do),
        Keyword::Associate => Some(Ended::Associate),
        _ => None,
    }
}

/// Whether its END may have a name.
fn has_name(what: Ended) -> bool
    ensures { result ≡ has_name what }
{
    match what {
        Ended::If | Ended::Select | Ended::Do | Ended::Associate => false,
        _ => true,
    }
}

/// The END of this, from the tokens behind what it ends.
#[tactic(auto, unfolding(crate::specs::Grammar::IsJoinedEnd, crate::specs::Grammar::IsEndLabel))]
pub fn joined_end(what: Ended, items: &[Item]) -> Result<Form, ReadError>
    ensures { Finds (IsJoinedEnd what) form_view result items.now }
{
    match label(items)? {
        None => Ok(Form::End(Some(what), None)),
        Some(name) => {
            if has_name(what) {
                Ok(Form::End(Some(what), Some(name)))
            } else {
                Err(ReadError::NoForm)
            }
        }
    }
}

/// What stands behind END.
#[tactic(auto, unfolding(crate::specs::Grammar::IsEnd))]
pub fn end(items: &[Item]) -> Result<Form, ReadError>
    ensures { Finds IsEnd form_view result items.now }
{
    match front(items) {
        None => Ok(Form::End(None, None)),
        Some((first, tail)) => match first.word {
            Word::Name(keyword) => match ended(keyword) {
                Some(what) => Ok(joined_end(what, tail)?),
                None => Err(ReadError::NoForm),
            },
            _ => Err(ReadError::NoForm),
        },
    }
}
