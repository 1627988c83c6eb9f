//! From the tokens of a statement to those of the grammar.

ghost use Rattle.std.specs.Prelude.{◌≡◌, IfOk, OnOk, string_bytes, option_map};
ghost use Rattle.std.specs.Str.{IsAscii};
ghost use Rattle.f3_rules.specs.declared.refusal.Refusal.{Refusal};
ghost use Rattle.f3_lex.specs.declared.token.TokenKind.TheVariants as kind;
ghost use Rattle.f3_lex.specs.Tokens.{lower};
ghost use Rattle.f3_text.specs.Reader.{spelled_of};
ghost use Rattle.f3_words.specs.Lines.{line_view, broken, names_of, seen_of, nothing_seen, plain_item, item_as, seen_as, line_of, seen_over};
ghost use Rattle.f3_words.specs.Inner.Numbered.{IsNumbered, IsItem, AreItems};

use crate::constant::{characters, integer_word};
use crate::item::{Item, Keyword, Word};
use crate::line::{Line, Tables, broken};
use crate::names::slot_of;
use crate::sign::{dot_word, sign, truth};
use f3_lex::scanner::{place, text, tokens};
use f3_lex::token::{Lexed, Token, TokenKind};
use f3_lex::value::integer;
use f3_places::source::Place;
use f3_rules::breaks::Break;
use f3_rules::refusal::Refusal;
use f3_text::statement::RawStatement;
use f3_tree::expression::IntegerLiteral;
use std::alloc::{AllocError, Global};
use std::str;

/// Puts a name in lower case in the place of another. What it is of bytes past ASCII, which no name has, is left open.
fn lower_case(lower_cased: &mut String, name: &[u8]) -> Result<(), AllocError>
    ensures { OnOk result (IsAscii name.now → string_bytes lower_cased.new ≡ lower name.now) }
{
    lower_cased.clear();
    if let Ok(text) = str::from_utf8(name) {
        lower_cased.push_str(text)?;
        lower_cased.make_ascii_lowercase();
    }
    Ok(())
}

/// A token that is no name, no integer and no character constant.
fn plain(word: Word, place: Place) -> Item
    ensures { result ≡ plain_item word place }
{
    Item {
        word,
        symbol: 0,
        value: IntegerLiteral::Four(0),
        place,
    }
}

/// The number of a name, which is put behind the names where it is new, and its keyword.
fn numbered(alloc: Global, tables: &mut Tables, name: &[u8]) -> Result<(usize, Keyword), AllocError>
    ensures { IfOk result (λ x. IsAscii name.now → IsNumbered (names_of tables.old.names) (lower name.now) x × (seen_of tables.new ≡ seen_as (seen_of tables.old) kind.Name name.now)) }
{
    let slot = slot_of(name);
    if let Some(found) = tables.names.hinted(slot, name) {
        return Ok(found);
    }
    lower_case(&mut tables.name, name)?;
    let found = tables.names.number(alloc, tables.name.as_str())?;
    tables.names.hint(slot, found.0)?;
    Ok(found)
}

/// A name by its bytes and its place.
fn name_item(
    alloc: Global,
    tables: &mut Tables,
    bytes: &[u8],
    place: Place,
) -> Result<Item, AllocError>
    ensures { IfOk result (λ i. IsAscii bytes.now → (i ≡ item_as (seen_of tables.old) kind.Name bytes.now place) × (seen_of tables.new ≡ seen_as (seen_of tables.old) kind.Name bytes.now)) }
{
    let (symbol, keyword) = numbered(alloc, tables, bytes)?;
    Ok(Item {
        word: Word::Name(keyword),
        symbol,
        value: IntegerLiteral::Four(0),
        place,
    })
}

/// A character constant by its bytes and its place.
fn text_item(
    alloc: Global,
    tables: &mut Tables,
    bytes: &[u8],
    place: Place,
) -> Result<Item, AllocError>
    ensures { IfOk result (λ i. (i ≡ item_as (seen_of tables.old) kind.Text bytes.now place) × (seen_of tables.new ≡ seen_as (seen_of tables.old) kind.Text bytes.now)) }
{
    let characters = characters(alloc, bytes)?;
    let symbol = tables.texts.len();
    tables.texts.push(characters)?;
    Ok(Item {
        word: Word::Text,
        symbol,
        value: IntegerLiteral::Four(0),
        place,
    })
}

/// An integer by its bytes and its place.
fn integer_item(bytes: &[u8], place: Place) -> Item
    ensures { result ≡ item_as nothing_seen kind.Integer bytes.now place }
{
    Item {
        word: integer_word(bytes),
        symbol: 0,
        value: integer(bytes).unwrap_or(IntegerLiteral::Four(0)),
        place,
    }
}

/// A token of a statement.
fn item(
    alloc: Global,
    tables: &mut Tables,
    statement: &RawStatement,
    token: Token,
) -> Result<Item, AllocError>
    ensures { IfOk result (λ i. IsItem (seen_of tables.old) (seen_of tables.new) (spelled_of statement.now) token i) }
{
    let bytes = text(&statement.bytes, token);
    let place = place(statement, token);
    match token.kind {
        TokenKind::Name => name_item(alloc, tables, bytes, place),
        TokenKind::Integer => Ok(integer_item(bytes, place)),
        TokenKind::Truth => Ok(plain(truth(bytes), place)),
        TokenKind::Word => Ok(plain(dot_word(bytes), place)),
        TokenKind::Text => text_item(alloc, tables, bytes, place),
        TokenKind::Sign => Ok(plain(sign(bytes), place)),
        TokenKind::Other => Ok(plain(Word::Other, place)),
    }
}

/// The tokens of a statement.
fn items(
    alloc: Global,
    tables: &mut Tables,
    statement: &RawStatement,
    tokens: &[Token],
) -> Result<Vec<Item>, AllocError>
    ensures { IfOk result (λ v. AreItems (seen_of tables.old) (seen_of tables.new) (spelled_of statement.now) tokens.now v.items) }
{
    let mut found = Vec::with_capacity(alloc, tokens.len())?;
    for token in tokens {
        let item = item(alloc, tables, statement, *token)?;
        found.push(item)?;
    }
    Ok(found)
}

/// The break of which a refusal tells, where there is one.
fn fault_break(found: Option<Refusal>) -> Option<Break>
    ensures { result ≡ option_map (λ (r : Refusal). broken r.rule r.place) found }
{
    match found {
        Some(refusal) => Some(broken(refusal.rule, refusal.place)),
        None => None,
    }
}

/// A statement, with the names that are new in it and its character constants put behind those in the tables.
/// AllocError where the host's memory has no room.
pub fn line(
    alloc: Global,
    tables: &mut Tables,
    statement: &RawStatement,
) -> Result<Line, AllocError>
    ensures { IfOk result (λ l. (line_view l ≡ line_of (seen_of tables.old) (spelled_of statement.now)) × (seen_of tables.new ≡ seen_over (seen_of tables.old) (spelled_of statement.now))) }
{
    let Lexed { tokens, fault } = tokens(alloc, statement)?;
    let items = items(alloc, tables, statement, &tokens)?;
    Ok(Line {
        items,
        fault: fault_break(fault),
    })
}
