//! What is made of a statement: its tokens, its words, its form, or an expression at its front.

use crate::expressions::of_items;
use crate::sources::sources;
use f3_form::form::{Ended, Form};
use f3_forms::statements::statement;
use f3_lex::scanner::{text, tokens};
use f3_lex::token::Lexed;
use f3_places::source::Source;
use f3_rules::refusal::render;
use f3_text::cut::statements;
use f3_text::reader::Statements;
use f3_text::statement::{Cut, RawStatement};
use f3_tree::expression::IntegerLiteral;
use f3_tree::statement::{Action, Control, Selector};
use f3_words::error::ReadError;
use f3_words::item::Item;
use f3_words::items::line;
use f3_words::line::{Line, Tables};
use std::alloc::{AllocError, Global};

/// Each statement as the column of its first byte, a blank, its bytes, and a bar; and the line of the fault, or `whole`.
fn cut_text(alloc: Global, sources: &[Source], cut: &Cut) -> Result<String, AllocError> {
    let mut text = String::new(alloc);
    for statement in &cut.statements {
        let column = statement.places.first().map_or(0, |place| place.column);
        let bytes = str::from_utf8(&statement.bytes).unwrap_or("");
        write!(text, "{column} {bytes}|")?;
    }
    match &cut.fault {
        Some(refusal) => text.push_str(&render(alloc, sources, refusal)?)?,
        None => text.push_str("whole")?,
    }
    Ok(text)
}

/// The statements of a text.
pub fn cut(alloc: Global, text: &str) -> Result<String, AllocError> {
    let sources = sources(alloc, text)?;
    let cut = statements(alloc, &sources)?;
    let text = cut_text(alloc, &sources, &cut);
    drop(cut);
    drop(sources);
    text
}

/// The tokens between blanks, as they are written, and the rule and the column of the first break.
fn tokens_text(
    alloc: Global,
    statement: &RawStatement,
    lexed: &Lexed,
) -> Result<String, AllocError> {
    let mut all = String::new(alloc);
    for token in &lexed.tokens {
        let token = str::from_utf8(text(&statement.bytes, *token)).unwrap_or("");
        let before = if all.is_empty() { "" } else { " " };
        write!(all, "{before}{token}")?;
    }
    if let Some(fault) = &lexed.fault {
        let column = fault.place.column;
        write!(all, "; {:?} at {column}", fault.rule)?;
    }
    Ok(all)
}

fn lexed(alloc: Global, statement: &RawStatement) -> Result<String, AllocError> {
    let lexed = tokens(alloc, statement)?;
    let text = tokens_text(alloc, statement, &lexed);
    drop(lexed);
    text
}

/// Adds a word, and the symbol and the value that are not 0.
fn add_word(all: &mut String, item: Item) -> Result<(), AllocError> {
    write!(all, "{:?}", item.word)?;
    if item.symbol > 0 {
        write!(all, " {}", item.symbol)?;
    }
    if item.value != IntegerLiteral::Four(0) {
        write!(all, " {:?}", item.value)?;
    }
    all.push_str(", ")
}

/// The words with a comma behind each, how many names and texts there are, and the rule and the column of the first break.
fn words_text(alloc: Global, line: &Line, tables: &Tables) -> Result<String, AllocError> {
    let mut all = String::new(alloc);
    for item in &line.items {
        add_word(&mut all, *item)?;
    }
    let names = tables.names.set.len();
    let texts = tables.texts.len();
    write!(all, "{names} names, {texts} texts")?;
    if let Some(fault) = &line.fault {
        let column = fault.place.column;
        write!(all, "; {:?} at {column}", fault.rule)?;
    }
    Ok(all)
}

/// What an action is called here.
fn action_kind(action: &Action) -> &'static str {
    match action {
        Action::Assign(_, _) => "assign",
        Action::Call(_, _) => "call",
        Action::Allocate(_, None) => "allocate",
        Action::Allocate(_, Some(_)) => "allocate status",
        Action::Deallocate(_, _) => "deallocate",
        Action::Print(_) => "print",
        Action::Stop(None) => "stop",
        Action::Stop(Some(_)) => "stop digits",
        Action::Return => "return",
        Action::Cycle => "cycle",
        Action::Exit => "exit",
        Action::Continue => "continue",
    }
}

/// What a form is called here.
fn kind(form: &Form) -> &'static str {
    match form {
        Form::Unit(_, _) => "unit",
        Form::Contains => "contains",
        Form::End(None, _) => "end",
        Form::End(Some(Ended::If), _) => "end if",
        Form::End(Some(_), None) => "end what",
        Form::End(Some(_), Some(_)) => "end what name",
        Form::Procedure(_) => "procedure",
        Form::Use(_) => "use",
        Form::ImplicitNone => "implicit none",
        Form::Access(_) => "access",
        Form::Protected(_) => "protected",
        Form::Save => "save",
        Form::Declare(_) => "declare",
        Form::Type(None, _) => "type",
        Form::Type(Some(_), _) => "type access",
        Form::Final(_) => "final",
        Form::Act(action) => action_kind(action),
        Form::LogicalIf(_, _, _) => "logical if",
        Form::IfThen(_) => "if then",
        Form::ElseIf(_) => "else if",
        Form::Else => "else",
        Form::Select(_) => "select",
        Form::Case(Selector::Default) => "case default",
        Form::Case(Selector::Values(_)) => "case",
        Form::Do(Control::Forever) => "do",
        Form::Do(Control::Counted(_, _, _, _)) => "do counted",
        Form::Do(Control::While(_)) => "do while",
        Form::Associate(_) => "associate",
    }
}

/// What a form is called; `none` where there is none.
fn form_text(alloc: Global, form: &Result<Form, ReadError>) -> Result<String, AllocError> {
    match form {
        Ok(form) => String::from_str(alloc, kind(form)),
        Err(ReadError::NoForm) => String::from_str(alloc, "none"),
        Err(ReadError::Memory) => Err(AllocError),
    }
}

fn formed(alloc: Global, items: &[Item]) -> Result<String, AllocError> {
    let form = statement(alloc, items);
    let text = form_text(alloc, &form);
    drop(form);
    text
}

/// What is made of a statement, as the grammar sees it.
fn of_line(
    alloc: Global,
    question: &str,
    line: &Line,
    tables: &Tables,
) -> Result<String, AllocError> {
    match question {
        "words" => words_text(alloc, line, tables),
        "form" => formed(alloc, &line.items),
        _ => of_items(alloc, question, &line.items),
    }
}

/// What is made of a statement.
fn of_statement(
    alloc: Global,
    question: &str,
    statement: &RawStatement,
) -> Result<String, AllocError> {
    if question == "tokens" {
        return lexed(alloc, statement);
    }
    let mut tables = Tables::new(alloc);
    let line = line(alloc, &mut tables, statement)?;
    let text = of_line(alloc, question, &line, &tables);
    drop(line);
    drop(tables);
    text
}

/// What is made of the first statement of a text; what stands at the front of no words where it has none.
pub fn of_first(alloc: Global, question: &str, text: &str) -> Result<String, AllocError> {
    let sources = sources(alloc, text)?;
    let mut reader = Statements::new(&sources);
    let first = reader.next(alloc);
    let answer = match &first {
        Ok(Some(statement)) => of_statement(alloc, question, statement),
        Ok(None) => of_items(alloc, question, &[]),
        Err(_) => Err(AllocError),
    };
    drop(first);
    drop(sources);
    answer
}
