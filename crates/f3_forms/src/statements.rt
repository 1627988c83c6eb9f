//! The form of a statement.

ghost use Rattle.std.specs.Prelude.{◌≡◌, true, false, []};
ghost use Rattle.f3_tree.specs.Expressions.{expression_view};
ghost use Rattle.f3_words.specs.declared.item.Keyword.TheVariants.{Then};
ghost use Rattle.f3_words.specs.Reads.{Finds};
ghost use Rattle.f3_form.specs.Forms.{FormTree, unit, contains, uses, accesses, protects, saves, finals, else_if, select_case, case_of, repeats, associates, form_view};
ghost use Rattle.f3_reading.specs.Parts.{EatsKeyword};
ghost use Rattle.f3_reading.specs.Names.{IsName, IsNameList};
ghost use Rattle.f3_declarations.specs.Specifications.{IsAccess, IsUse};
ghost use Rattle.f3_actions.specs.Actions.{IsThen, IsCondition, IsCase, IsDo, IsAssociate};
ghost use Rattle.f3_forms.specs.Grammar.{Makes, IsBare, IsType, IsLogicalIf, IsIfBehind, IsIf, IsElse, IsSelect, IsImplicit, IsFormOf, IsHeaded, IsAct, IsProcedure, IsDeclared, IsSpecified, IsPassive, IsForm};

use crate::ends::{end, joined_end};
use f3_actions::actions::action;
use f3_actions::constructs::{associations, condition, control, selector, then, whole_condition};
use f3_declarations::access::{access, type_access};
use f3_declarations::declarations::declaration;
use f3_declarations::procedures::header;
use f3_declarations::uses::use_statement;
use f3_form::form::{Ended, Form};
use f3_places::source::Place;
use f3_reading::names::{name_list, only_name, skip_colons};
use f3_reading::signs::{behind, is_over, skip};
use f3_tree::declaration::Accessibility;
use f3_tree::expression::Expression;
use f3_tree::program::UnitKind;
use f3_words::error::ReadError;
use f3_words::item::{Item, Keyword, Word};
use f3_words::reading::front;
use std::alloc::Global;

/// What stands behind CONTAINS.
fn contains(items: &[Item]) -> Result<Form, ReadError>
    ensures { Finds (IsBare contains) form_view result items.now }
{
    if is_over(items) {
        Ok(Form::Contains)
    } else {
        Err(ReadError::NoForm)
    }
}

/// What stands behind SAVE.
fn save(items: &[Item]) -> Result<Form, ReadError>
    ensures { Finds (IsBare saves) form_view result items.now }
{
    if is_over(items) {
        Ok(Form::Save)
    } else {
        Err(ReadError::NoForm)
    }
}

/// What stands behind MODULE or PROGRAM.
fn unit(kind: UnitKind, items: &[Item]) -> Result<Form, ReadError>
    ensures { Finds (Makes (unit kind) IsName) form_view result items.now }
{
    Ok(Form::Unit(kind, only_name(items)?))
}

/// What stands behind USE.
fn use_form(alloc: Global, place: Place, items: &[Item]) -> Result<Form, ReadError>
    ensures { Finds (Makes uses (IsUse place)) form_view result items.now }
{
    Ok(Form::Use(use_statement(alloc, place, items)?))
}

/// What stands behind IMPLICIT.
#[tactic(auto, unfolding(crate::specs::Grammar::IsImplicit))]
fn implicit(items: &[Item]) -> Result<Form, ReadError>
    ensures { Finds IsImplicit form_view result items.now }
{
    let rest = skip(Word::Name(Keyword::NoneWord), items)?;
    if is_over(rest) {
        Ok(Form::ImplicitNone)
    } else {
        Err(ReadError::NoForm)
    }
}

/// What stands behind PUBLIC or PRIVATE.
fn access_form(
    alloc: Global,
    place: Place,
    accessibility: Accessibility,
    items: &[Item],
) -> Result<Form, ReadError>
    ensures { Finds (Makes accesses (IsAccess place accessibility)) form_view result items.now }
{
    Ok(Form::Access(access(alloc, place, accessibility, items)?))
}

/// What stands behind PROTECTED.
fn protected(alloc: Global, items: &[Item]) -> Result<Form, ReadError>
    ensures { Finds (Makes protects IsNameList) form_view result items.now }
{
    Ok(Form::Protected(name_list(alloc, items)?))
}

/// What stands behind FINAL.
fn finals(alloc: Global, items: &[Item]) -> Result<Form, ReadError>
    ensures { Finds (Makes finals IsNameList) form_view result items.now }
{
    Ok(Form::Final(name_list(alloc, items)?))
}

/// What stands behind the TYPE that begins a definition.
#[tactic(auto, unfolding(crate::specs::Grammar::IsType, f3_declarations::specs::Specifications::IsTypeBegin, f3_declarations::specs::Specifications::EatsTypeAccess, f3_reading::specs::Parts::Lacks))]
fn type_form(items: &[Item]) -> Result<Form, ReadError>
    ensures { Finds IsType form_view result items.now }
{
    if let Some(_) = behind(Word::Comma, items) {
        let (access, rest) = type_access(items)?;
        let name = only_name(rest)?;
        return Ok(Form::Type(Some(access), name));
    }
    let (_, rest) = skip_colons(items);
    let name = only_name(rest)?;
    Ok(Form::Type(None, name))
}

/// Whether THEN is all of the tokens.
#[tactic(auto, unfolding(f3_reading::specs::Parts::Lacks))]
fn is_then(items: &[Item]) -> bool
    ensures is { result ≡ true → EatsKeyword Then items.now [] }
    ensures not { result ≡ false → EatsKeyword Then items.now [] → ⊥ }
{
    match behind(Word::Name(Keyword::Then), items) {
        Some(rest) => is_over(rest),
        None => false,
    }
}

/// The logical IF with the action that all of the tokens are.
#[tactic(auto, unfolding(crate::specs::Grammar::IsLogicalIf))]
fn logical_if(alloc: Global, test: Expression, items: &[Item]) -> Result<Form, ReadError>
    ensures { Finds (IsLogicalIf (expression_view test)) form_view result items.now }
{
    match front(items) {
        None => Err(ReadError::NoForm),
        Some((first, _)) => {
            let action = action(alloc, items)?;
            Ok(Form::LogicalIf(test, first.place, action))
        }
    }
}

/// What stands behind IF and its condition.
#[tactic(auto, unfolding(crate::specs::Grammar::IsIfBehind, crate::specs::Grammar::IsBlockIf))]
fn if_behind(alloc: Global, test: Expression, items: &[Item]) -> Result<Form, ReadError>
    ensures { Finds (IsIfBehind (expression_view test)) form_view result items.now }
{
    if is_then(items) {
        Ok(Form::IfThen(test))
    } else {
        Ok(logical_if(alloc, test, items)?)
    }
}

/// What stands behind IF.
#[tactic(auto, unfolding(crate::specs::Grammar::IsIf))]
fn if_form(alloc: Global, items: &[Item]) -> Result<Form, ReadError>
    ensures { Finds IsIf form_view result items.now }
{
    let (test, rest) = condition(alloc, items)?;
    Ok(if_behind(alloc, test, rest)?)
}

/// What stands behind ELSEIF.
fn else_if(alloc: Global, items: &[Item]) -> Result<Form, ReadError>
    ensures { Finds (Makes else_if IsThen) form_view result items.now }
{
    Ok(Form::ElseIf(then(alloc, items)?))
}

/// What stands behind ELSE.
#[tactic(auto, unfolding(crate::specs::Grammar::IsElse))]
fn else_form(alloc: Global, items: &[Item]) -> Result<Form, ReadError>
    ensures { Finds IsElse form_view result items.now }
{
    if is_over(items) {
        return Ok(Form::Else);
    }
    let rest = skip(Word::Name(Keyword::If), items)?;
    Ok(Form::ElseIf(then(alloc, rest)?))
}

/// What stands behind SELECTCASE.
fn select_case(alloc: Global, items: &[Item]) -> Result<Form, ReadError>
    ensures { Finds (Makes select_case IsCondition) form_view result items.now }
{
    Ok(Form::Select(whole_condition(alloc, items)?))
}

/// What stands behind SELECT.
#[tactic(auto, unfolding(crate::specs::Grammar::IsSelect))]
fn select(alloc: Global, items: &[Item]) -> Result<Form, ReadError>
    ensures { Finds IsSelect form_view result items.now }
{
    let rest = skip(Word::Name(Keyword::Case), items)?;
    Ok(Form::Select(whole_condition(alloc, rest)?))
}

/// What stands behind CASE.
fn case(alloc: Global, items: &[Item]) -> Result<Form, ReadError>
    ensures { Finds (Makes case_of IsCase) form_view result items.now }
{
    Ok(Form::Case(selector(alloc, items)?))
}

/// What stands behind DO.
fn do_form(alloc: Global, items: &[Item]) -> Result<Form, ReadError>
    ensures { Finds (Makes repeats IsDo) form_view result items.now }
{
    Ok(Form::Do(control(alloc, items)?))
}

/// What stands behind ASSOCIATE.
fn associate(alloc: Global, items: &[Item]) -> Result<Form, ReadError>
    ensures { Finds (Makes associates IsAssociate) form_view result items.now }
{
    Ok(Form::Associate(associations(alloc, items)?))
}

/// What stands behind the keyword at the place.
fn form_of(alloc: Global, keyword: Keyword, place: Place, items: &[Item]) -> Result<Form, ReadError>
    ensures { Finds (IsFormOf keyword place) form_view result items.now }
{
    match keyword {
        Keyword::Module => unit(UnitKind::Module, items),
        Keyword::Program => unit(UnitKind::Program, items),
        Keyword::Contains => contains(items),
        Keyword::End => end(items),
        Keyword::EndModule => joined_end(Ended::Module, items),
        Keyword::EndProgram => joined_end(Ended::Program, items),
        Keyword::EndSubroutine => joined_end(Ended::Subroutine, items),
        Keyword::EndFunction => joined_end(Ended::Function, items),
        Keyword::EndType => joined_end(Ended::Type, items),
        Keyword::EndIf => joined_end(Ended::If, items),
        Keyword::EndSelect => joined_end(Ended::Select, items),
        Keyword::EndDo => joined_end(Ended::Do, items),
        Keyword::EndAssociate => joined_end(Ended::Associate, items),
        Keyword::Use => use_form(alloc, place, items),
        Keyword::Implicit => implicit(items),
        Keyword::Public => access_form(alloc, place, Accessibility::Public, items),
        Keyword::Private => access_form(alloc, place, Accessibility::Private, items),
        Keyword::Protected => protected(alloc, items),
        Keyword::Save => save(items),
        Keyword::Type => type_form(items),
        Keyword::Final => finals(alloc, items),
        Keyword::If => if_form(alloc, items),
        Keyword::Else => else_form(alloc, items),
        Keyword::ElseIf => else_if(alloc, items),
        Keyword::Select => select(alloc, items),
        Keyword::SelectCase => select_case(alloc, items),
        Keyword::Case => case(alloc, items),
        Keyword::Do => do_form(alloc, items),
        Keyword::Associate => associate(alloc, items),
        _ => Err(ReadError::NoForm),
    }
}

/// A form that begins with a keyword of its own.
#[tactic(auto, unfolding(crate::specs::Grammar::IsHeaded))]
fn headed(alloc: Global, items: &[Item]) -> Result<Form, ReadError>
    ensures { Finds IsHeaded form_view result items.now }
{
    match front(items) {
        None => Err(ReadError::NoForm),
        Some((first, tail)) => match first.word {
            Word::Name(keyword) => Ok(form_of(alloc, keyword, first.place, tail)?),
            _ => Err(ReadError::NoForm),
        },
    }
}

/// An action.
#[tactic(auto, unfolding(crate::specs::Grammar::IsAct))]
fn act(alloc: Global, items: &[Item]) -> Result<Form, ReadError>
    ensures { Finds IsAct form_view result items.now }
{
    Ok(Form::Act(action(alloc, items)?))
}

/// A SUBROUTINE or FUNCTION statement.
#[tactic(auto, unfolding(crate::specs::Grammar::IsProcedure))]
fn procedure(alloc: Global, items: &[Item]) -> Result<Form, ReadError>
    ensures { Finds IsProcedure form_view result items.now }
{
    match front(items) {
        None => Err(ReadError::NoForm),
        Some((first, _)) => Ok(Form::Procedure(header(alloc, first.place, items)?)),
    }
}

/// A type declaration statement.
#[tactic(auto, unfolding(crate::specs::Grammar::IsDeclared))]
fn declared(alloc: Global, items: &[Item]) -> Result<Form, ReadError>
    ensures { Finds IsDeclared form_view result items.now }
{
    match front(items) {
        None => Err(ReadError::NoForm),
        Some((first, _)) => Ok(Form::Declare(declaration(alloc, first.place, items)?)),
    }
}

/// A declaration, or a form of another keyword.
#[tactic(auto, unfolding(crate::specs::Grammar::IsSpecified))]
fn specified(alloc: Global, items: &[Item]) -> Result<Form, ReadError>
    ensures { Finds IsSpecified form_view result items.now }
{
    match declared(alloc, items) {
        Ok(found) => Ok(found),
        Err(ReadError::Memory) => Err(ReadError::Memory),
        Err(ReadError::NoForm) => Ok(headed(alloc, items)?),
    }
}

/// What is no action.
#[tactic(auto, unfolding(crate::specs::Grammar::IsPassive))]
fn passive(alloc: Global, items: &[Item]) -> Result<Form, ReadError>
    ensures { Finds IsPassive form_view result items.now }
{
    match procedure(alloc, items) {
        Ok(found) => Ok(found),
        Err(ReadError::Memory) => Err(ReadError::Memory),
        Err(ReadError::NoForm) => Ok(specified(alloc, items)?),
    }
}

/// The statement that the tokens spell; NoForm where they spell none. An assignment is one whatever its first name
/// is (ISO/IEC 1539-1:2004, 2.5.2).
#[tactic(auto, unfolding(crate::specs::Grammar::IsForm))]
pub fn statement(alloc: Global, items: &[Item]) -> Result<Form, ReadError>
    ensures { Finds IsForm form_view result items.now }
{
    match act(alloc, items) {
        Ok(found) => Ok(found),
        Err(ReadError::Memory) => Err(ReadError::Memory),
        Err(ReadError::NoForm) => Ok(passive(alloc, items)?),
    }
}
