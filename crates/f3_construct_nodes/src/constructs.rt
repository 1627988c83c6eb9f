//! The heads of constructs.

ghost use Rattle.std.specs.Prelude.{◌≡◌, map, option_map, pos, IfOk};
ghost use Rattle.f3_tree.specs.Expressions as tree;
ghost use Rattle.f3_tree.specs.Statements.{association_view, case_view, control_view, counted as counted_control};
ghost use Rattle.f3_kinds.specs.Things.{map_or};
ghost use Rattle.f3_kinds.specs.Values.{value_of};
ghost use Rattle.f3_type_rules.specs.Statements as rules;
ghost use Rattle.f3_elaboration.specs.Actions as actions;
ghost use Rattle.f3_elaboration.specs.Declarations as declarations;
ghost use Rattle.f3_elaboration.specs.Expressions as expressions;
ghost use Rattle.f3_elaboration.specs.Nodes as nodes;
ghost use Rattle.f3_elaboration.specs.Statements as elaborated;
ghost use Rattle.f3_elaboration.specs.Views.{designator_view, expression_view, selector_view, statement_view};
ghost use Rattle.f3_numbers.specs.Surroundings.{surroundings_of};
ghost use Rattle.f3_typed_parts.specs.Known.{context_of};

use f3_action_nodes::kinds::{held_kind, kind, variable_kind};
use f3_action_nodes::values::one;
use f3_expression_nodes::expressions::{expression, variable};
use f3_kinds::types::Scalar;
use f3_numbers::surroundings::Surroundings;
use f3_program::declarations::{Constant, Kind};
use f3_program::expression::{Designator, Expression};
use f3_program::statement::{Range, Selector, Statement};
use f3_tree::expression as tree;
use f3_tree::expression::{Argument, Name};
use f3_tree::statement::{Association, CaseValue, Control};
use f3_typed_parts::known::{Known, Position};
use f3_values::values::value;
use std::alloc::{AllocError, Global};

fn constant_of(value: Option<Scalar>) -> Constant
    ensures { result ≡ declarations.constant_of value }
{
    match value {
        Some(Scalar::Number(_, z)) => Constant::Number(z),
        Some(Scalar::Truth(truth)) => Constant::Truth(truth),
        None => Constant::Number(0),
    }
}

fn whole_number(value: Option<Scalar>) -> i64
    ensures { result ≡ declarations.whole_number value }
{
    match value {
        Some(Scalar::Number(_, z)) => z,
        Some(Scalar::Truth(_)) => 0,
        None => 0,
    }
}

/// The value of an end of a range.
fn case_number(known: &Known<'_>, at: Position, e: &tree::Expression) -> i64
    ensures { result ≡ elaborated.case_number (context_of known.now at) (tree.expression_view e.now) }
{
    whole_number(value(known, at, e))
}

fn case_range(known: &Known<'_>, at: Position, written: &CaseValue) -> Range
    ensures { result ≡ elaborated.case_range (context_of known.now at) (case_view written.now) }
{
    match written {
        CaseValue::Value(e) => Range::One(constant_of(value(known, at, e))),
        CaseValue::From(e) => Range::From(case_number(known, at, e)),
        CaseValue::UpTo(_, e) => Range::To(case_number(known, at, e)),
        CaseValue::Range(e, f) => {
            Range::Between(case_number(known, at, e), case_number(known, at, f))
        }
    }
}

/// The values and ranges of a CASE (8.1.3).
///
/// # Errors
///
/// Where memory runs out.
pub fn ranges(
    alloc: Global,
    known: &Known<'_>,
    at: Position,
    values: &[CaseValue],
) -> Result<Vec<Range>, AllocError>
    ensures { IfOk result (λ v. v.items ≡ map (elaborated.case_range (context_of known.now at)) (map case_view values.now)) }
{
    let mut found = Vec::new(alloc);
    for written in values {
        found.push(case_range(known, at, written))?;
    }
    Ok(found)
}

fn selected(kind: Kind, x: Expression) -> Selector
    ensures { selector_view result ≡ elaborated.selected kind (expression_view x) }
{
    match x {
        Expression::Variable(designator) => Selector::Variable(Box::into_inner(designator)),
        x => Selector::Value(kind, x),
    }
}

/// A selector of an ASSOCIATE: a variable, or a value (8.1.4).
///
/// # Errors
///
/// Where memory runs out.
pub fn selector(
    alloc: Global,
    from: Surroundings<'_>,
    association: &Association,
) -> Result<Selector, AllocError>
    ensures { IfOk result (λ x. selector_view x ≡ elaborated.selector (surroundings_of from.entry) (association_view association.now)) }
{
    let kind = kind(alloc, from, &association.selector)?;
    let found = expression(alloc, from, &association.selector)?;
    Ok(selected(kind, found))
}

/// A name alone as a variable.
fn alone(alloc: Global, name: Name) -> Result<Vec<(Name, Option<Vec<Argument>>)>, AllocError>
    ensures { IfOk result (λ v. tree.designator_view v ≡ rules.variable_of name) }
{
    let mut list = Vec::new(alloc);
    list.push((name, None))?;
    Ok(list)
}

/// A variable, and of what kind it is as the variable of a loop (8.1.6.4.1).
fn counting(
    alloc: Global,
    from: Surroundings<'_>,
    list: &[(Name, Option<Vec<Argument>>)],
) -> Result<(Designator, Kind), AllocError>
    ensures variable { IfOk result (λ p. designator_view p.0 ≡ actions.variable (surroundings_of from.entry) (tree.parts_list (map tree.part_view list.now))) }
    ensures kind { IfOk result (λ p. p.1 ≡ actions.held_kind (actions.kind (surroundings_of from.entry) (tree.designator (tree.parts_list (map tree.part_view list.now))))) }
{
    let kind = variable_kind(alloc, from, list)?;
    let object = variable(alloc, from, list)?;
    Ok((object, held_kind(kind)))
}

/// The variable of a loop, and of what kind it is (8.1.6.4.1).
fn counter(
    alloc: Global,
    from: Surroundings<'_>,
    name: Name,
) -> Result<(Designator, Kind), AllocError>
    ensures variable { IfOk result (λ p. designator_view p.0 ≡ actions.variable (surroundings_of from.entry) (rules.variable_of name)) }
    ensures kind { IfOk result (λ p. p.1 ≡ actions.held_kind (actions.kind (surroundings_of from.entry) (tree.designator (rules.variable_of name)))) }
{
    let list = alone(alloc, name)?;
    let found = counting(alloc, from, &list);
    drop(list);
    found
}

/// The step of a loop; 1 where it is not written.
fn step_of(
    alloc: Global,
    from: Surroundings<'_>,
    written: &Option<tree::Expression>,
) -> Result<Expression, AllocError>
    ensures { IfOk result (λ x. expression_view x ≡ map_or (expressions.number (pos 1)) (expressions.expression (surroundings_of from.entry)) (option_map tree.expression_view written.now)) }
{
    match written {
        Some(e) => expression(alloc, from, e),
        None => Ok(one()),
    }
}

/// The bounds and the step of a loop.
fn limits(
    alloc: Global,
    from: Surroundings<'_>,
    first: &tree::Expression,
    last: &tree::Expression,
    step: &Option<tree::Expression>,
) -> Result<(Expression, Expression, Expression), AllocError>
    ensures first { IfOk result (λ p. expression_view p.0 ≡ expressions.expression (surroundings_of from.entry) (tree.expression_view first.now)) }
    ensures last { IfOk result (λ p. expression_view p.1 ≡ expressions.expression (surroundings_of from.entry) (tree.expression_view last.now)) }
    ensures step { IfOk result (λ p. expression_view p.2 ≡ map_or (expressions.number (pos 1)) (expressions.expression (surroundings_of from.entry)) (option_map tree.expression_view step.now)) }
{
    let first = expression(alloc, from, first)?;
    match expression(alloc, from, last) {
        Ok(last) => match step_of(alloc, from, step) {
            Ok(step) => Ok((first, last, step)),
            Err(error) => {
                drop(first);
                drop(last);
                Err(error)
            }
        },
        Err(error) => {
            drop(first);
            Err(error)
        }
    }
}

/// A DO with a variable (8.1.6.4).
fn counted(
    alloc: Global,
    from: Surroundings<'_>,
    name: Name,
    first: &tree::Expression,
    last: &tree::Expression,
    step: &Option<tree::Expression>,
    body: Statement,
) -> Result<Statement, AllocError>
    ensures { IfOk result (λ s. statement_view s ≡ elaborated.loop (surroundings_of from.entry) (counted_control name (tree.expression_view first.now) (tree.expression_view last.now) (option_map tree.expression_view step.now)) (statement_view body)) }
{
    let body = Box::new(alloc, body)?;
    match counter(alloc, from, name) {
        Ok((object, kind)) => match limits(alloc, from, first, last, step) {
            Ok((first, last, step)) => {
                Ok(Statement::Count(object, kind, first, last, step, body))
            }
            Err(error) => {
                drop(object);
                drop(body);
                Err(error)
            }
        },
        Err(error) => {
            drop(body);
            Err(error)
        }
    }
}

/// A DO while a condition holds (8.1.6.4).
fn repeated(alloc: Global, condition: Expression, body: Statement) -> Result<Statement, AllocError>
    ensures { IfOk result (λ s. statement_view s ≡ nodes.while (expression_view condition) (statement_view body)) }
{
    match Box::new(alloc, body) {
        Ok(body) => Ok(Statement::While(condition, body)),
        Err(error) => {
            drop(condition);
            Err(error.into())
        }
    }
}

/// A DO WHILE (8.1.6.4).
fn conditional(
    alloc: Global,
    from: Surroundings<'_>,
    e: &tree::Expression,
    body: Statement,
) -> Result<Statement, AllocError>
    ensures { IfOk result (λ s. statement_view s ≡ nodes.while (expressions.expression (surroundings_of from.entry) (tree.expression_view e.now)) (statement_view body)) }
{
    match expression(alloc, from, e) {
        Ok(condition) => repeated(alloc, condition, body),
        Err(error) => {
            drop(body);
            Err(error)
        }
    }
}

/// A DO construct with this body (8.1.6).
///
/// # Errors
///
/// Where memory runs out.
pub fn looped(
    alloc: Global,
    from: Surroundings<'_>,
    control: &Control,
    body: Statement,
) -> Result<Statement, AllocError>
    ensures { IfOk result (λ s. statement_view s ≡ elaborated.loop (surroundings_of from.entry) (control_view control.now) (statement_view body)) }
{
    match control {
        Control::Forever => repeated(alloc, Expression::Literal(Constant::Truth(true)), body),
        Control::While(e) => conditional(alloc, from, e, body),
        Control::Counted(name, first, last, step) => {
            counted(alloc, from, *name, first, last, step, body)
        }
    }
}
