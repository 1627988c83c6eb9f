//! Calls of subroutines, and MOVE_ALLOC (12.4, 13.7.82).

ghost use Rattle.std.specs.Prelude.{◌≡◌, [], ◌∷◌, map, IfOk};
ghost use Rattle.f3_tree.specs.Expressions as tree;
ghost use Rattle.f3_kinds.specs.Things as things;
ghost use Rattle.f3_elaboration.specs.Actions as elaborated;
ghost use Rattle.f3_elaboration.specs.Nodes as nodes;
ghost use Rattle.f3_elaboration.specs.Views.{designator_view, statement_view};
ghost use Rattle.f3_numbers.specs.Surroundings.{surroundings_of};
ghost use Rattle.f3_typed_parts.specs.Known.{context_of, nature_of};

use crate::kinds::kind;
use f3_access::lookup;
use f3_expression_nodes::expressions::{expression, given};
use f3_expression_parts::arguments::arguments_for;
use f3_expression_parts::selections::{itself, named};
use f3_kinds::things::{Intrinsic, Signature, Thing};
use f3_lookups::lookup::Lookup;
use f3_numbers::surroundings::Surroundings;
use f3_program::expression as program;
use f3_program::statement::Statement;
use f3_tree::expression::{Argument, Expression, Name};
use f3_typed_parts::known::{Known, Position};
use std::alloc::{AllocError, Global};

/// What CONTINUE does, and a call that no accepted program has.
pub fn nothing_done(alloc: Global) -> Statement
    ensures { statement_view result ≡ elaborated.nothing_done }
{
    Statement::Block(Vec::new(alloc))
}

/// Whether an argument of MOVE_ALLOC is FROM, where it stands first (13.7.82).
fn is_from(known: &Known<'_>, keyword: Option<Name>) -> bool
    ensures { result ≡ elaborated.is_from known.now.moving keyword }
{
    match keyword {
        Some(keyword) => keyword.symbol == known.moving.0,
        None => true,
    }
}

/// An allocatable itself.
fn allocatable(
    alloc: Global,
    from: Surroundings<'_>,
    e: &Expression,
) -> Result<program::Designator, AllocError>
    ensures { IfOk result (λ d. designator_view d ≡ elaborated.allocatable (surroundings_of from.entry) (tree.expression_view e.now)) }
{
    let found = expression(alloc, from, e)?;
    Ok(itself(named(found)))
}

fn moved(
    alloc: Global,
    from: Surroundings<'_>,
    keyword: Option<Name>,
    e: &Expression,
    f: &Expression,
) -> Result<Statement, AllocError>
    ensures { IfOk result (λ s. statement_view s ≡ nodes.move_alloc (elaborated.kind (surroundings_of from.entry) (tree.expression_view e.now)) (elaborated.is_from from.entry.known.now.moving keyword) (elaborated.allocatable (surroundings_of from.entry) (tree.expression_view e.now)) (elaborated.allocatable (surroundings_of from.entry) (tree.expression_view f.now))) }
{
    let kind = kind(alloc, from, e)?;
    let is_from = is_from(from.known, keyword);
    let first = allocatable(alloc, from, e)?;
    match allocatable(alloc, from, f) {
        Ok(second) => Ok(Statement::MoveAlloc(kind, is_from, first, second)),
        Err(error) => {
            drop(first);
            Err(error)
        }
    }
}

fn pair(
    alloc: Global,
    from: Surroundings<'_>,
    first: &Argument,
    second: &Argument,
) -> Result<Statement, AllocError>
    ensures { IfOk result (λ s. statement_view s ≡ elaborated.move (surroundings_of from.entry) (tree.argument_view first.now ∷ tree.argument_view second.now ∷ [])) }
{
    match first {
        Argument::Value(keyword, e) => match second {
            Argument::Value(_, f) => moved(alloc, from, *keyword, e, f),
            Argument::Triplet(_, _, _, _) => Ok(nothing_done(alloc)),
        },
        Argument::Triplet(_, _, _, _) => Ok(nothing_done(alloc)),
    }
}

/// MOVE_ALLOC of two allocatables, in the order written (13.7.82).
#[tactic(auto, using(crate::proofs::Moves::move_of_one, crate::proofs::Moves::move_of_many))]
fn move_alloc(
    alloc: Global,
    from: Surroundings<'_>,
    list: &[Argument],
) -> Result<Statement, AllocError>
    ensures { IfOk result (λ s. statement_view s ≡ elaborated.move (surroundings_of from.entry) (map tree.argument_view list.now)) }
{
    match list.split_first() {
        Some((first, others)) => match others.split_first() {
            Some((second, more)) => {
                if more.is_empty() {
                    pair(alloc, from, first, second)
                } else {
                    Ok(nothing_done(alloc))
                }
            }
            None => Ok(nothing_done(alloc)),
        },
        None => Ok(nothing_done(alloc)),
    }
}

/// A call of a subroutine of the program.
fn subroutine(
    alloc: Global,
    from: Surroundings<'_>,
    number: usize,
    signature: &Signature,
    list: &[Argument],
) -> Result<Statement, AllocError>
    ensures { IfOk result (λ s. statement_view s ≡ elaborated.called (surroundings_of from.entry) (things.entity number (things.subroutine signature.now.is_pure signature.now.dummies.entries)) (map tree.argument_view list.now)) }
{
    let given = given(alloc, from, list)?;
    let list = arguments_for(alloc, &signature.dummies, given)?;
    Ok(Statement::Call(program::Expression::Call(from.numbers.procedure(number), list)))
}

/// A call of an entity.
fn entity(
    alloc: Global,
    from: Surroundings<'_>,
    number: usize,
    thing: &Thing,
    list: &[Argument],
) -> Result<Statement, AllocError>
    ensures { IfOk result (λ s. statement_view s ≡ elaborated.called (surroundings_of from.entry) (things.entity number (nature_of thing.now)) (map tree.argument_view list.now)) }
{
    match thing {
        Thing::Subroutine(signature) => subroutine(alloc, from, number, signature, list),
        Thing::Constant(_) => Ok(nothing_done(alloc)),
        Thing::Variable(_) => Ok(nothing_done(alloc)),
        Thing::Type(_) => Ok(nothing_done(alloc)),
        Thing::Function(_, _) => Ok(nothing_done(alloc)),
    }
}

/// A call of an intrinsic procedure: MOVE_ALLOC alone is a subroutine.
fn intrinsic(
    alloc: Global,
    from: Surroundings<'_>,
    intrinsic: Intrinsic,
    list: &[Argument],
) -> Result<Statement, AllocError>
    ensures { IfOk result (λ s. statement_view s ≡ elaborated.called (surroundings_of from.entry) (things.intrinsic intrinsic) (map tree.argument_view list.now)) }
{
    match intrinsic {
        Intrinsic::MoveAlloc => move_alloc(alloc, from, list),
        Intrinsic::Abs => Ok(nothing_done(alloc)),
        Intrinsic::Mod => Ok(nothing_done(alloc)),
        Intrinsic::Modulo => Ok(nothing_done(alloc)),
        Intrinsic::Max => Ok(nothing_done(alloc)),
        Intrinsic::Min => Ok(nothing_done(alloc)),
        Intrinsic::Size => Ok(nothing_done(alloc)),
        Intrinsic::LowerBound => Ok(nothing_done(alloc)),
        Intrinsic::UpperBound => Ok(nothing_done(alloc)),
        Intrinsic::Allocated => Ok(nothing_done(alloc)),
    }
}

/// The intrinsic procedure that a name means where no entity has it.
fn intrinsic_of(known: &Known<'_>, at: Position, symbol: usize) -> Option<Intrinsic>
    ensures { result ≡ (context_of known.now at).intrinsic symbol }
{
    match known.intrinsics.get(symbol) {
        Some(intrinsic) => *intrinsic,
        None => None,
    }
}

/// A call of a name that no entity has.
fn unlisted(
    alloc: Global,
    from: Surroundings<'_>,
    symbol: usize,
    list: &[Argument],
) -> Result<Statement, AllocError>
    ensures { IfOk result (λ s. statement_view s ≡ elaborated.called (surroundings_of from.entry) (things.map_or things.nothing things.intrinsic ((context_of from.entry.known.now from.entry.at).intrinsic symbol)) (map tree.argument_view list.now)) }
{
    match intrinsic_of(from.known, from.at, symbol) {
        Some(procedure) => intrinsic(alloc, from, procedure, list),
        None => Ok(nothing_done(alloc)),
    }
}

/// A CALL of a name with its arguments, by what the name means (12.4).
///
/// # Errors
///
/// Where memory runs out.
pub fn called(
    alloc: Global,
    from: Surroundings<'_>,
    name: Name,
    list: &[Argument],
) -> Result<Statement, AllocError>
    ensures { IfOk result (λ s. statement_view s ≡ elaborated.called (surroundings_of from.entry) (things.meaning_of (context_of from.entry.known.now from.entry.at) name.symbol) (map tree.argument_view list.now)) }
{
    match lookup(from.known.tables, from.at.scope, name.symbol) {
        Lookup::One(number) => match from.known.things.get(number) {
            Some(thing) => entity(alloc, from, number, thing, list),
            None => Ok(nothing_done(alloc)),
        },
        Lookup::Several => Ok(nothing_done(alloc)),
        Lookup::Nothing => unlisted(alloc, from, name.symbol, list),
    }
}
