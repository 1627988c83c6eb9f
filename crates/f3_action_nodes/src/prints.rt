//! Items of a PRINT (9.5).

ghost use Rattle.std.specs.Prelude.{◌≡◌, [], map, slice_index_or, IfOk};
ghost use Rattle.f3_tree.specs.Expressions as tree;
ghost use Rattle.f3_elaboration.specs.Actions as elaborated;
ghost use Rattle.f3_elaboration.specs.Expressions as expressions;
ghost use Rattle.f3_elaboration.specs.Nodes as nodes;
ghost use Rattle.f3_elaboration.specs.Views.{item_view};
ghost use Rattle.f3_numbers.specs.Surroundings.{surroundings_of};

use f3_expression_nodes::expressions::expression;
use f3_numbers::surroundings::Surroundings;
use f3_program::statement::Item;
use f3_tree::expression::Expression;
use std::alloc::{AllocError, Global};

/// The bytes of a character constant, by its number.
fn text(alloc: Global, texts: &[Vec<u8>], number: usize) -> Result<Vec<u8>, AllocError>
    ensures { IfOk result (λ v. v.items ≡ slice_index_or (map (λ t. t.items) texts.now) number []) }
{
    let mut found = Vec::new(alloc);
    match texts.get(number) {
        Some(text) => {
            found.extend_from_slice(text)?;
            Ok(found)
        }
        None => Ok(found),
    }
}

fn shown(alloc: Global, from: Surroundings<'_>, e: &Expression) -> Result<Item, AllocError>
    ensures { IfOk result (λ x. item_view x ≡ nodes.shown (expressions.expression (surroundings_of from.entry) (tree.expression_view e.now))) }
{
    let found = expression(alloc, from, e)?;
    Ok(Item::Value(found))
}

/// An item: a character constant, or a value.
fn item(alloc: Global, from: Surroundings<'_>, e: &Expression) -> Result<Item, AllocError>
    ensures { IfOk result (λ x. item_view x ≡ elaborated.item (surroundings_of from.entry) (tree.expression_view e.now)) }
{
    match e {
        Expression::Text(_, number) => {
            let found = text(alloc, from.texts, *number)?;
            Ok(Item::Text(found))
        }
        Expression::Integer(_, _) => shown(alloc, from, e),
        Expression::Truth(_, _) => shown(alloc, from, e),
        Expression::Designator(_) => shown(alloc, from, e),
        Expression::Group(_, _) => shown(alloc, from, e),
        Expression::Array(_, _) => shown(alloc, from, e),
        Expression::Signed(_, _, _) => shown(alloc, from, e),
        Expression::Not(_, _) => shown(alloc, from, e),
        Expression::Comparison(_, _, _) => shown(alloc, from, e),
        Expression::Chain(_, _) => shown(alloc, from, e),
    }
}

/// The items of a PRINT, in the order written (9.5.2).
///
/// # Errors
///
/// Where memory runs out.
pub fn items(
    alloc: Global,
    from: Surroundings<'_>,
    list: &[Expression],
) -> Result<Vec<Item>, AllocError>
    ensures { IfOk result (λ v. map item_view v.items ≡ map (elaborated.item (surroundings_of from.entry)) (map tree.expression_view list.now)) }
{
    let mut found = Vec::new(alloc);
    for e in list {
        found.push(item(alloc, from, e)?)?;
    }
    Ok(found)
}
