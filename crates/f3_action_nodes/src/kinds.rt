//! Of what type and rank expressions and variables are.

ghost use Rattle.std.specs.Prelude.{◌≡◌, map, IfOk};
ghost use Rattle.f3_tree.specs.Expressions as tree;
ghost use Rattle.f3_elaboration.specs.Actions as elaborated;
ghost use Rattle.f3_numbers.specs.Surroundings.{surroundings_of};

use f3_kinds::said::{Has, Role};
use f3_numbers::surroundings::Surroundings;
use f3_program::declarations::{Base, Kind};
use f3_tree::expression::{Argument, Expression, Name};
use f3_typing::designators::designator;
use f3_typing::typing::expression;
use std::alloc::{AllocError, Global};

/// The kind of what an expression has; that of an integer scalar where it has nothing.
pub fn kind_by(from: Surroundings<'_>, has: Option<Has>) -> Kind
    ensures { result ≡ elaborated.kind_by (surroundings_of from.entry) has }
{
    match has {
        Some(has) => Kind {
            of: from.numbers.base(has.data_type),
            rank: has.rank,
            is_allocatable: has.is_allocatable,
        },
        None => Kind {
            of: Base::Integer,
            rank: 0,
            is_allocatable: false,
        },
    }
}

/// Of what type and rank an expression is, and whether it is a whole allocatable (7.1.4).
///
/// # Errors
///
/// Where memory runs out.
pub fn kind(alloc: Global, from: Surroundings<'_>, e: &Expression) -> Result<Kind, AllocError>
    ensures { IfOk result (λ k. k ≡ elaborated.kind (surroundings_of from.entry) (tree.expression_view e.now)) }
{
    let mut first = None;
    let said = expression(alloc, from.known, from.at, &mut first, e)?;
    Ok(kind_by(from, said.has))
}

/// Of what type and rank a variable is, and whether it is a whole allocatable (7.1.4.1).
///
/// # Errors
///
/// Where memory runs out.
pub fn variable_kind(
    alloc: Global,
    from: Surroundings<'_>,
    list: &[(Name, Option<Vec<Argument>>)],
) -> Result<Kind, AllocError>
    ensures { IfOk result (λ k. k ≡ elaborated.kind (surroundings_of from.entry) (tree.designator (tree.parts_list (map tree.part_view list.now)))) }
{
    let mut first = None;
    let said = designator(
        alloc,
        from.known,
        from.at,
        &mut first,
        Role::Expression,
        list,
    )?;
    Ok(kind_by(from, said.has))
}

/// Of what an allocatable holds.
pub fn held_kind(kind: Kind) -> Kind
    ensures { result ≡ elaborated.held_kind kind }
{
    Kind {
        of: kind.of,
        rank: kind.rank,
        is_allocatable: false,
    }
}
