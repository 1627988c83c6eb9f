//! Designators where no expression stands.

ghost use Rattle.std.specs.Prelude.{◌≡◌, map, IfOk, OnOk};
ghost use Rattle.std.specs.List.{flat_map};
ghost use Rattle.f3_tree.specs.Expressions.{parts_list, part_view};
ghost use Rattle.f3_kinds.specs.Typing.{designator_at, designator_breaks};
ghost use Rattle.f3_typed_parts.specs.Known.{context_of, part_of};
ghost use Rattle.f3_typed_parts.specs.Noted.{noted};
ghost use Rattle.f3_typing.specs.Lists.{said_part, breaks_part};

use crate::senses;
use crate::typing::{alone, arguments, with_given};
use f3_kinds::said::{Role, Said};
use f3_rules::breaks::Break;
use f3_tree::expression::{Argument, Name};
use f3_typed_parts::known::{Known, Part, Position};
use std::alloc::{AllocError, Global};

/// What is said of what stands behind a part.
#[tactic(auto, using(f3_typed_parts::proofs::Noting::noted_none))]
fn part(
    alloc: Global,
    known: &Known<'_>,
    at: Position,
    first: &mut Option<Break>,
    name: Name,
    behind: &Option<Vec<Argument>>,
) -> Result<Part, AllocError>
    ensures said { IfOk result (λ p. part_of p ≡ said_part (context_of known.now at) (name, behind.now)) }
    ensures noted { OnOk result (first.new ≡ noted first.old (breaks_part (context_of known.now at) (name, behind.now))) }
{
    match behind {
        Some(list) => {
            let given = arguments(alloc, known, at, first, list)?;
            Ok(with_given(name, given))
        }
        None => Ok(alone(name)),
    }
}

/// What is said of what stands behind each part.
fn parts(
    alloc: Global,
    known: &Known<'_>,
    at: Position,
    first: &mut Option<Break>,
    list: &[(Name, Option<Vec<Argument>>)],
) -> Result<Vec<Part>, AllocError>
    ensures said { IfOk result (λ v. map part_of v.items ≡ map (said_part (context_of known.now at)) list.now) }
    ensures noted { OnOk result (first.new ≡ noted first.old (flat_map (breaks_part (context_of known.now at)) list.now)) }
{
    let mut done = Vec::new(alloc);
    for one in list {
        done.push(part(alloc, known, at, first, one.0, &one.1)?)?;
    }
    Ok(done)
}

/// What is said of a designator where no expression stands, by its parts; its first break is noted.
#[tactic(auto, using(crate::proofs::Trees::parts_same, crate::proofs::Trees::parts_breaks, f3_typed_parts::proofs::Noting::noted_more))]
pub fn designator(
    alloc: Global,
    known: &Known<'_>,
    at: Position,
    first: &mut Option<Break>,
    role: Role,
    list: &[(Name, Option<Vec<Argument>>)],
) -> Result<Said, AllocError>
    ensures said { IfOk result (λ s. s ≡ designator_at (context_of known.now at) role (parts_list (map part_view list.now))) }
    ensures noted { OnOk result (first.new ≡ noted first.old (designator_breaks (context_of known.now at) role (parts_list (map part_view list.now)))) }
{
    let list = parts(alloc, known, at, first, list)?;
    let said = senses::designator(alloc, known, at, first, role, &list)?;
    Ok(said)
}
