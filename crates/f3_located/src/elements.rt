//! The elements that a reference means.

ghost use Rattle.std.specs.Prelude.{◌≡◌, ℕ, ◌<◌, IfOk, List, length, Some, slice_get};
ghost use Rattle.f3_meaning_whole.specs.Store as s;
ghost use Rattle.f3_meaning_whole.specs.Reference.{paths};
ghost use Rattle.f3_data.specs.Stores.{steps_of, path_of};
ghost use Rattle.f3_data.specs.References.{element_path, numbers_of, reference_of};

use f3_data::reference::{Numbers, Reach, Reference};
use f3_data::store::{Path, Step};
use std::alloc::{AllocError, Global};

/// How many elements there are.
#[tactic(auto, using(f3_data::proofs::Counted::counted_length))]
pub fn length_of(numbers: &Numbers) -> usize
    ensures { result ≡ length (numbers_of numbers.now) }
{
    match numbers {
        Numbers::First(count) => *count,
        Numbers::Listed(listed) => listed.len(),
    }
}

/// The place of an element, by its number among those that are meant, from 0 on.
#[tactic(auto, using(f3_data::proofs::Counted::counted_at, f3_data::proofs::Counted::counted_past))]
pub fn number_at(numbers: &Numbers, k: usize) -> Option<usize>
    ensures { result ≡ slice_get (numbers_of numbers.now) k }
{
    match numbers {
        Numbers::First(count) => { if k < *count { Some(k) } else { None } }
        Numbers::Listed(listed) => listed.get(k).copied(),
    }
}

/// The place of an element that there is.
#[tactic(auto, using(f3_data::proofs::Counted::counted_at))]
pub fn place_at(numbers: &Numbers, k: usize) -> usize
    requires { k < length (numbers_of numbers.now) }
    ensures { slice_get (numbers_of numbers.now) k ≡ Some result }
{
    match numbers {
        Numbers::First(_) => k,
        Numbers::Listed(listed) => listed[k],
    }
}

/// How many objects are meant.
#[tactic(auto, using(crate::proofs::Arrays::mapped_length))]
pub fn count(reference: &Reference) -> usize
    ensures { result ≡ length (paths (reference_of reference.now)) }
{
    match &reference.reach {
        Reach::One => 1,
        Reach::Many(section) => length_of(&section.numbers),
    }
}

/// The way to a part of an element of the array at a path.
pub fn element_path(
    alloc: Global,
    array: &Path,
    place: usize,
    tail: &[Step],
) -> Result<Path, AllocError>
    ensures { IfOk result (λ p. path_of p ≡ element_path (path_of array.now) (steps_of tail.now) place) }
{
    let count = array
        .steps
        .len()
        .saturating_add(1)
        .saturating_add(tail.len());
    let mut steps = Vec::with_capacity(alloc, count)?;
    steps.extend_from_slice(&array.steps)?;
    steps.push(Step::Element(place))?;
    steps.extend_from_slice(tail)?;
    Ok(Path {
        root: array.root,
        steps,
    })
}

/// A way to a part of an element of an array becomes the way to that part of another element.
pub(crate) fn go_to(path: &mut Path, array: &Path, place: usize)
    requires { length array.now.steps.items < length path.old.steps.items }
    ensures { (tail : List s.Step) (n : ℕ) → path_of path.old ≡ element_path (path_of array.now) tail n → path_of path.new ≡ element_path (path_of array.now) tail place }
{
    path.steps[array.steps.len()] = Step::Element(place);
}
