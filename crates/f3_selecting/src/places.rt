//! Places by name.

ghost use Rattle.std.specs.Prelude.{◌≡◌, ◌++◌, ◌∷◌, [], ◌==◌, OnOk, IfOk, nat_eq, ℕ, if◌then◌else◌};
ghost use Rattle.std.specs.List.{flat_map};
ghost use Rattle.std.specs.List.Sorted.{IsNonDecreasing, IsPermutation};
ghost use Rattle.indexmap.specs.IndexMap.{get};
ghost use Rattle.f3_selecting.specs.Places.{places_in};

use indexmap::IndexMap;
use std::alloc::{AllocError, Global};

/// Adds a place to those of a name.
pub fn add_place(
    alloc: Global,
    places: &mut IndexMap<usize, Vec<usize>>,
    name: usize,
    place: usize,
) -> Result<(), AllocError>
    ensures { OnOk result ((n : ℕ) → places_in (get nat_eq places.new n) ≡ places_in (get nat_eq places.old n) ++ (if name == n then place ∷ [] else [])) }
{
    let mut others = match places.swap_remove(&name) {
        Some(others) => others,
        None => Vec::new(alloc),
    };
    others.push(place)?;
    places.insert(name, others)?;
    Ok(())
}

/// The places of a name.
fn places_in(places: &IndexMap<usize, Vec<usize>>, name: usize) -> &[usize]
    ensures { result.now ≡ places_in (get nat_eq places.now name) }
{
    match places.get(&name) {
        Some(places) => places,
        None => &[],
    }
}

/// The places of these names.
fn gathered(
    alloc: Global,
    places: &IndexMap<usize, Vec<usize>>,
    names: &[usize],
) -> Result<Vec<usize>, AllocError>
    ensures { IfOk result (λ v. v.items ≡ flat_map (λ n. places_in (get nat_eq places.now n)) names.now) }
{
    let mut gathered = Vec::new(alloc);
    for name in names {
        gathered.extend_from_slice(places_in(places, *name))?;
    }
    Ok(gathered)
}

/// The places of these names, in order.
pub fn sorted_places(
    alloc: Global,
    places: &IndexMap<usize, Vec<usize>>,
    names: &[usize],
) -> Result<Vec<usize>, AllocError>
    ensures places { IfOk result (λ v. IsPermutation (flat_map (λ n. places_in (get nat_eq places.now n)) names.now) v.items) }
    ensures order { IfOk result (λ v. IsNonDecreasing v.items) }
{
    let mut sorted = gathered(alloc, places, names)?;
    sorted.sort_unstable();
    Ok(sorted)
}
