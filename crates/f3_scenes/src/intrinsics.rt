//! The intrinsic procedures of the profile by their names (13.7).

ghost use Rattle.std.specs.Prelude.{◌≡◌, nat_eq, drop, map, IfOk};
ghost use Rattle.std.specs.Cmp.Lexicographic.{pointwise};
ghost use Rattle.std.specs.Map.{lookup};
ghost use Rattle.std.specs.String.{string_bytes};
ghost use Rattle.f3_type_rules.specs.Scene.{intrinsic_names, intrinsic_of, symbol_of};

use f3_kinds::things::Intrinsic;
use indexmap::IndexSet;
use std::alloc::{AllocError, Global};

/// The intrinsic procedure of arrays or of allocations that a name in lower case has.
fn array_intrinsic_of(text: &str) -> Option<Intrinsic>
    ensures { result ≡ lookup (pointwise nat_eq text.now) (drop 5 intrinsic_names) }
{
    if text == "size" {
        return Some(Intrinsic::Size);
    }
    if text == "lbound" {
        return Some(Intrinsic::LowerBound);
    }
    if text == "ubound" {
        return Some(Intrinsic::UpperBound);
    }
    if text == "allocated" {
        return Some(Intrinsic::Allocated);
    }
    if text == "move_alloc" {
        return Some(Intrinsic::MoveAlloc);
    }
    None
}

/// The intrinsic procedure of a name in lower case.
fn intrinsic_of(text: &str) -> Option<Intrinsic>
    ensures { result ≡ intrinsic_of text.now }
{
    if text == "abs" {
        return Some(Intrinsic::Abs);
    }
    if text == "mod" {
        return Some(Intrinsic::Mod);
    }
    if text == "modulo" {
        return Some(Intrinsic::Modulo);
    }
    if text == "max" {
        return Some(Intrinsic::Max);
    }
    if text == "min" {
        return Some(Intrinsic::Min);
    }
    array_intrinsic_of(text)
}

/// The intrinsic procedure of each name of a program, by the number of the name.
pub fn intrinsics(
    alloc: Global,
    names: &IndexSet<String>,
) -> Result<Vec<Option<Intrinsic>>, AllocError>
    ensures { IfOk result (λ v. v.items ≡ map intrinsic_of (map string_bytes names.now.keys)) }
{
    let mut found = Vec::new(alloc);
    for name in names.as_slice() {
        found.push(intrinsic_of(name.as_str()))?;
    }
    Ok(found)
}

/// The number of a name of a program, or one that no name has.
pub fn symbol_of(names: &IndexSet<String>, text: &str) -> usize
    ensures { result ≡ symbol_of (map string_bytes names.now.keys) text.now }
{
    for (number, name) in names.as_slice().iter().enumerate() {
        if text == name.as_str() {
            return number;
        }
    }
    names.len()
}
