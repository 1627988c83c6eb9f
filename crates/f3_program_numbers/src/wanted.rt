//! Which declared names are taken.

ghost use Rattle.std.specs.Prelude.{◌≡◌, ◌∷◌, [], ℕ, nat_eq};
ghost use Rattle.std.specs.List.{list_any};
ghost use Rattle.f3_tree.specs.Declarations.{entity_view};
ghost use Rattle.f3_kinds.specs.Things.{map_or};
ghost use Rattle.f3_declared.specs.Declarations.{IsRead, tree_of};
ghost use Rattle.f3_declared.specs.Spots.{symbols_of};
ghost use Rattle.f3_program_numbers.specs.Chosen.{choice_of, header_of, is_saved_name, takes};

use f3_declared::asking::has_name;
use f3_declared::attributes::Reading;
use f3_declared::bools::either;
use f3_declared::spots::NameSet;
use f3_tree::declaration::Entity;

/// Which variables are taken of those that are declared somewhere.
#[derive(Clone, Copy)]
pub struct Wanted<'a> {
    /// Whether those are that are saved (5.1.2.13).
    pub saved: bool,
    /// Whether others are.
    pub unsaved: bool,
    /// Of these not the dummies of a procedure,
    pub dummies: Option<&'a NameSet<'a>>,
    /// and not the result of a function.
    pub result_name: Option<usize>,
}

fn is_dummy(dummies: Option<&NameSet<'_>>, symbol: usize) -> bool
    ensures { result ≡ list_any (nat_eq symbol) (map_or [] (λ d. symbols_of d.now) dummies.entry) }
{
    match dummies {
        Some(set) => has_name(set, symbol),
        None => false,
    }
}

fn is_result(result_name: Option<usize>, symbol: usize) -> bool
    ensures { result ≡ list_any (nat_eq symbol) (map_or [] (λ (r : ℕ). r ∷ []) result_name) }
{
    match result_name {
        Some(outcome) => symbol == outcome,
        None => false,
    }
}

/// Whether a name is a dummy or a result.
fn is_in_header(wanted: Wanted<'_>, symbol: usize) -> bool
    ensures { result ≡ list_any (nat_eq symbol) (header_of wanted.entry) }
{
    let is_dummy = is_dummy(wanted.dummies, symbol);
    let is_result = is_result(wanted.result_name, symbol);
    either(is_dummy, is_result)
}

/// Whether a declared name is saved: an initializer saves it too (5.1, 5.1.2.13).
fn is_saved(reading: &Reading<'_>, entity: &Entity) -> bool
    requires { IsRead reading.now }
    ensures { result ≡ is_saved_name (tree_of reading.now, entity_view entity.now) }
{
    either(reading.kinds.save.once, entity.initial.is_some())
}

/// Whether a declared name is taken.
pub fn takes(wanted: Wanted<'_>, reading: &Reading<'_>, entity: &Entity) -> bool
    requires { IsRead reading.now }
    ensures { result ≡ takes (choice_of wanted.entry) (tree_of reading.now, entity_view entity.now) }
{
    if reading.kinds.parameter.once {
        return false;
    }
    if is_saved(reading, entity) {
        return wanted.saved;
    }
    wanted.unsaved && !is_in_header(wanted, entity.name.symbol)
}
