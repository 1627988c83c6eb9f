//! Lists that are taken apart.

ghost use Rattle.std.specs.Prelude.{◌≡◌, [], ◌∷◌, MatchOption};

/// The first of a list, and those behind it.
pub fn split<T: Drop>(mut list: Vec<T>) -> Option<(T, Vec<T>)>
    ensures { MatchOption result (list.items ≡ []) (λ p. list.items ≡ p.0 ∷ p.1.items) }
{
    if list.is_empty() {
        return None;
    }
    let first = list.remove(0);
    Some((first, list))
}
