//! Counts of elements and cells, which are kept exact below 2 ^ 64 - 1: one that is no less is kept as 2 ^ 64 - 1.

ghost use Rattle.std.specs.Prelude.{◌≡◌, ◌*◌, ◌+◌, ◌-◌, ◌^◌, ◌<◌, ℕ, Some, min, Option, pos, ◌-ℤ◌, ◌+ℤ◌};
ghost use Rattle.f3_type_rules.specs.Shapes.{natural, extent, multiplied, summed, at_most};
ghost use Rattle.f3_extents.specs.Counts.{capped, counted};

use f3_kinds::types::Scalar;

/// How many whole numbers there are from one to another.
pub fn span(from: i64, to: i64) -> u64
    ensures { result ≡ capped (natural ((to -ℤ from) +ℤ pos 1)) }
{
    if to < from {
        0
    } else {
        to.abs_diff(from).saturating_add(1)
    }
}

/// How many subscripts a dimension has, where both bounds are whole numbers.
pub fn extent(lower: Option<Scalar>, upper: Option<Scalar>) -> Option<u64>
    ensures { result ≡ counted (extent lower upper) }
{
    match lower {
        Some(Scalar::Number(_, from)) => match upper {
            Some(Scalar::Number(_, to)) => Some(span(from, to)),
            Some(Scalar::Truth(_)) => None,
            None => None,
        },
        Some(Scalar::Truth(_)) => None,
        None => None,
    }
}

/// The product of two counts.
#[tactic(auto, using(crate::proofs::Capping::capped_times))]
pub fn multiplied(a: Option<u64>, b: Option<u64>) -> Option<u64>
    ensures { (m n : Option ℕ) → a ≡ counted m → b ≡ counted n → result ≡ counted (multiplied m n) }
{
    match a {
        Some(a) => match b {
            Some(b) => Some(a.saturating_mul(b)),
            None => None,
        },
        None => None,
    }
}

/// The sum of two counts.
pub fn summed(a: Option<u64>, b: Option<u64>) -> Option<u64>
    ensures { (m n : Option ℕ) → a ≡ counted m → b ≡ counted n → result ≡ counted (summed m n) }
{
    match a {
        Some(a) => match b {
            Some(b) => Some(a.saturating_add(b)),
            None => None,
        },
        None => None,
    }
}

/// Whether a count, where it is known, is no more than this one.
pub fn at_most(limit: u64, count: Option<u64>) -> bool
    requires { limit < 2 ^ 64 - 1 }
    ensures { (n : Option ℕ) → count ≡ counted n → result ≡ at_most limit n }
{
    match count {
        Some(count) => count <= limit,
        None => true,
    }
}
