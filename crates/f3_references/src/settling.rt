//! Breaks that are met apart.

ghost use Rattle.std.specs.Prelude.{◌≡◌, is_none};
ghost use Rattle.f3_rules.specs.Least.{earlier_of};

use f3_rules::breaks::{Break, earlier};

/// Notes the first of what was met apart, and says whether nothing was.
pub fn settle(first: &mut Option<Break>, met: Option<Break>) -> bool
    ensures nothing { result ≡ is_none met }
    ensures noted { first.new ≡ earlier_of first.old met }
{
    *first = earlier(*first, met);
    met.is_none()
}
