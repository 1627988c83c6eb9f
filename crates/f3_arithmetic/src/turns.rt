//! How often a loop turns.

ghost use Rattle.std.specs.Prelude.{◌≡◌, ◌≢◌, pos};
ghost use Rattle.f3_meaning_whole.specs.Arithmetic.{trips};
ghost use Rattle.f3_arithmetic.specs.Turns.{turns_of};

/// How often a DO turns, or a triplet has a subscript, from a bound to another by a step (ISO/IEC 1539-1:2004, 8.1.6.4.1):
/// the number of turns behind the first, or none where there is no turn. So all turns from the least number of 64 bits to the
/// largest are counted, which are one more than 64 bits hold.
#[tactic(auto, using(crate::proofs::Distances::upward, crate::proofs::Distances::no_way_up, crate::proofs::Distances::downward, crate::proofs::Distances::no_way_down))]
pub fn turns(lower: i64, upper: i64, step: i64) -> Option<u64>
    requires { step ≢ pos 0 }
    ensures { turns_of result ≡ trips lower upper step }
{
    if step > 0 {
        if lower <= upper {
            return Some(upper.abs_diff(lower) / step.unsigned_abs());
        }
        return None;
    }
    if upper <= lower {
        return Some(upper.abs_diff(lower) / step.unsigned_abs());
    }
    None
}
