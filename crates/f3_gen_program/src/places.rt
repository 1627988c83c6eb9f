//! Lines by their numbers from the front.

ghost use Rattle.std.specs.Prelude.{◌≡◌, ◌-◌, ◌≤◌, All, map, reverse, IfOk};

use std::alloc::{AllocError, Global};

/// The numbers of lines, in the other order, where so many lines stand in all, and of each it is known how many there are from
/// it to the end.
pub fn places(alloc: Global, total: usize, ends: &[usize]) -> Result<Vec<usize>, AllocError>
    requires { All (λ k. k ≤ total) ends.now }
    ensures { IfOk result (λ v. v.items ≡ map (λ k. total - k) (reverse ends.now)) }
{
    let mut found = Vec::new(alloc);
    let mut i = ends.len();
    while i > 0 {
        i -= 1;
        found.push(total - ends[i])?;
    }
    Ok(found)
}
