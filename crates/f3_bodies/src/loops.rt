//! The DO variables of the loops around a statement.

ghost use Rattle.std.specs.Prelude.{◌≡◌, ℕ, List, ◌++◌, OnOk};
ghost use Rattle.f3_sites.specs.Sites.{site_of};
ghost use Rattle.f3_associates.specs.Standing.{room_of};
ghost use Rattle.f3_bodies.specs.Inner.Loops.{active_by, with_active};

use f3_sites::site::Site;
use std::alloc::AllocError;

/// Goes into a loop, whose variable is this one, if it has one.
pub fn begin_loop(site: &mut Site<'_>, variable: Option<usize>) -> Result<(), AllocError>
    ensures site { OnOk result (site_of site.new ≡ with_active (active_by variable ++ (site_of site.old).active) (site_of site.old)) }
    ensures room { OnOk result (room_of site.new ≡ room_of site.old) }
{
    match variable {
        Some(variable) => {
            site.active.push(variable)?;
            Ok(())
        }
        None => Ok(()),
    }
}

/// Goes out of a loop, whose variable is this one, if it has one.
pub fn end_loop(site: &mut Site<'_>, variable: Option<usize>)
    ensures site { (active : List ℕ) → (site_of site.old).active ≡ active_by variable ++ active → site_of site.new ≡ with_active active (site_of site.old) }
    ensures room { room_of site.new ≡ room_of site.old }
{
    match variable {
        Some(_) => {
            let _ = site.active.pop();
        }
        None => {}
    }
}
