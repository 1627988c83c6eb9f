//! Objects that are lent, in a list whose rest is shared.

ghost use Rattle.std.specs.Prelude.{◌≡◌, ◌∷◌, drop, IfOk, OnOk};
ghost use Rattle.f3_data.specs.References.{reference_of};
ghost use Rattle.f3_data.specs.Lent.{lent_of};

use crate::reference::Reference;
use std::alloc::{AllocError, Global};
use std::rc::Rc;

/// Objects that are lent, what was lent last first. Lists share what they have in common at their ends.
#[cycle(lent)]
pub enum Lent {
    Nothing,
    More(Rc<Link>),
}

/// An object that is lent, and what was lent before it.
#[cycle(lent)]
#[derive(Drop)]
pub struct Link {
    pub object: Reference,
    pub rest: Lent,
}

// Link by link, so that the drop of a long list takes no more of the stack than that of a short one.
impl Drop for Lent {
    fn drop(mut self) {
        loop {
            match self {
                Lent::Nothing => return,
                Lent::More(link) => match Rc::into_inner(link) {
                    Some(Link { object, rest }) => {
                        drop(object);
                        self = rest;
                    }
                    None => return,
                },
            }
        }
    }
}

/// The same objects, in a list that shares them.
pub fn shared(lent: &Lent) -> Result<Lent, AllocError>
    ensures { IfOk result (λ r. lent_of r ≡ lent_of lent.now) }
{
    match lent {
        Lent::Nothing => Ok(Lent::Nothing),
        Lent::More(link) => Ok(Lent::More(link.clone()?)),
    }
}

/// A list with one more object, which is lent last.
///
/// `AllocError` where the host has no memory for it.
pub fn lent_too(alloc: Global, object: Reference, rest: Lent) -> Result<Lent, AllocError>
    ensures { IfOk result (λ l. lent_of l ≡ reference_of object ∷ lent_of rest) }
{
    Ok(Lent::More(Rc::new(alloc, Link { object, rest })?))
}

/// One more object is lent.
pub fn lend(alloc: Global, lent: &mut Lent, object: Reference) -> Result<(), AllocError>
    ensures { OnOk result (lent_of lent.new ≡ reference_of object ∷ lent_of lent.old) }
{
    let rest = shared(lent)?;
    let link = Rc::new(alloc, Link { object, rest })?;
    *lent = Lent::More(link);
    Ok(())
}

/// The object that was lent last is lent no longer.
pub fn unlend(lent: &mut Lent) -> Result<(), AllocError>
    ensures { OnOk result (lent_of lent.new ≡ drop 1 (lent_of lent.old)) }
{
    let rest = match lent {
        Lent::Nothing => return Ok(()),
        Lent::More(link) => shared(&link.rest)?,
    };
    *lent = rest;
    Ok(())
}
