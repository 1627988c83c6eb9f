//! Whether what an allocatable holds is in use.

ghost use Rattle.std.specs.Prelude.{◌≡◌, ◌++◌, ◌∷◌, []};
ghost use Rattle.f3_meaning_whole.specs.Store as s;
ghost use Rattle.f3_meaning_whole.specs.Reference as m;
ghost use Rattle.f3_meaning_whole.specs.Store.{begins_with, goes_through, within};
ghost use Rattle.f3_data.specs.Stores.{root_of, step_of, steps_of, path_of};
ghost use Rattle.f3_data.specs.Lent.{lent_of};

use f3_data::lent::Lent;
use f3_data::reference::Reference;
use f3_data::store::{Path, Root, Step};

fn is_same_root(a: Root, b: Root) -> bool
    ensures { result ≡ s.same_root (root_of a) (root_of b) }
{
    match (a, b) {
        (Root::Static(i), Root::Static(k)) => i == k,
        (Root::Local(l, i), Root::Local(m, k)) => l == m && i == k,
        _ => false,
    }
}

fn is_same_step(a: Step, b: Step) -> bool
    ensures { result ≡ s.same_step (step_of a) (step_of b) }
{
    match (a, b) {
        (Step::Component(i), Step::Component(k)) => i == k,
        (Step::Element(i), Step::Element(k)) => i == k,
        (Step::Contents, Step::Contents) => true,
        _ => false,
    }
}

/// Whether a way goes through what an allocatable at another holds.
fn goes_through_contents(way: &[Step], front: &[Step]) -> bool
    ensures { result ≡ begins_with (steps_of way.now) (steps_of front.now ++ s.Contents ∷ []) }
{
    match (way.split_first(), front.split_first()) {
        (Some((step, rest)), Some((begin, behind))) => {
            is_same_step(*step, *begin) && goes_through_contents(rest, behind)
        }
        (Some((step, _)), None) => is_same_step(*step, Step::Contents),
        (None, _) => false,
    }
}

fn pins(reference: &Reference, path: &Path) -> bool
    ensures { result ≡ goes_through (path_of reference.now.path) (within (path_of path.now) s.Contents) }
{
    is_same_root(reference.path.root, path.root)
        && goes_through_contents(&reference.path.steps, &path.steps)
}

/// Whether some lent reference goes through the contents of the allocatable object at a path (own rule: it is in use).
pub fn is_pinned(path: &Path, lent: &Lent) -> bool
    ensures { result ≡ m.is_pinned (path_of path.now) (lent_of lent.now) }
{
    let mut left = lent;
    while let Lent::More(link) = left {
        if pins(&link.object, path) {
            return true;
        }
        left = &link.rest;
    }
    false
}
