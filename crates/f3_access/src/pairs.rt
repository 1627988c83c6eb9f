//! What is visible in a scope, pair by pair.

ghost use Rattle.std.specs.Prelude.{◌≡◌, ◌∷◌, [], MatchOption};
ghost use Rattle.f3_access.specs.Parts.{is_number, holder_at, seen_in};
ghost use Rattle.f3_access.specs.Pairs.{seen_behind};

use crate::reading::{holder, host, own};
use crate::table::Tables;
use f3_lookups::lookup::Visible;

/// What is visible in a scope, each entity once under each name: its own, then what is visible around it under names that
/// none of its own has, in their order (own rule). The walk takes no memory. It looks at each pair of the scope and of those
/// around it once, and looks its name up in each scope between.
#[derive(Drop)]
pub struct VisiblePairs<'a> {
    /// Those that are left of the pairs of the scope `holder`.
    pairs: &'a [Visible],
    /// The scope itself, or one around it.
    holder: usize,
    tables: &'a Tables,
    scope: usize,
}

/// Whether a scope is the nearest one, from the first on outward, that has this name.
fn is_holder(tables: &Tables, scope: usize, other: usize, symbol: usize) -> bool
    ensures { result ≡ is_number (holder_at tables.now.scopes.items scope symbol) other }
{
    match holder(tables, scope, symbol) {
        Some(number) => number == other,
        None => false,
    }
}

/// The first of these pairs of another scope that is visible in the scope, and those behind it.
fn split_seen<'a>(
    tables: &Tables,
    scope: usize,
    other: usize,
    pairs: &'a [Visible],
) -> Option<(Visible, &'a [Visible])>
    ensures { MatchOption result (seen_in tables.now.scopes.items scope other pairs.now ≡ [])
        (λ r. seen_in tables.now.scopes.items scope other pairs.now ≡ r.0 ∷ seen_in tables.now.scopes.items scope other r.1.now) }
{
    let mut left = pairs;
    while let Some((first, others)) = left.split_first() {
        if is_holder(tables, scope, other, first.symbol) {
            return Some((*first, others));
        }
        left = others;
    }
    None
}

/// A pair, the scope that it stands in, and the pairs of that scope behind it.
#[derive(Drop)]
struct Split<'a> {
    first: Visible,
    holder: usize,
    others: &'a [Visible],
}

/// The first pair that is visible in the scope, of these of another scope and of those around that.
fn split_behind<'a>(
    tables: &'a Tables,
    scope: usize,
    other: usize,
    pairs: &'a [Visible],
) -> Option<Split<'a>>
    ensures { MatchOption result (seen_behind tables.now.scopes.items scope other pairs.now ≡ [])
        (λ r. seen_behind tables.now.scopes.items scope other pairs.now ≡ r.first ∷ seen_behind tables.now.scopes.items scope r.holder r.others.now) }
{
    let mut holder = other;
    let mut left = pairs;
    loop {
        if let Some((first, others)) = split_seen(tables, scope, holder, left) {
            return Some(Split {
                first,
                holder,
                others,
            });
        }
        holder = host(tables, holder)?;
        left = own(tables, holder);
    }
}

impl Iterator for VisiblePairs<'_> {
    ghost use Rattle.std.specs.Iterator.{YieldsFirst, item_count};
    ghost use Rattle.f3_access.specs.Pairs.{pairs_left};

    type Item = Visible;

    ghost next_gives = { YieldsFirst pairs_left };

    ghost remaining = { item_count pairs_left };

    fn next(&mut self) -> Option<Visible> {
        let split = split_behind(self.tables, self.scope, self.holder, self.pairs)?;
        self.holder = split.holder;
        self.pairs = split.others;
        Some(split.first)
    }
}

impl<'a> VisiblePairs<'a> {
    ghost use Rattle.f3_access.specs.Pairs.{pairs_left};
    ghost use Rattle.f3_access.specs.Tables.{visible_of};

    /// The walk over what is visible in a scope.
    pub(crate) fn new(tables: &'a Tables, scope: usize) -> Self
        ensures { pairs_left result ≡ visible_of tables.now scope }
    {
        VisiblePairs {
            pairs: own(tables, scope),
            holder: scope,
            tables,
            scope,
        }
    }
}
