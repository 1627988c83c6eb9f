//! Entries by name, of which the first of each name counts.

ghost use Rattle.std.specs.Prelude.{◌≡◌, OnOk};
ghost use Rattle.f3_natures.specs.Entries.{with_first};

use indexmap::IndexMap;
use std::alloc::AllocError;

/// Adds an entry where no other has its name.
#[tactic(auto, using(crate::proofs::First::inserted))]
pub fn keep_first<T: Copy>(
    entries: &mut IndexMap<usize, T>,
    symbol: usize,
    item: T,
) -> Result<(), AllocError>
    ensures { OnOk result (entries.new.entries ≡ with_first entries.old.entries symbol item) }
{
    match entries.get(&symbol) {
        Some(_) => Ok(()),
        None => {
            entries.insert(symbol, item)?;
            Ok(())
        }
    }
}
