//! Where the bodies of a program begin.

ghost use Rattle.std.specs.Prelude.{◌≡◌, [], Some, map, IfOk};

use f3_sites::site::Site;
use f3_type_rules::definition::Holder;
use f3_typed_parts::known::{Known, Position};
use indexmap::IndexMap;
use std::alloc::{AllocError, Global};

/// Where the bodies of a program begin, of which this is known.
///
/// # Errors
///
/// Where memory runs out.
pub fn site<'a>(alloc: Global, known: Known<'a>, holders: &[Holder]) -> Result<Site<'a>, AllocError>
    ensures known { IfOk result (λ s. s.known ≡ known.entry) }
    ensures active { IfOk result (λ s. s.active.items ≡ []) }
    ensures holders { IfOk result (λ s. s.holders.items ≡ map Some holders.now) }
    ensures chains { IfOk result (λ s. s.chains.entries ≡ []) }
{
    let mut asked = Vec::new(alloc);
    for holder in holders {
        asked.push(Some(*holder))?;
    }
    Ok(Site {
        known,
        at: Position {
            scope: 0,
            unit: 0,
            phase: 6,
        },
        body: 0,
        is_pure: false,
        active: Vec::new(alloc),
        holders: asked,
        chains: IndexMap::new(alloc),
    })
}
