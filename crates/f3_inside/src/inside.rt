//! What is known inside of an ASSOCIATE construct, and what is known again behind it.

ghost use Rattle.std.specs.Prelude.{◌≡◌, map, IfOk, OnOk};
ghost use Rattle.f3_tree.specs.Statements.{association_view};
ghost use Rattle.f3_type_rules.specs.Associates.{site_inside};
ghost use Rattle.f3_sites.specs.Sites.{site_of};
ghost use Rattle.f3_associates.specs.Known.{IsSettled};
ghost use Rattle.f3_associates.specs.Standing.{standing_of, back, room_of, HaveRoom};
ghost use Rattle.f3_elaboration.specs.Context.{inside};
ghost use Rattle.f3_inside.specs.Standing.{state_of};
ghost use Rattle.f3_inside.specs.Outside.{IsLeft, Leads};

use crate::names::{Named, exchange_all, lend};
use crate::state::State;
use f3_associates::entering;
use f3_associates::entering::Saved;
use f3_associates::selectors::selectors;
use f3_sites::site::Site;
use f3_tree::statement::Association;
use std::alloc::{AllocError, Global};

/// What was known outside of a construct.
#[derive(Drop)]
pub struct Outside {
    /// What the rules on types knew.
    pub saved: Saved,
    /// What the entities of the associate names were as objects.
    pub names: Vec<Named>,
    /// How many objects were lent.
    pub lent: usize,
}

/// Goes into the construct of this number, as far as the rules on types know it.
fn enter_site(
    alloc: Global,
    site: &mut Site<'_>,
    number: usize,
    list: &[Association],
) -> Result<Saved, AllocError>
    requires { IsSettled (site_of site.old) }
    ensures inside { OnOk result (site_of site.new ≡ site_inside number (map association_view list.now) (site_of site.old)) }
    ensures back { IfOk result (λ s. back s (site_of site.new) ≡ site_of site.old) }
    ensures room { OnOk result (room_of site.new ≡ room_of site.old) }
    ensures held { IfOk result (λ s. HaveRoom (room_of site.old) (map standing_of s.standing.items)) }
{
    let mut first = None;
    let names = selectors(alloc, site, &mut first, number, list)?;
    let saved = entering::enter(alloc, site, number, &names)?;
    Ok(saved)
}

/// Goes into the construct of this number, which has these associate names; answers what was known outside.
///
/// `AllocError` where memory runs out: then what is known is of no use any more.
pub fn enter(
    alloc: Global,
    state: &mut State<'_>,
    number: usize,
    list: &[Association],
) -> Result<Outside, AllocError>
    requires { IsSettled (site_of state.old.site) }
    ensures inside { OnOk result (state_of state.new ≡ inside (state_of state.old) number (map association_view list.now)) }
    ensures settled { OnOk result (IsSettled (site_of state.new.site)) }
    ensures leads { IfOk result (λ o. Leads o state.new state.old) }
{
    let lent = state.lent.len();
    let list_of_names = lend(
        alloc,
        &mut state.lent,
        state.site.known.tables,
        number,
        list,
    )?;
    let names = exchange_all(alloc, &mut state.numbers, list_of_names)?;
    let saved = enter_site(alloc, &mut state.site, number, list)?;
    Ok(Outside { saved, names, lent })
}

/// Goes out of a construct, to what was known outside of it.
///
/// `AllocError` where memory runs out: then what is known is of no use any more.
pub fn leave(alloc: Global, state: &mut State<'_>, outside: Outside) -> Result<(), AllocError>
    requires { HaveRoom (room_of state.old.site) (map standing_of outside.saved.standing.items) }
    ensures { OnOk result (IsLeft outside state.new state.old) }
{
    let Outside { saved, names, lent } = outside;
    entering::leave(alloc, &mut state.site, saved)?;
    drop(exchange_all(alloc, &mut state.numbers, names)?);
    state.lent.truncate(lent);
    Ok(())
}
