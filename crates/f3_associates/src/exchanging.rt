//! What stands at entities, exchanged for what stood there.

ghost use Rattle.std.specs.Prelude.{◌≡◌, ℕ, ◌<◌, map, length, nat_eq, slice_get, None, Some, Option, IsSome, IfSome, IfOk, OnOk, if◌then◌else◌};
ghost use Rattle.std.specs.Map.{lookup};
ghost use Rattle.f3_kinds.specs.Things.{map_or};
ghost use Rattle.f3_type_rules.specs.declared.definition.Holder.{Holder};
ghost use Rattle.f3_sites.specs.Sites.{site_of};
ghost use Rattle.f3_associates.specs.Standing.{standing_of, put, put_all, room_of, HasRoom, HaveRoom};
ghost use Rattle.f3_associates.specs.Inner.Holders.{held};

use f3_kinds::things::Thing;
use f3_sites::site::{Chain, Site};
use f3_type_rules::definition::Holder;
use indexmap::IndexMap;
use std::alloc::{AllocError, Global};
use std::mem::replace;

/// What stands at an entity.
#[derive(Drop)]
pub struct Standing {
    pub entity: usize,
    pub thing: Thing,
    pub holder: Option<Holder>,
    /// Where its chain is more than the entity alone.
    pub chain: Option<Chain>,
}

/// Exchanges what an entity is.
fn exchange_thing(things: &mut Vec<Thing>, entity: usize, thing: Thing) -> Thing
    requires { entity < length things.old.items }
    ensures before { slice_get things.old.items entity ≡ Some result }
    ensures after { (e : ℕ) → slice_get things.new.items e ≡ (if nat_eq entity e then Some thing else slice_get things.old.items e) }
    ensures len { length things.new.items ≡ length things.old.items }
{
    replace(&mut things[entity], thing)
}

/// Exchanges what the rules on definitions ask of an entity.
fn exchange_holder(
    holders: &mut Vec<Option<Holder>>,
    entity: usize,
    holder: Option<Holder>,
) -> Option<Holder>
    requires { IsSome holder → entity < length holders.old.items }
    ensures before { held holders.old.items entity ≡ result }
    ensures within { IsSome result → entity < length holders.old.items }
    ensures after { (e : ℕ) → held holders.new.items e ≡ (if nat_eq entity e then holder else held holders.old.items e) }
    ensures len { length holders.new.items ≡ length holders.old.items }
{
    if entity < holders.len() {
        let before = holders[entity];
        holders[entity] = holder;
        return before;
    }
    None
}

/// Exchanges the chain of an entity.
fn exchange_chain(
    chains: &mut IndexMap<usize, Chain>,
    entity: usize,
    chain: Option<Chain>,
) -> Result<Option<Chain>, AllocError>
    ensures before { IfOk result (λ k. lookup (nat_eq entity) chains.old.entries ≡ k) }
    ensures after { OnOk result ((e : ℕ) → lookup (nat_eq e) chains.new.entries ≡ (if nat_eq entity e then chain else lookup (nat_eq e) chains.old.entries)) }
{
    match chain {
        Some(chain) => Ok(chains.insert(entity, chain)?),
        None => Ok(chains.swap_remove(&entity)),
    }
}

/// Exchanges what stands at an entity.
fn exchange(site: &mut Site<'_>, new: Standing) -> Result<Standing, AllocError>
    requires { HasRoom (room_of site.old) (standing_of new) }
    ensures site { OnOk result (site_of site.new ≡ put (standing_of new) (site_of site.old)) }
    ensures before { IfOk result (λ k. put (standing_of k) (site_of site.new) ≡ site_of site.old) }
    ensures room { room_of site.new ≡ room_of site.old }
    ensures held { IfOk result (λ k. HasRoom (room_of site.old) (standing_of k)) }
{
    let Standing {
        entity,
        thing,
        holder,
        chain,
    } = new;
    let chain = exchange_chain(&mut site.chains, entity, chain)?;
    let thing = exchange_thing(&mut site.known.things, entity, thing);
    let holder = exchange_holder(&mut site.holders, entity, holder);
    Ok(Standing {
        entity,
        thing,
        holder,
        chain,
    })
}

/// Exchanges what stands at entities, from the last on, and answers what stood there.
///
/// `AllocError` where memory runs out.
pub fn exchange_all(
    alloc: Global,
    site: &mut Site<'_>,
    mut list: Vec<Standing>,
) -> Result<Vec<Standing>, AllocError>
    requires { HaveRoom (room_of site.old) (map standing_of list.items) }
    ensures site { OnOk result (site_of site.new ≡ put_all (map standing_of list.items) (site_of site.old)) }
    ensures before { IfOk result (λ v. put_all (map standing_of v.items) (site_of site.new) ≡ site_of site.old) }
    ensures room { OnOk result (room_of site.new ≡ room_of site.old) }
    ensures held { IfOk result (λ v. HaveRoom (room_of site.old) (map standing_of v.items)) }
{
    let mut before = Vec::new(alloc);
    while let Some(new) = list.pop() {
        before.push(exchange(site, new)?)?;
    }
    Ok(before)
}
