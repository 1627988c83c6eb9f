//! What is known inside of a construct, and what is known again behind it.

ghost use Rattle.std.specs.Prelude.{◌≡◌, ℕ, ◌∷◌, [], map, length, nat_eq, IfOk, OnOk, List};
ghost use Rattle.std.specs.Map.{lookup};
ghost use Rattle.std.specs.List.{flat_map};
ghost use Rattle.f3_tree.specs.Statements.{AssociationTree};
ghost use Rattle.f3_kinds.specs.Things.{map_or};
ghost use Rattle.f3_type_rules.specs.Associates.{plain_chain, selected_chain, associate_chain, associated, site_inside};
ghost use Rattle.f3_sites.specs.Sites.{chain_of, site_of};
ghost use Rattle.f3_associates.specs.Known.{AreKnown};
ghost use Rattle.f3_associates.specs.Standing.{standing_of, back, room_of, HaveRoom};
ghost use Rattle.f3_associates.specs.Inner.Laid.{laid, object_of_said};

use crate::exchanging::{Standing, exchange_all};
use f3_kinds::said::{Form, Said};
use f3_kinds::things::Thing;
use f3_kinds::types::Object;
use f3_sites::site::{Chain, Site};
use f3_typed_parts::operands::type_in;
use indexmap::IndexMap;
use std::alloc::{AllocError, Global};

/// What was known outside of a construct.
#[derive(Drop)]
pub struct Saved {
    /// The scope around it.
    pub scope: usize,
    /// What stood at the entities of its associate names.
    pub standing: Vec<Standing>,
}

/// The chain of an entity alone.
fn alone(alloc: Global, entity: usize, ends: bool) -> Result<Chain, AllocError>
    ensures { IfOk result (λ k. chain_of k ≡ record { links = entity ∷ []; ends = ends }) }
{
    let mut links = Vec::new(alloc);
    links.push(entity)?;
    Ok(Chain { links, ends })
}

/// The chain of an associate name whose selector begins with a variable.
fn behind(
    alloc: Global,
    chains: &IndexMap<usize, Chain>,
    entity: usize,
    selected: usize,
) -> Result<Chain, AllocError>
    ensures { IfOk result (λ k. chain_of k ≡ record { links = entity ∷ (map_or (plain_chain selected) chain_of (lookup (nat_eq selected) chains.now.entries)).links; ends = (map_or (plain_chain selected) chain_of (lookup (nat_eq selected) chains.now.entries)).ends }) }
{
    let mut links = Vec::new(alloc);
    links.push(entity)?;
    match chains.get(&selected) {
        Some(chain) => {
            links.extend_from_slice(&chain.links)?;
            Ok(Chain {
                links,
                ends: chain.ends,
            })
        }
        None => {
            links.push(selected)?;
            Ok(Chain { links, ends: true })
        }
    }
}

/// The chain of an associate name, by what its selector is (ISO/IEC 1539-1:2004, 8.1.4.3).
fn selected_chain(
    alloc: Global,
    site: &Site<'_>,
    entity: usize,
    form: Form,
) -> Result<Chain, AllocError>
    ensures { IfOk result (λ k. chain_of k ≡ selected_chain (site_of site.now).chain entity form) }
{
    match form {
        Form::Computed => alone(alloc, entity, false),
        Form::Constant => alone(alloc, entity, false),
        Form::Variable(selected) => behind(alloc, &site.chains, entity, selected),
    }
}

/// The chain of an associate name, by what is said of its selector.
fn associate_chain(
    alloc: Global,
    site: &Site<'_>,
    entity: usize,
    said: &Said,
) -> Result<Chain, AllocError>
    ensures { IfOk result (λ k. chain_of k ≡ associate_chain (site_of site.now).chain entity said.now) }
{
    match said.has {
        Some(has) => selected_chain(alloc, site, entity, has.form),
        None => alone(alloc, entity, true),
    }
}

fn rank_of(said: &Said) -> usize
    ensures { result ≡ (object_of_said said.now).rank }
{
    match said.has {
        Some(has) => has.rank,
        None => 0,
    }
}

/// What an associate name is: a variable of the type and the rank of its selector, which is never allocatable.
fn object_of_said(said: &Said) -> Object
    ensures { result ≡ object_of_said said.now }
{
    Object {
        data_type: type_in(said.has),
        rank: rank_of(said),
        is_allocatable: false,
    }
}

/// What stands at an associate name inside of its construct.
fn laid(alloc: Global, site: &Site<'_>, entity: usize, said: &Said) -> Result<Standing, AllocError>
    ensures { IfOk result (λ k. standing_of k ≡ laid (site_of site.now).chain (entity, said.now)) }
{
    let chain = associate_chain(alloc, site, entity, said)?;
    Ok(Standing {
        entity,
        thing: Thing::Variable(object_of_said(said)),
        holder: None,
        chain: Some(chain),
    })
}

/// What stands at the associate names inside of their construct.
fn all_laid(
    alloc: Global,
    site: &Site<'_>,
    names: &[(usize, Said)],
) -> Result<Vec<Standing>, AllocError>
    ensures { IfOk result (λ v. map standing_of v.items ≡ map (laid (site_of site.now).chain) names.now) }
{
    let mut found = Vec::new(alloc);
    for (entity, said) in names {
        found.push(laid(alloc, site, *entity, said)?)?;
    }
    Ok(found)
}

/// Goes into the construct of this number, whose associate names these are, each by its entity with what is said of its selector;
/// answers what was known outside.
///
/// `AllocError` where memory runs out: then what is known is of no use any more.
pub fn enter(
    alloc: Global,
    site: &mut Site<'_>,
    number: usize,
    names: &[(usize, Said)],
) -> Result<Saved, AllocError>
    requires { AreKnown (site_of site.old) names.now }
    ensures inside { OnOk result ((xs : List AssociationTree) → names.now ≡ flat_map (associated (site_of site.old).context number) xs → site_of site.new ≡ site_inside number xs (site_of site.old)) }
    ensures back { IfOk result (λ s. back s (site_of site.new) ≡ site_of site.old) }
    ensures room { OnOk result (room_of site.new ≡ room_of site.old) }
    ensures held { IfOk result (λ s. HaveRoom (room_of site.old) (map standing_of s.standing.items)) }
{
    let list = all_laid(alloc, site, names)?;
    let scope = site.at.scope;
    site.at.scope = number;
    let standing = exchange_all(alloc, site, list)?;
    Ok(Saved { scope, standing })
}

/// Goes out of a construct, to what was known outside of it.
///
/// `AllocError` where memory runs out: then what is known is of no use any more.
pub fn leave(alloc: Global, site: &mut Site<'_>, saved: Saved) -> Result<(), AllocError>
    requires { HaveRoom (room_of site.old) (map standing_of saved.standing.items) }
    ensures site { OnOk result (site_of site.new ≡ back saved (site_of site.old)) }
    ensures room { OnOk result (room_of site.new ≡ room_of site.old) }
{
    let Saved { scope, standing } = saved;
    drop(exchange_all(alloc, site, standing)?);
    site.at.scope = scope;
    Ok(())
}
