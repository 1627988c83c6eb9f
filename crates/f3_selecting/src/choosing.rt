//! Which names of a scope are private.

ghost use Rattle.std.specs.Prelude.{◌≡◌, [], OnOk, IfOk, map, nat_eq};
ghost use Rattle.std.specs.List.{flat_map, list_any};
ghost use Rattle.indexmap.specs.IndexSet.{insert_all};
ghost use Rattle.f3_scopes.specs.Outlines.{own_view, listed_view, scope_view};
ghost use Rattle.f3_tree.specs.declared.declaration.Accessibility.TheVariants.{Public, Private};
ghost use Rattle.f3_selecting.specs.Private.{same_access, listed_names, given_name, named, is_default, is_private, makes_private, AreAccesses};

use f3_scopes::outline::{AccessOutline, Declared, Outline};
use f3_tree::declaration::Accessibility;
use f3_tree::expression::Name;
use indexmap::IndexSet;
use std::alloc::{AllocError, Global};

/// Which names of a scope are private. Only this crate makes one.
#[derive(Drop)]
pub struct Accesses {
    /// The names that a PRIVATE names.
    pub(crate) private_names: IndexSet<usize>,
    /// The names that a PUBLIC names.
    pub(crate) public_names: IndexSet<usize>,
    /// Whether there is a PRIVATE without a list.
    pub(crate) is_private: bool,
}

fn same_access(a: Accessibility, b: Accessibility) -> bool
    ensures { result ≡ same_access a b }
{
    match a {
        Accessibility::Public => match b {
            Accessibility::Public => true,
            Accessibility::Private => false,
        },
        Accessibility::Private => match b {
            Accessibility::Public => false,
            Accessibility::Private => true,
        },
    }
}

fn has_access(accesses: &[Accessibility], access: Accessibility) -> bool
    ensures { result ≡ list_any (same_access access) accesses.now }
{
    accesses.iter().any(|a| same_access(access, *a))
}

/// Adds the names of a list.
fn add_names(named: &mut IndexSet<usize>, names: &[Name]) -> Result<(), AllocError>
    ensures { OnOk result (named.new.keys ≡ insert_all nat_eq named.old.keys (map (λ n. n.symbol) names.now)) }
{
    for name in names {
        named.insert(name.symbol)?;
    }
    Ok(())
}

/// Adds the names that PUBLIC or PRIVATE statements list.
#[tactic(auto, using(crate::proofs::Steps::insert_more))]
fn add_listed(
    named: &mut IndexSet<usize>,
    statements: &[AccessOutline],
    access: Accessibility,
) -> Result<(), AllocError>
    ensures { OnOk result (named.new.keys ≡ insert_all nat_eq named.old.keys (flat_map (listed_names access) (map listed_view statements.now))) }
{
    for statement in statements {
        if same_access(access, statement.accessibility) {
            add_names(named, &statement.names)?;
        }
    }
    Ok(())
}

/// Adds the names that have PUBLIC or PRIVATE as an attribute.
fn add_given(
    named: &mut IndexSet<usize>,
    declared: &[Declared],
    access: Accessibility,
) -> Result<(), AllocError>
    ensures { OnOk result (named.new.keys ≡ insert_all nat_eq named.old.keys (flat_map (given_name access) (map own_view declared.now))) }
{
    for declaration in declared {
        if has_access(&declaration.accesses, access) {
            named.insert(declaration.name.symbol)?;
        }
    }
    Ok(())
}

/// The names that a PUBLIC or PRIVATE names.
#[tactic(auto, using(crate::proofs::Steps::insert_more))]
fn named(
    alloc: Global,
    outline: &Outline,
    access: Accessibility,
) -> Result<IndexSet<usize>, AllocError>
    ensures { IfOk result (λ s. s.keys ≡ insert_all nat_eq [] (named access (scope_view outline.now))) }
{
    let mut named = IndexSet::new(alloc);
    add_listed(&mut named, &outline.accesses, access)?;
    add_given(&mut named, &outline.declared, access)?;
    Ok(named)
}

fn is_default(statement: &AccessOutline) -> bool
    ensures { result ≡ is_default (listed_view statement.now) }
{
    same_access(Accessibility::Private, statement.accessibility) && statement.names.is_empty()
}

/// Whether there is a PRIVATE without a list.
fn has_default(statements: &[AccessOutline]) -> bool
    ensures { result ≡ list_any is_default (map listed_view statements.now) }
{
    for statement in statements {
        if is_default(statement) {
            return true;
        }
    }
    false
}

/// Which names of one scope are private.
pub fn accesses_of(alloc: Global, outline: &Outline) -> Result<Accesses, AllocError>
    ensures { IfOk result (λ a. makes_private a ≡ is_private (scope_view outline.now)) }
{
    let private_names = named(alloc, outline, Accessibility::Private)?;
    let public_names = named(alloc, outline, Accessibility::Public)?;
    let is_private = has_default(&outline.accesses);
    Ok(Accesses {
        private_names,
        public_names,
        is_private,
    })
}

/// Which names of each scope are private.
pub fn all_accesses(alloc: Global, outlines: &[Outline]) -> Result<Vec<Accesses>, AllocError>
    ensures { IfOk result (λ v. AreAccesses (map scope_view outlines.now) v.items) }
{
    let mut all = Vec::new(alloc);
    for outline in outlines {
        all.push(accesses_of(alloc, outline)?)?;
    }
    Ok(all)
}

/// Whether a name is private.
pub fn is_private(accesses: &Accesses, name: usize) -> bool
    ensures { result ≡ makes_private accesses.now name }
{
    accesses.private_names.contains(&name)
        || (!accesses.public_names.contains(&name) && accesses.is_private)
}
