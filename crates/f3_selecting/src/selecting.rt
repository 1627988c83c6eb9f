//! What the USE statements of a scope say, by module.

ghost use Rattle.std.specs.Prelude.{◌≡◌, ℕ, ◌++◌, [], ◌∷◌, OnOk, IfOk, map, nat_eq, if◌then◌else◌};
ghost use Rattle.std.specs.List.{flat_map};
ghost use Rattle.indexmap.specs.IndexSet.{insert_all};
ghost use Rattle.indexmap.specs.IndexMap.{get};
ghost use Rattle.f3_scopes.specs.Outlines.{using_view};
ghost use Rattle.f3_selecting.specs.Sources.{modules_of};
ghost use Rattle.f3_selecting.specs.Selecting.{same_selected, open_name, only_name, only_names, locals_in, locals_by, kept_by, locals_from, originals_from, names_in, AreSelections};

use f3_scopes::outline::{UseItem, UseOutline};
use indexmap::{IndexMap, IndexSet};
use std::alloc::{AllocError, Global};

/// A name of a module.
#[derive(Clone, Copy, PartialEq, Eq, Hash)]
pub struct Selected {
    /// The number of the module's name.
    pub source: usize,
    pub original: usize,
}

/// What the USE statements of a scope say, by module.
#[derive(Drop)]
pub struct Selections {
    /// The names of the modules, in the order of their first USE.
    pub modules: IndexSet<usize>,
    /// The modules of which some USE has no ONLY.
    pub whole: IndexSet<usize>,
    /// The only-names.
    pub alone: IndexSet<Selected>,
    /// The local names that renames give, in order of place.
    pub renamed: IndexMap<Selected, Vec<usize>>,
    /// The names of each module that items name, each once.
    pub named: IndexMap<usize, IndexSet<usize>>,
}

/// The names of modules in the order of their first USE.
fn modules_of(alloc: Global, uses: &[UseOutline]) -> Result<IndexSet<usize>, AllocError>
    ensures { IfOk result (λ s. s.keys ≡ modules_of (map using_view uses.now)) }
{
    let mut modules = IndexSet::new(alloc);
    for statement in uses {
        modules.insert(statement.module.symbol)?;
    }
    Ok(modules)
}

/// The modules of which some USE has no ONLY.
fn open_modules(alloc: Global, uses: &[UseOutline]) -> Result<IndexSet<usize>, AllocError>
    ensures { IfOk result (λ s. s.keys ≡ insert_all nat_eq [] (flat_map open_name (map using_view uses.now))) }
{
    let mut whole = IndexSet::new(alloc);
    for statement in uses {
        if !statement.has_only {
            whole.insert(statement.module.symbol)?;
        }
    }
    Ok(whole)
}

/// Adds the only-names of one USE statement.
fn add_alone(
    alone: &mut IndexSet<Selected>,
    from: usize,
    items: &[UseItem],
) -> Result<(), AllocError>
    ensures { OnOk result (alone.new.keys ≡ insert_all same_selected alone.old.keys (flat_map (only_name from) items.now)) }
{
    for item in items {
        if !item.is_rename {
            alone.insert(Selected {
                source: from,
                original: item.original.symbol,
            })?;
        }
    }
    Ok(())
}

/// The only-names.
#[tactic(auto, using(crate::proofs::Steps::insert_more))]
fn alone_names(alloc: Global, uses: &[UseOutline]) -> Result<IndexSet<Selected>, AllocError>
    ensures { IfOk result (λ s. s.keys ≡ insert_all same_selected [] (flat_map only_names (map using_view uses.now))) }
{
    let mut alone = IndexSet::new(alloc);
    for statement in uses {
        add_alone(&mut alone, statement.module.symbol, &statement.items)?;
    }
    Ok(alone)
}

/// Adds a local name to those of a name of a module.
fn add_local(
    alloc: Global,
    renamed: &mut IndexMap<Selected, Vec<usize>>,
    key: Selected,
    local: usize,
) -> Result<(), AllocError>
    ensures { OnOk result ((k : Selected) → locals_in (get same_selected renamed.new k) ≡ locals_in (get same_selected renamed.old k) ++ (if same_selected key k then local ∷ [] else [])) }
{
    let mut locals = match renamed.swap_remove(&key) {
        Some(locals) => locals,
        None => Vec::new(alloc),
    };
    locals.push(local)?;
    renamed.insert(key, locals)?;
    Ok(())
}

/// Adds the renames of one USE statement.
fn add_renames(
    alloc: Global,
    renamed: &mut IndexMap<Selected, Vec<usize>>,
    from: usize,
    items: &[UseItem],
) -> Result<(), AllocError>
    ensures { OnOk result ((k : Selected) → locals_in (get same_selected renamed.new k) ≡ locals_in (get same_selected renamed.old k) ++ locals_from from items.now k) }
{
    for item in items {
        if item.is_rename {
            let key = Selected {
                source: from,
                original: item.original.symbol,
            };
            add_local(alloc, renamed, key, item.local.symbol)?;
        }
    }
    Ok(())
}

/// The local names that renames give.
fn renamed_names(
    alloc: Global,
    uses: &[UseOutline],
) -> Result<IndexMap<Selected, Vec<usize>>, AllocError>
    ensures { IfOk result (λ m. (k : Selected) → locals_in (get same_selected m k) ≡ flat_map (λ u. locals_from u.from.symbol u.items k) (map using_view uses.now)) }
{
    let mut renamed = IndexMap::new(alloc);
    for statement in uses {
        add_renames(
            alloc,
            &mut renamed,
            statement.module.symbol,
            &statement.items,
        )?;
    }
    Ok(renamed)
}

/// Adds the names of a module that these items name.
fn add_originals(names: &mut IndexSet<usize>, items: &[UseItem]) -> Result<(), AllocError>
    ensures { OnOk result (names.new.keys ≡ insert_all nat_eq names.old.keys (map (λ i. i.original.symbol) items.now)) }
{
    for item in items {
        names.insert(item.original.symbol)?;
    }
    Ok(())
}

/// Adds the names that the items of one USE statement name to those of its module.
fn add_named(
    alloc: Global,
    named: &mut IndexMap<usize, IndexSet<usize>>,
    from: usize,
    items: &[UseItem],
) -> Result<(), AllocError>
    ensures { OnOk result ((m : ℕ) → names_in (get nat_eq named.new m) ≡ insert_all nat_eq (names_in (get nat_eq named.old m)) (originals_from from items.now m)) }
{
    let mut names = match named.swap_remove(&from) {
        Some(names) => names,
        None => IndexSet::new(alloc),
    };
    add_originals(&mut names, items)?;
    named.insert(from, names)?;
    Ok(())
}

/// The names of each module that items name.
#[tactic(auto, using(crate::proofs::Steps::insert_more))]
fn named_originals(
    alloc: Global,
    uses: &[UseOutline],
) -> Result<IndexMap<usize, IndexSet<usize>>, AllocError>
    ensures { IfOk result (λ n. (m : ℕ) → names_in (get nat_eq n m) ≡ insert_all nat_eq [] (flat_map (λ u. originals_from u.from.symbol u.items m) (map using_view uses.now))) }
{
    let mut named = IndexMap::new(alloc);
    for statement in uses {
        add_named(alloc, &mut named, statement.module.symbol, &statement.items)?;
    }
    Ok(named)
}

/// The modules in the USE statements of a scope.
#[derive(Drop)]
struct Sources {
    modules: IndexSet<usize>,
    whole: IndexSet<usize>,
}

/// The modules in these USE statements.
fn sources_of(alloc: Global, uses: &[UseOutline]) -> Result<Sources, AllocError>
    ensures modules { IfOk result (λ s. s.modules.keys ≡ modules_of (map using_view uses.now)) }
    ensures whole { IfOk result (λ s. s.whole.keys ≡ insert_all nat_eq [] (flat_map open_name (map using_view uses.now))) }
{
    let modules = modules_of(alloc, uses)?;
    let whole = open_modules(alloc, uses)?;
    Ok(Sources { modules, whole })
}

/// The items in the USE statements of a scope.
#[derive(Drop)]
struct Items {
    alone: IndexSet<Selected>,
    renamed: IndexMap<Selected, Vec<usize>>,
    named: IndexMap<usize, IndexSet<usize>>,
}

/// The items in these USE statements.
fn items_of(alloc: Global, uses: &[UseOutline]) -> Result<Items, AllocError>
    ensures alone { IfOk result (λ i. i.alone.keys ≡ insert_all same_selected [] (flat_map only_names (map using_view uses.now))) }
    ensures renamed { IfOk result (λ i. (k : Selected) → locals_in (get same_selected i.renamed k) ≡ flat_map (λ u. locals_from u.from.symbol u.items k) (map using_view uses.now)) }
    ensures named { IfOk result (λ i. (m : ℕ) → names_in (get nat_eq i.named m) ≡ insert_all nat_eq [] (flat_map (λ u. originals_from u.from.symbol u.items m) (map using_view uses.now))) }
{
    let alone = alone_names(alloc, uses)?;
    let renamed = renamed_names(alloc, uses)?;
    let named = named_originals(alloc, uses)?;
    Ok(Items {
        alone,
        renamed,
        named,
    })
}

/// What the USE statements of a scope say, in one pass over each.
pub fn selections_of(alloc: Global, uses: &[UseOutline]) -> Result<Selections, AllocError>
    ensures { IfOk result (AreSelections (map using_view uses.now)) }
{
    let sources = sources_of(alloc, uses)?;
    let items = items_of(alloc, uses)?;
    Ok(Selections {
        modules: sources.modules,
        whole: sources.whole,
        alone: items.alone,
        renamed: items.renamed,
        named: items.named,
    })
}

/// The local names of a name of a module.
pub fn locals_by(selections: &Selections, from: usize, original: usize) -> &[usize]
    ensures { result.now ≡ locals_by selections.now from original }
{
    match selections.renamed.get(&Selected {
        source: from,
        original,
    }) {
        Some(locals) => locals,
        None => &[],
    }
}

/// Whether the scope keeps a name of a module.
pub fn kept_by(selections: &Selections, from: usize, original: usize) -> bool
    ensures { result ≡ kept_by selections.now from original }
{
    selections.alone.contains(&Selected {
        source: from,
        original,
    }) || (selections.whole.contains(&from) && locals_by(selections, from, original).is_empty())
}

/// The names of a module that items name.
pub fn names_of(selections: &Selections, from: usize) -> &[usize]
    ensures { result.now ≡ names_in (get nat_eq selections.now.named from) }
{
    match selections.named.get(&from) {
        Some(names) => names.as_slice(),
        None => &[],
    }
}
