//! The tables of names.

ghost use Rattle.std.specs.Prelude.{nat_eq};
ghost use Rattle.indexmap.specs.IndexMap.{get};
ghost use Rattle.f3_access.specs.Parts.{AreOfScopes};

use f3_lookups::lookup::{Lookup, Visible};
use f3_selecting::choosing::Accesses;
use indexmap::{IndexMap, IndexSet};

/// The table of one scope. Only this crate makes one.
#[derive(Drop)]
pub struct ScopeTable {
    /// Each entity that it declares or that a USE of it brings, with its name, in the order of names.
    pub(crate) own: IndexSet<Visible>,
    /// The names that a USE of it brings.
    pub(crate) used: IndexSet<usize>,
    /// What is in `own` under each name.
    pub(crate) lookups: IndexMap<usize, Lookup>,
    /// Of a module, what it exports, in order.
    pub(crate) exports: Vec<Visible>,
    /// The places in `exports` of each name there, in order.
    pub(crate) places: IndexMap<usize, Vec<usize>>,
    /// Of a procedure or a construct, the number of the scope around it.
    pub(crate) host: Option<usize>,
}

/// The tables of a program, in order of its scopes. They are those of its outlines: only `tables` makes them.
#[derive(Drop)]
pub struct Tables {
    /// The table of each scope.
    pub(crate) scopes: Vec<ScopeTable>,
    /// Which names of each scope are private.
    pub(crate) accesses: Vec<Accesses>,
    /// The number of the module of each name among the scopes.
    pub(crate) modules: IndexMap<usize, usize>,
    pub ghost of_scopes: { ∥ AreOfScopes scopes.items accesses.items (get nat_eq modules) ∥₁ },
}
