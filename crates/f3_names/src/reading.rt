//! What is visible in a scope, and what an entity is.

ghost use Rattle.std.specs.Prelude.{◌≡◌, ℕ, ◌<◌, Some, map, option_map, length, slice_get};
ghost use Rattle.f3_scopes.specs.Outlines.{scope_view};
ghost use Rattle.f3_access.specs.Lookups.{Resolves};
ghost use Rattle.f3_access.specs.Pairs.{pairs_left};
ghost use Rattle.f3_access.specs.Tables.{own_of, visible_of, private_of};
ghost use Rattle.f3_name_rules.specs.NameBreaks.{text_of};
ghost use Rattle.f3_names.specs.Entities.{VisibleIsEntity};
ghost use Rattle.f3_names.specs.Tables.{AreNames, outlined, entities_of, texts_of, lookup_at, unit_at, exports_at, IsVisibleAs};
ghost use Rattle.f3_names.specs.Texts.{lowered};
ghost use Rattle.f3_tree.specs.Tree.{Tree};

use crate::entity::Entity;
use crate::table::{Names, ScopeId};
use crate::texts::symbol_of;
use f3_access::pairs::VisiblePairs;
use f3_access::table::Tables;
use f3_graph::UnitId;
use f3_lookups::lookup::{EntityId, Lookup, Visible};
use f3_scopes::outline::Outline;

/// What is visible in a scope under a name, by the number of the name among the program's.
///
/// It takes no memory, and looks the name up in hashed tables. In a scope that is none of the program's nothing is visible.
pub fn lookup(names: &Names, scope: ScopeId, symbol: usize) -> Lookup
    ensures { result ≡ lookup_at names.now scope.number symbol }
{
    f3_access::lookup(&names.tables, scope.number, symbol)
}

/// What is visible in a scope under a name, by its text; letters count without their case (3.1.1).
///
/// It takes no memory, and looks a name of the language's length up in hashed tables; a text that is longer than each name
/// of the program has no entity, and none of them is looked at. In a scope that is none of the
/// program's nothing is visible.
pub fn resolve(names: &Names, scope: ScopeId, name: &str) -> Lookup
    ensures { (t : Tree) → AreNames t names.now → Resolves result (IsVisibleAs t scope.number (lowered name.now)) }
{
    match symbol_of(&names.texts, names.longest, name) {
        Some(symbol) => lookup(names, scope, symbol),
        None => Lookup::Nothing,
    }
}

impl Names {
    /// What the rules on names speak of in each scope, in the order of their numbers.
    pub fn outlines(&self) -> &[Outline]
        ensures { map scope_view result.now ≡ outlined self.now }
    {
        &self.outlines
    }

    /// What each scope sees.
    pub fn tables(&self) -> &Tables
        ensures { result.now ≡ self.now.tables }
    {
        &self.tables
    }

    /// The number of each unit among the scopes, in the order of the units.
    pub fn unit_scopes(&self) -> &[usize]
        ensures { result.now ≡ self.now.units.items }
    {
        &self.units
    }

    /// The entities of the program, by their numbers: scope by scope, each scope's in the order of their places.
    pub fn entities(&self) -> &[Entity]
        ensures { result.now ≡ entities_of self.now }
    {
        &self.entities
    }

    /// An entity by its number.
    pub fn entity(&self, entity: EntityId) -> &Entity
        requires { entity < length (entities_of self.now) }
        ensures { slice_get (entities_of self.now) entity ≡ Some result.now }
    {
        &self.entities[entity]
    }

    /// What a unit exports: of a module the names that are public there, each with its entity, in the order of `own`.
    pub fn exports(&self, unit: UnitId) -> &[Visible]
        ensures { result.now ≡ exports_at self.now unit.number }
    {
        match self.unit_scope(unit) {
            Some(scope) => f3_access::exports(&self.tables, scope.number),
            None => &[],
        }
    }

    /// What is visible in a scope, each entity once under each name: its own, then what is visible around it under names that
    /// none of its own has, in their order (own rule). The walk takes no memory.
    pub fn visible(&self, scope: ScopeId) -> VisiblePairs<'_>
        ensures { pairs_left result ≡ visible_of self.now.tables scope.number }
    {
        f3_access::visible(&self.tables, scope.number)
    }

    /// What a scope has of its own, each entity once under each name: what its USE statements bring, then what it declares
    /// (own rule). In a unit that is all that is visible.
    pub fn own(&self, scope: ScopeId) -> &[Visible]
        ensures { result.now ≡ own_of self.now.tables scope.number }
    {
        f3_access::own(&self.tables, scope.number)
    }

    /// The text of a name in lower case, by its number; empty where there is no such name.
    pub fn text(&self, symbol: usize) -> &str
        ensures { result.now ≡ text_of (texts_of self.now) symbol }
    {
        match self.texts.get_index(symbol) {
            Some(text) => text.as_str(),
            None => "",
        }
    }

    /// The scope of a unit.
    pub fn unit_scope(&self, unit: UnitId) -> Option<ScopeId>
        ensures { option_map (λ s. s.number) result ≡ slice_get self.now.units.items unit.number }
    {
        let number = *self.units.get(unit.number)?;
        Some(ScopeId { number })
    }

    /// The scope of the unit that holds a scope: of a unit itself, of a procedure or a construct the outermost around it.
    pub fn unit(&self, scope: ScopeId) -> ScopeId
        ensures { result.number ≡ unit_at self.now scope.number }
    {
        let mut number = scope.number;
        while let Some(host) = f3_access::host(&self.tables, number) {
            number = host;
        }
        ScopeId { number }
    }

    /// Whether a name is private in a scope: a PRIVATE names it, or no access does and there is a PRIVATE without a list
    /// (5.2.1).
    pub fn is_private(&self, scope: ScopeId, symbol: usize) -> bool
        ensures { result ≡ private_of self.now.tables scope.number symbol }
    {
        f3_access::is_private(&self.tables, scope.number, symbol)
    }
}

/// What is visible in a scope is an entity of the program, by its number.
pub fn visible_is_entity()
    ensures { VisibleIsEntity }
{}
