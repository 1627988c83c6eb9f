//! The attributes of a declaration.

ghost use Rattle.std.specs.Prelude.{◌≡◌, ◌+◌, ℕ, None, map, option_map};
ghost use Rattle.std.specs.List.{flat_map};
ghost use Rattle.f3_tree.specs.Declarations.{attribute_view, placed_view, shape_view, declaration_view};
ghost use Rattle.f3_scopes.specs.Scopes.{intent_of as intents};
ghost use Rattle.f3_type_rules.specs.Names.{attributes_of, dimension_in, last_of};
ghost use Rattle.f3_declared.specs.Standings.{standing, again, together};
ghost use Rattle.f3_declared.specs.Declarations.{IsRead, kinds_in};
ghost use Rattle.f3_declared.specs.Inner.Counting.{with_kind, kinds_of, last_dimension, last_intent};

use f3_tree::declaration::{Attribute, AttributeKind, Declaration, Intent, Shape};

/// How often something stands somewhere: at all, and twice.
#[derive(Clone, Copy)]
pub struct Standing {
    pub once: bool,
    pub twice: bool,
}

/// How often attributes of each sort stand in a declaration.
#[derive(Clone, Copy)]
pub struct Kinds {
    pub protected: Standing,
    pub parameter: Standing,
    pub save: Standing,
    pub allocatable: Standing,
    pub dimension: Standing,
    pub intent: Standing,
}

/// A declaration, and what its attributes say.
#[derive(Clone, Copy)]
pub struct Reading<'a> {
    pub declaration: &'a Declaration,
    pub kinds: Kinds,
    /// The shape that DIMENSION gives; the last, where it stands twice.
    pub dimension: Option<&'a Shape>,
    /// Its intent; the last, where INTENT stands twice.
    pub intent: Option<Intent>,
}

/// Nothing stands there.
pub fn never() -> Standing
    ensures { result ≡ standing 0 }
{
    Standing {
        once: false,
        twice: false,
    }
}

/// It stands there once more.
pub fn again(before: Standing) -> Standing
    ensures { result ≡ again before }
{
    Standing {
        once: true,
        twice: before.once,
    }
}

/// How often it stands in two places together.
pub fn together(a: Standing, b: Standing) -> Standing
    ensures { result ≡ together a b }
{
    Standing {
        once: a.once || b.once,
        twice: a.twice || b.twice || (a.once && b.once),
    }
}

fn with_kind(kinds: Kinds, kind: &AttributeKind) -> Kinds
    ensures { result ≡ with_kind kinds (attribute_view kind.now) }
{
    match kind {
        AttributeKind::Access(_) => kinds,
        AttributeKind::Protected => Kinds {
            protected: again(kinds.protected),
            ..kinds
        },
        AttributeKind::Parameter => Kinds {
            parameter: again(kinds.parameter),
            ..kinds
        },
        AttributeKind::Save => Kinds {
            save: again(kinds.save),
            ..kinds
        },
        AttributeKind::Allocatable => Kinds {
            allocatable: again(kinds.allocatable),
            ..kinds
        },
        AttributeKind::Dimension(_) => Kinds {
            dimension: again(kinds.dimension),
            ..kinds
        },
        AttributeKind::Intent(_) => Kinds {
            intent: again(kinds.intent),
            ..kinds
        },
    }
}

fn kinds_of(list: &[Attribute]) -> Kinds
    ensures { result ≡ kinds_of (map (λ a. attribute_view a.kind) list.now) }
{
    let mut kinds = Kinds {
        protected: never(),
        parameter: never(),
        save: never(),
        allocatable: never(),
        dimension: never(),
        intent: never(),
    };
    for attribute in list {
        kinds = with_kind(kinds, &attribute.kind);
    }
    kinds
}

fn later_dimension<'a>(before: Option<&'a Shape>, kind: &'a AttributeKind) -> Option<&'a Shape>
    ensures { option_map (λ s. shape_view s.now) result ≡ last_dimension (option_map (λ s. shape_view s.now) before.entry) (attribute_view kind.now) }
{
    match kind {
        AttributeKind::Dimension(shape) => Some(shape),
        AttributeKind::Access(_) => before,
        AttributeKind::Protected => before,
        AttributeKind::Parameter => before,
        AttributeKind::Save => before,
        AttributeKind::Allocatable => before,
        AttributeKind::Intent(_) => before,
    }
}

fn dimension_of(list: &[Attribute]) -> Option<&Shape>
    ensures { option_map (λ s. shape_view s.now) result ≡ last_of None (flat_map dimension_in (map (λ a. attribute_view a.kind) list.now)) }
{
    let mut last = None;
    for attribute in list {
        last = later_dimension(last, &attribute.kind);
    }
    last
}

fn later_intent(before: Option<Intent>, kind: &AttributeKind) -> Option<Intent>
    ensures { result ≡ last_intent before (attribute_view kind.now) }
{
    match kind {
        AttributeKind::Intent(intent) => Some(*intent),
        AttributeKind::Access(_) => before,
        AttributeKind::Protected => before,
        AttributeKind::Parameter => before,
        AttributeKind::Save => before,
        AttributeKind::Allocatable => before,
        AttributeKind::Dimension(_) => before,
    }
}

fn intent_of(list: &[Attribute]) -> Option<Intent>
    ensures { result ≡ last_of None (flat_map intents (map (λ a. attribute_view a.kind) list.now)) }
{
    let mut last = None;
    for attribute in list {
        last = later_intent(last, &attribute.kind);
    }
    last
}

/// Reads the attributes of a declaration, once for all the names that it declares.
pub fn read(declaration: &Declaration) -> Reading<'_>
    ensures declaration { result.declaration.now ≡ declaration.now }
    ensures read { IsRead result }
{
    Reading {
        declaration,
        kinds: kinds_of(&declaration.attributes),
        dimension: dimension_of(&declaration.attributes),
        intent: intent_of(&declaration.attributes),
    }
}
