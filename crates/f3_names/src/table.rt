//! The names of a program.

ghost use Rattle.std.specs.Prelude.{◌≡◌, map, string_bytes};
ghost use Rattle.f3_scopes.specs.Outlines.{scope_view};
ghost use Rattle.f3_names.specs.Parts.{AreOfAProgram};
ghost use Rattle.f3_names.specs.Texts.{longest_from};

use crate::entity::Entity;
use crate::texts::longest;
use f3_access::table::Tables;
use f3_scopes::outline::Outline;
use indexmap::IndexSet;

/// A scope by its number: units, procedures and ASSOCIATE constructs are numbered from 0 in the order of their places.
#[derive(Clone, Copy, PartialEq, Eq, Debug)]
pub struct ScopeId {
    pub number: usize,
}

/// The entities of a program, and what each of its scopes sees of them. They are those of one program: only `names` makes
/// them.
#[derive(Drop)]
pub struct Names {
    /// The scopes, in the order of their places.
    pub(crate) outlines: Vec<Outline>,
    /// The entities, scope by scope, each scope's in the order of their places.
    pub(crate) entities: Vec<Entity>,
    /// What each scope sees.
    pub(crate) tables: Tables,
    /// The texts of the names in lower case, each once.
    pub(crate) texts: IndexSet<String>,
    /// The length of the longest text, in bytes.
    pub(crate) longest: usize,
    /// The number of each unit among the scopes.
    pub(crate) units: Vec<usize>,
    pub ghost of_a_program: { ∥ AreOfAProgram (map scope_view outlines.items) entities.items tables (map string_bytes texts.keys) units.items ∥₁ },
    ghost longest_is: { longest ≡ longest_from 0 (map string_bytes texts.keys) },
}

impl Names {
    /// The names of a program, from their parts.
    pub(crate) fn new(
        outlines: Vec<Outline>,
        entities: Vec<Entity>,
        tables: Tables,
        texts: IndexSet<String>,
        units: Vec<usize>,
    ) -> Self
        requires { ∥ AreOfAProgram (map scope_view outlines.items) entities.items tables (map string_bytes texts.keys) units.items ∥₁ }
        ensures outlines { result.outlines ≡ outlines }
        ensures entities { result.entities ≡ entities }
        ensures tables { result.tables ≡ tables }
        ensures texts { result.texts ≡ texts }
        ensures units { result.units ≡ units }
    {
        let longest = longest(texts.as_slice());
        Names {
            outlines,
            entities,
            tables,
            texts,
            longest,
            units,
        }
    }
}
