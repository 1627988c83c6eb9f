//! What the entities of a program are.

ghost use Rattle.f3_types.specs.Parts.{AreOfAProgram};

use f3_kinds::things::Thing;
use f3_kinds::types::Scalar;
use f3_lookups::lookup::EntityId;
use f3_rules::breaks::Break;

/// What the entities of a program are, the values of its named constants, the cells of its types, and whether a rule on
/// definitions is broken. They are those of one program: only `typed` makes them.
#[derive(Drop)]
pub struct Types {
    /// What each entity is, by its number.
    pub(crate) things: Vec<Thing>,
    /// The value of each entity that is a named constant.
    pub(crate) values: Vec<Option<Scalar>>,
    /// The cells of each entity that is a derived type.
    pub(crate) cells: Vec<Option<u64>>,
    /// The first break of the rules on definitions, if there is one.
    pub(crate) definition: Option<Break>,
    pub ghost of_a_program: { ∥ AreOfAProgram things.items values.items cells.items ∥₁ },
}

impl Types {
    ghost use Rattle.std.specs.Prelude.{◌≡◌, None, option_map, slice_get};
    ghost use Rattle.f3_types.specs.Types.{value_in, cells_in};

    /// What an entity is.
    pub fn thing(&self, entity: EntityId) -> Option<&Thing>
        ensures { option_map (λ t. t.now) result ≡ slice_get self.now.things.items entity }
    {
        self.things.get(entity)
    }

    /// The value of an entity that is a scalar named constant.
    pub fn value(&self, entity: EntityId) -> Option<Scalar>
        ensures { result ≡ value_in self.now entity }
    {
        match self.values.get(entity) {
            Some(value) => *value,
            None => None,
        }
    }

    /// The tables: what each entity is, and the value of each that is a named constant, by their numbers.
    pub fn tables(self) -> (Vec<Thing>, Vec<Option<Scalar>>)
        ensures things { result.0.items ≡ self.things.items }
        ensures values { result.1.items ≡ self.values.items }
    {
        let Types { things, values, .. } = self;
        (things, values)
    }

    /// The cells of a derived type, by its entity.
    pub fn cells(&self, entity: EntityId) -> Option<u64>
        ensures { result ≡ cells_in self.now entity }
    {
        match self.cells.get(entity) {
            Some(cells) => *cells,
            None => None,
        }
    }
}
