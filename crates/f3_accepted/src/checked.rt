//! What was accepted.

ghost use Rattle.std.specs.Prelude.{◌≡◌};
ghost use Rattle.f3_tree.specs.Tree.{view};
ghost use Rattle.f3_accepted.specs.Accepted.{AreAccepted};

use f3_graph::UnitOrder;
use f3_names::table::Names;
use f3_tree::program::Program;
use f3_types::table::Types;

/// The tree of sources that break no rule, an order of its units, what its names mean, and what its entities are.
#[derive(Drop)]
pub struct Parts {
    pub program: Program,
    pub order: UnitOrder,
    pub names: Names,
    pub types: Types,
    pub ghost are_accepted: { ∥ AreAccepted (view program) order names types ∥₁ },
}

/// Sources that break no rule: their tree, an order of its units, what its names mean, and what its entities are. There are
/// sources of which it is accepted: only `check` makes one.
#[derive(Drop)]
pub struct Checked {
    pub(crate) program: Program,
    pub(crate) order: UnitOrder,
    pub(crate) names: Names,
    pub(crate) types: Types,
    pub ghost are_accepted: { ∥ AreAccepted (view program) order names types ∥₁ },
}

impl Checked {
    ghost use Rattle.f3_accepted.specs.Checked.{program_of, order_of, names_of, types_of};

    /// The tree.
    pub fn program(&self) -> &Program
        ensures { result.now ≡ program_of self.now }
    {
        &self.program
    }

    /// The units, in an order in which used modules come first.
    pub fn order(&self) -> &UnitOrder
        ensures { result.now ≡ order_of self.now }
    {
        &self.order
    }

    /// What the names mean.
    pub fn names(&self) -> &Names
        ensures { result.now ≡ names_of self.now }
    {
        &self.names
    }

    /// What the entities are.
    pub fn types(&self) -> &Types
        ensures { result.now ≡ types_of self.now }
    {
        &self.types
    }

    /// The tree, the order of its units, what its names mean, and what its entities are.
    pub fn parts(self) -> Parts
        ensures program { result.program ≡ program_of self }
        ensures order { result.order ≡ order_of self }
        ensures names { result.names ≡ names_of self }
        ensures types { result.types ≡ types_of self }
    {
        let Checked {
            program,
            order,
            names,
            types,
            ..
        } = self;
        Parts {
            program,
            order,
            names,
            types,
        }
    }

    /// Gives back its memory: what a crate above need not prove again of all that is in it.
    pub fn release(self) {
        drop(self);
    }
}
