//! What is told of the stacks of activations.

/// How many cells the stack of an activation needs: at no time of any run it has more.
#[derive(Drop)]
pub struct Needs {
    /// Of the main program.
    pub main: usize,
    /// Of each procedure, by its number.
    pub procedures: Vec<usize>,
}

impl Needs {
    ghost use Rattle.std.specs.Prelude.{◌≡◌};
    ghost use Rattle.f3_sizes.specs.Needs.{told_for};

    /// How many cells an activation of the main program needs, or of the procedure of a number: none where there is no such procedure.
    pub fn of(&self, procedure: Option<usize>) -> Option<usize>
        ensures { result ≡ told_for self.now procedure }
    {
        match procedure {
            Some(number) => self.procedures.get(number).copied(),
            None => Some(self.main),
        }
    }
}
