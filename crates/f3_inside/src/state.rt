//! What is known along statements.

ghost use Rattle.std.specs.Prelude.{◌≡◌};
ghost use Rattle.f3_numbers.specs.Surroundings.{surroundings_of};
ghost use Rattle.f3_inside.specs.Standing.{state_of};

use f3_numbers::numbers::Numbers;
use f3_numbers::surroundings::Surroundings;
use f3_sites::site::Site;

/// What is known along the statements of a procedure or the main program: an ASSOCIATE construct changes it, and its end changes it back.
#[derive(Drop)]
pub struct State<'a> {
    pub site: Site<'a>,
    pub numbers: Numbers,
    /// The entities of what is lent, in the order of their numbers: the dummies, and the associate names of the constructs around it.
    pub lent: Vec<usize>,
    /// The character constants of the program, by their numbers.
    pub texts: &'a [Vec<u8>],
}

/// What an expression may know where a statement stands.
pub fn surroundings<'b>(state: &'b State<'_>) -> Surroundings<'b>
    ensures { surroundings_of result ≡ state_of state.now }
{
    Surroundings {
        known: &state.site.known,
        at: state.site.at,
        numbers: &state.numbers,
        lent: state.lent.len(),
        texts: state.texts,
    }
}
