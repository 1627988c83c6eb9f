//! Chains: an IF with each ELSE IF behind it, or cases, each with what is done where it is not taken.

ghost use Rattle.std.specs.Prelude.{◌≡◌, ◌<◌, ◌≤◌, ℕ, IfOk};
ghost use Rattle.std.specs.List.{All};
ghost use Rattle.f3_program.specs.declared.statement.Statement.{size-Statement};
ghost use Rattle.f3_meaning_whole.specs.Act.{Setting};
ghost use Rattle.f3_code.specs.Lower.{lowered};
ghost use Rattle.f3_code.specs.Code.{Ways, code_of};
ghost use Rattle.f3_gen_statements.specs.Chain.{IsSingle, chain_code};

use f3_places::source::Place;
use f3_program::expression::Expression;
use f3_program::statement::{Range, Statement};
use std::alloc::{AllocError, Global};

/// What a link is taken by: a condition that holds, or a value that is in a range.
#[derive(Clone, Copy)]
pub enum Test<'a> {
    Condition(&'a Expression),
    Ranges(&'a [Range]),
}

/// An IF, an ELSE IF or a case, with the place that errors tell, and without what is done where it is not taken.
#[derive(Clone, Copy)]
pub struct Link<'a> {
    pub place: Option<Place>,
    pub test: Test<'a>,
    pub then: &'a Statement,
}

/// Links, one behind the other, and what is done where none of them is taken, with the place that errors tell there.
#[derive(Drop)]
pub struct Chain<'a> {
    pub links: Vec<Link<'a>>,
    pub place: Option<Place>,
    pub last: &'a Statement,
}

/// The chain that a statement is: with no link where it is no IF, ELSE IF or case.
pub fn chain_of<'a>(
    alloc: Global,
    mut place: Option<Place>,
    statement: &'a Statement,
) -> Result<Chain<'a>, AllocError>
    ensures code { IfOk result (λ c. (m : ℕ) → (g : Setting) → (ws : Ways) →
        code_of m place (lowered g statement.entry.now) ws ≡ chain_code m g c.links.items (code_of m c.place (lowered g c.last.now) ws) ws) }
    ensures single { IfOk result (λ c. IsSingle c.last.now) }
    ensures parts { IfOk result (λ c. All (λ l. size-Statement l.then.now < size-Statement statement.entry.now) c.links.items) }
    ensures within { IfOk result (λ c. size-Statement c.last.now ≤ size-Statement statement.entry.now) }
{
    let mut links = Vec::new(alloc);
    let mut last = statement;
    loop {
        match last {
            Statement::At(at, false, inner) => {
                place = Some(*at);
                last = inner;
            }
            Statement::If(e, then, other) => {
                let test = Test::Condition(e);
                links.push(Link { place, test, then })?;
                last = other;
            }
            Statement::Case(ranges, then, other) => {
                let test = Test::Ranges(ranges);
                links.push(Link { place, test, then })?;
                last = other;
            }
            _ => return Ok(Chain { links, place, last }),
        }
    }
}
