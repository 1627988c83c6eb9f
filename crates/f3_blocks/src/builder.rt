//! A block, as it grows statement by statement.

ghost use Rattle.std.specs.Prelude.{◌≡◌, ◌++◌, Bool, List, [], ◌∷◌, IfOk, map};
ghost use Rattle.f3_tree.specs.Expressions.{expression_view};
ghost use Rattle.f3_tree.specs.Statements.{StatementTree, acts, acts_if, action_view, statement_view, selector_view, block_view};
ghost use Rattle.f3_form.specs.Forms.{form_view, ends};
ghost use Rattle.f3_blocks.specs.Pieces.{piece};
ghost use Rattle.f3_blocks.specs.Blocks.{may_act};
ghost use Rattle.f3_blocks.specs.declared.error.StepError.TheVariants.{OutOfPlace};
ghost use Rattle.f3_blocks.specs.Machine.{Open, start, step, in_loop, may_stand, pushed, opened, turned, close, tested_view, chosen_view, within, behind, open_as, builder_view, Pops, Turns, Moves};

use crate::error::{StepError, out_of_place};
use f3_form::form::{Ended, Form};
use f3_places::source::Place;
use f3_tree::expression::{Expression, Name};
use f3_tree::statement::{Action, Association, Control, Selector, Statement};
use std::alloc::Global;
use std::mem;

/// What is open of a construct.
#[derive(Drop)]
pub enum Opening {
    /// The branches before, and the place and the condition of the IF or ELSE IF that is open.
    If(Vec<(Place, Expression, Vec<Statement>)>, Place, Expression),
    /// The branches before ELSE.
    Else(Vec<(Place, Expression, Vec<Statement>)>),
    /// SELECT CASE before the first CASE.
    Select(Place, Expression),
    /// SELECT CASE, the cases before, and the CASE that is open.
    Case(Place, Expression, Vec<(Place, Selector, Vec<Statement>)>, Place, Selector),
    Do(Place, Control),
    Associate(Place, Vec<Association>),
}

/// An open construct.
#[derive(Drop)]
pub struct OpenConstruct {
    pub opening: Opening,
    /// The statements before it, in the block in which it stands.
    pub before: Vec<Statement>,
}

/// The open constructs of a body from the outermost, and the statements so far in the innermost.
#[derive(Drop)]
pub struct BlockBuilder {
    pub constructs: Vec<OpenConstruct>,
    pub body: Vec<Statement>,
}

/// Where a construct goes on with its next block.
#[derive(Drop)]
pub enum Edge {
    ElseIf(Place, Expression),
    Else,
    Case(Place, Selector),
}

/// Whether an action may stand in a procedure or in a program, and in a DO or outside of each.
fn may_act(procedure: bool, looped: bool, action: &Action) -> bool
    ensures { result ≡ may_act procedure looped (action_view action.now) }
{
    match action {
        Action::Return => procedure,
        Action::Cycle => looped,
        Action::Exit => looped,
        Action::Assign(_, _) => true,
        Action::Call(_, _) => true,
        Action::Allocate(_, _) => true,
        Action::Deallocate(_, _) => true,
        Action::Print(_) => true,
        Action::Stop(_) => true,
        Action::Continue => true,
    }
}

/// The branches and one more.
fn with_branch(
    branches: Vec<(Place, Expression, Vec<Statement>)>,
    place: Place,
    condition: Expression,
    body: Vec<Statement>,
) -> Result<Vec<(Place, Expression, Vec<Statement>)>, StepError>
    ensures { Turns (λ v. map tested_view v.items) result (Some (map tested_view branches.items ++ (place, expression_view condition, block_view body) ∷ [])) }
{
    let mut branches = branches;
    branches.push((place, condition, body))?;
    Ok(branches)
}

/// The cases and one more.
fn with_case(
    cases: Vec<(Place, Selector, Vec<Statement>)>,
    place: Place,
    selector: Selector,
    body: Vec<Statement>,
) -> Result<Vec<(Place, Selector, Vec<Statement>)>, StepError>
    ensures { Turns (λ v. map chosen_view v.items) result (Some (map chosen_view cases.items ++ (place, selector_view selector, block_view body) ∷ [])) }
{
    let mut cases = cases;
    cases.push((place, selector, body))?;
    Ok(cases)
}

impl Opening {
    /// Nothing goes on so behind this construct, which is let go.
    fn out_of_place(self) -> StepError
        ensures { result ≡ OutOfPlace }
    {
        drop(self);
        StepError::OutOfPlace
    }

    /// What is open of the construct behind this edge, where this block stands before it. Answers `Memory` where a growth
    /// of the host's memory is refused, and `OutOfPlace` where the construct has no such edge there (8.1).
    fn next(self, alloc: Global, body: Vec<Statement>, edge: Edge) -> Result<Opening, StepError>
        ensures { (before : List StatementTree) (os : List Open) → Turns (λ o. within (open_as o before) os) result (turned edge (open_as self before ∷ os) (map statement_view body.items)) }
    {
        match edge {
            Edge::ElseIf(place, condition) => match self {
                Opening::If(branches, at, tested) => Ok(Opening::If(
                    with_branch(branches, at, tested, body)?,
                    place,
                    condition,
                )),
                _ => Err(self.out_of_place()),
            },
            Edge::Else => match self {
                Opening::If(branches, at, tested) => {
                    Ok(Opening::Else(with_branch(branches, at, tested, body)?))
                }
                _ => Err(self.out_of_place()),
            },
            Edge::Case(place, selector) => match self {
                Opening::Select(at, value) => {
                    Ok(Opening::Case(at, value, Vec::new(alloc), place, selector))
                }
                Opening::Case(at, value, cases, from, chosen) => Ok(Opening::Case(
                    at,
                    value,
                    with_case(cases, from, chosen, body)?,
                    place,
                    selector,
                )),
                _ => Err(self.out_of_place()),
            },
        }
    }

    /// The construct, where this END stands behind this block. Answers `Memory` where a growth of the host's memory is
    /// refused, and `OutOfPlace` where the END is not that of the construct (8.1).
    fn end(
        self,
        alloc: Global,
        body: Vec<Statement>,
        what: Option<Ended>,
    ) -> Result<Statement, StepError>
        ensures { (before : List StatementTree) (os : List Open) → Turns (λ s. behind os before (statement_view s)) result (close what (open_as self before ∷ os) (map statement_view body.items)) }
    {
        match what {
            Some(Ended::If) => match self {
                Opening::If(branches, at, tested) => {
                    Ok(Statement::If(with_branch(branches, at, tested, body)?, None))
                }
                Opening::Else(branches) => Ok(Statement::If(branches, Some(body))),
                _ => Err(self.out_of_place()),
            },
            Some(Ended::Select) => match self {
                Opening::Select(at, value) => Ok(Statement::Select(at, value, Vec::new(alloc))),
                Opening::Case(at, value, cases, from, chosen) => Ok(Statement::Select(
                    at,
                    value,
                    with_case(cases, from, chosen, body)?,
                )),
                _ => Err(self.out_of_place()),
            },
            Some(Ended::Do) => match self {
                Opening::Do(at, control) => Ok(Statement::Do(at, control, body)),
                _ => Err(self.out_of_place()),
            },
            Some(Ended::Associate) => match self {
                Opening::Associate(at, associations) => {
                    Ok(Statement::Associate(at, associations, body))
                }
                _ => Err(self.out_of_place()),
            },
            _ => Err(self.out_of_place()),
        }
    }
}

impl BlockBuilder {
    /// How many constructs may be open (own rule).
    pub const DEEPEST: usize = 64;

    /// No statement, and nothing open.
    pub fn new(alloc: Global) -> Self
        ensures { builder_view result ≡ start }
    {
        BlockBuilder {
            constructs: Vec::new(alloc),
            body: Vec::new(alloc),
        }
    }

    /// Goes on with a statement of a procedure or of a program. Answers `Memory` where a growth of the host's memory is
    /// refused, `OutOfPlace` where no block goes on so (8.1), and `TooDeep` where it opens a 65th construct (own rule).
    /// Behind an error the builder is not to be used again: it may have lost statements.
    pub fn step(
        &mut self,
        alloc: Global,
        procedure: bool,
        place: Place,
        form: Form,
    ) -> Result<(), StepError>
        ensures { Moves result (builder_view self.old) (builder_view self.new) (step procedure (piece place (form_view form)) (builder_view self.old)) }
    {
        match form {
            Form::Act(action) => self.act(procedure, place, action),
            Form::LogicalIf(condition, at, action) => self.act_if(
                procedure, place, condition, at, action,
            ),
            Form::IfThen(condition) => self.open(
                alloc,
                Opening::If(Vec::new(alloc), place, condition),
            ),
            Form::ElseIf(condition) => self.turn(alloc, Edge::ElseIf(place, condition)),
            Form::Else => self.turn(alloc, Edge::Else),
            Form::Select(value) => self.open(alloc, Opening::Select(place, value)),
            Form::Case(selector) => self.turn(alloc, Edge::Case(place, selector)),
            Form::Do(control) => self.open(alloc, Opening::Do(place, control)),
            Form::Associate(associations) => {
                self.open(alloc, Opening::Associate(place, associations))
            }
            Form::End(what, name) => self.end(alloc, what, name),
            _ => Err(out_of_place(form)),
        }
    }

    /// Whether a DO of this body is open.
    fn in_loop(&self) -> bool
        ensures { result ≡ in_loop (builder_view self.now).opens }
    {
        for construct in &self.constructs {
            match construct.opening {
                Opening::Do(_, _) => return true,
                _ => {}
            }
        }
        false
    }

    /// Whether a statement may stand here: not before the first CASE of a SELECT CASE.
    fn may_stand(&self) -> bool
        ensures { result ≡ may_stand (builder_view self.now).opens }
    {
        match self.constructs.last() {
            None => true,
            Some(construct) => match construct.opening {
                Opening::Select(_, _) => false,
                _ => true,
            },
        }
    }

    /// The statement behind those of the innermost block.
    fn push(&mut self, allowed: bool, statement: Statement) -> Result<(), StepError>
        ensures { Moves result (builder_view self.old) (builder_view self.new) (pushed allowed (statement_view statement) (builder_view self.old)) }
    {
        if !self.may_stand() || !allowed {
            drop(statement);
            return Err(StepError::OutOfPlace);
        }
        self.body.push(statement)?;
        Ok(())
    }

    fn act(&mut self, procedure: bool, place: Place, action: Action) -> Result<(), StepError>
        ensures { Moves result (builder_view self.old) (builder_view self.new) (pushed (may_act procedure (in_loop (builder_view self.old).opens) (action_view action)) (acts place (action_view action)) (builder_view self.old)) }
    {
        let allowed = may_act(procedure, self.in_loop(), &action);
        self.push(allowed, Statement::Action(place, action))
    }

    fn act_if(
        &mut self,
        procedure: bool,
        place: Place,
        condition: Expression,
        at: Place,
        action: Action,
    ) -> Result<(), StepError>
        ensures { Moves result (builder_view self.old) (builder_view self.new) (pushed (may_act procedure (in_loop (builder_view self.old).opens) (action_view action)) (acts_if place (expression_view condition) at (action_view action)) (builder_view self.old)) }
    {
        let allowed = may_act(procedure, self.in_loop(), &action);
        self.push(allowed, Statement::LogicalIf(place, condition, at, action))
    }

    /// The first statement of a construct.
    fn open(&mut self, alloc: Global, opening: Opening) -> Result<(), StepError>
        ensures { Moves result (builder_view self.old) (builder_view self.new) (opened (open_as opening (builder_view self.old).body) (builder_view self.old)) }
    {
        if !self.may_stand() {
            return Err(opening.out_of_place());
        }
        if self.constructs.len() >= BlockBuilder::DEEPEST {
            drop(opening);
            return Err(StepError::TooDeep);
        }
        let before = mem::replace(&mut self.body, Vec::new(alloc));
        self.constructs.push(OpenConstruct { opening, before })?;
        Ok(())
    }

    /// Takes out the innermost construct, with its block.
    fn pop(&mut self, alloc: Global) -> Option<(OpenConstruct, Vec<Statement>)>
        ensures { Pops result (builder_view self.old) (builder_view self.new) }
    {
        match self.constructs.pop() {
            None => None,
            Some(construct) => {
                let mut block = mem::replace(&mut self.body, Vec::new(alloc));
                block.shrink_to_fit();
                Some((construct, block))
            }
        }
    }

    /// The next block of a construct.
    fn turn(&mut self, alloc: Global, edge: Edge) -> Result<(), StepError>
        ensures { Moves result (builder_view self.old) (builder_view self.new) (turned edge (builder_view self.old).opens (builder_view self.old).body) }
    {
        match self.pop(alloc) {
            None => {
                drop(edge);
                Err(StepError::OutOfPlace)
            }
            Some((OpenConstruct { opening, before }, body)) => {
                let opening = opening.next(alloc, body, edge)?;
                self.constructs.push(OpenConstruct { opening, before })?;
                Ok(())
            }
        }
    }

    /// The END of a construct, which has no name.
    fn end(
        &mut self,
        alloc: Global,
        what: Option<Ended>,
        name: Option<Name>,
    ) -> Result<(), StepError>
        ensures { (procedure : Bool) (place : Place) → Moves result (builder_view self.old) (builder_view self.new) (step procedure (piece place (ends what name)) (builder_view self.old)) }
    {
        match name {
            Some(_) => Err(StepError::OutOfPlace),
            None => self.close(alloc, what),
        }
    }

    /// The END of the innermost construct.
    fn close(&mut self, alloc: Global, what: Option<Ended>) -> Result<(), StepError>
        ensures { Moves result (builder_view self.old) (builder_view self.new) (close what (builder_view self.old).opens (builder_view self.old).body) }
    {
        match self.pop(alloc) {
            None => Err(StepError::OutOfPlace),
            Some((OpenConstruct { opening, before }, body)) => {
                let statement = opening.end(alloc, body, what)?;
                self.body = before;
                self.body.push(statement)?;
                Ok(())
            }
        }
    }
}
