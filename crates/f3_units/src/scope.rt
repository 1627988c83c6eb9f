//! A specification part and the executable statements behind it.

ghost use Rattle.std.specs.Prelude.{◌≡◌};
ghost use Rattle.f3_form.specs.Forms.{form_view};
ghost use Rattle.f3_units.specs.Roles.{role, end_role, Tells};
ghost use Rattle.f3_units.specs.Machine.{fresh, is_untouched, is_over, to_part, to_block, in_scope, scope_view, scope_depth, Becomes};

use f3_blocks::builder::BlockBuilder;
use f3_blocks::error::{StepError, out_of_place};
use f3_form::form::{Ended, Form};
use f3_parts::builder::PartBuilder;
use f3_places::source::Place;
use f3_tree::expression::Name;
use f3_tree::program::UnitKind;
use std::alloc::Global;

/// The specification part and the executable statements so far.
#[derive(Drop)]
pub struct Scope {
    pub part: PartBuilder,
    pub block: BlockBuilder,
}

/// What a statement is among units and procedures.
#[derive(Clone, Copy)]
pub enum Role {
    /// MODULE or PROGRAM.
    Begins(UnitKind, Name),
    Contains,
    /// SUBROUTINE or FUNCTION.
    Heads,
    /// END of a unit or of a procedure.
    Ends(Option<Ended>, Option<Name>),
    /// A statement of a specification part.
    Specifies,
    /// A statement of a block.
    Executes,
}

/// What an END is.
fn end_role(what: Option<Ended>, name: Option<Name>) -> Role
    ensures { Tells result (end_role what name) }
{
    match what {
        Some(Ended::Type) => Role::Specifies,
        Some(Ended::If) => Role::Executes,
        Some(Ended::Select) => Role::Executes,
        Some(Ended::Do) => Role::Executes,
        Some(Ended::Associate) => Role::Executes,
        _ => Role::Ends(what, name),
    }
}

/// What a statement of this form is.
pub fn role_of(form: &Form) -> Role
    ensures { Tells result (role (form_view form.now)) }
{
    match form {
        Form::Unit(kind, name) => Role::Begins(*kind, *name),
        Form::Contains => Role::Contains,
        Form::Procedure(_) => Role::Heads,
        Form::End(what, name) => end_role(*what, *name),
        Form::Use(_) => Role::Specifies,
        Form::ImplicitNone => Role::Specifies,
        Form::Access(_) => Role::Specifies,
        Form::Protected(_) => Role::Specifies,
        Form::Save => Role::Specifies,
        Form::Declare(_) => Role::Specifies,
        Form::Type(_, _) => Role::Specifies,
        Form::Final(_) => Role::Specifies,
        _ => Role::Executes,
    }
}

impl Scope {
    /// No statement yet.
    pub fn new(alloc: Global) -> Self
        ensures { scope_view result ≡ fresh }
    {
        Scope {
            part: PartBuilder::new(alloc),
            block: BlockBuilder::new(alloc),
        }
    }

    /// Whether no executable statement stands here yet.
    fn is_untouched(&self) -> bool
        ensures { result ≡ is_untouched (scope_view self.now).block }
    {
        if !self.block.constructs.is_empty() {
            return false;
        }
        self.block.body.is_empty()
    }

    /// Whether no type definition and no construct is open.
    pub fn is_over(&self) -> bool
        ensures { result ≡ is_over (scope_view self.now) }
    {
        match self.part.open_type {
            Some(_) => false,
            None => self.block.constructs.is_empty(),
        }
    }

    /// Goes on with a statement of the specification part. Answers `Memory` where a growth of the host's memory is
    /// refused, and `OutOfPlace` where the part does not go on so.
    pub fn specify(
        &mut self,
        alloc: Global,
        of_module: bool,
        place: Place,
        form: Form,
    ) -> Result<(), StepError>
        ensures { Becomes scope_depth result (scope_view self.old) (scope_view self.new) (to_part of_module (record { place = place; form = form_view form }) (scope_view self.old)) }
    {
        if !self.is_untouched() {
            return Err(out_of_place(form));
        }
        self.part.step(alloc, of_module, place, form)
    }

    /// Goes on with a statement of a block. Answers `Memory` where a growth of the host's memory is refused,
    /// `OutOfPlace` where the block does not go on so, and `TooDeep` where the statement opens a 65th construct.
    fn execute(
        &mut self,
        alloc: Global,
        procedure: bool,
        place: Place,
        form: Form,
    ) -> Result<(), StepError>
        ensures { Becomes scope_depth result (scope_view self.old) (scope_view self.new) (to_block procedure (record { place = place; form = form_view form }) (scope_view self.old)) }
    {
        match self.part.open_type {
            Some(_) => Err(out_of_place(form)),
            None => self.block.step(alloc, procedure, place, form),
        }
    }

    /// Goes on with a statement in a procedure or in a program. Answers `Memory` where a growth of the host's memory is
    /// refused, `OutOfPlace` where it does not go on so, and `TooDeep` where the statement opens a 65th construct.
    pub fn step(
        &mut self,
        alloc: Global,
        procedure: bool,
        place: Place,
        form: Form,
    ) -> Result<(), StepError>
        ensures { Becomes scope_depth result (scope_view self.old) (scope_view self.new) (in_scope procedure (role (form_view form)) (record { place = place; form = form_view form }) (scope_view self.old)) }
    {
        match role_of(&form) {
            Role::Specifies => self.specify(alloc, false, place, form),
            Role::Contains => self.specify(alloc, false, place, form),
            Role::Executes => self.execute(alloc, procedure, place, form),
            _ => Err(out_of_place(form)),
        }
    }
}
