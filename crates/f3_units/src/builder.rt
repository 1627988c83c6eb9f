//! Program units, as they grow statement by statement.

ghost use Rattle.std.specs.Prelude.{◌≡◌, true, Some, None, map};
ghost use Rattle.std.specs.Option.{option_map};
ghost use Rattle.f3_tree.specs.Tree.{procedure_view, unit_view};
ghost use Rattle.f3_tree.specs.declared.program.UnitKind.TheVariants.{Module};
ghost use Rattle.f3_form.specs.Forms.{form_view};
ghost use Rattle.f3_blocks.specs.Pieces.{Placed};
ghost use Rattle.f3_units.specs.Roles.{role, ends, IsEnd};
ghost use Rattle.f3_units.specs.Units.{fits_unit, fits_procedure};
ghost use Rattle.f3_units.specs.Machine.{State, start, step, begun, between_procedures, in_own, in_unit, in_scope, with_procedure, with_closed, procedure_closed, unit_closed, busy, still, ended, inside, between_units, opened_view, begun_view, builder_view, begun_depth, Becomes, Steps};

use crate::scope::{Role, Scope, role_of};
use f3_blocks::error::{StepError, out_of_place};
use f3_form::form::{Ended, Form};
use f3_parts::builder::fits_label;
use f3_places::source::Place;
use f3_tree::expression::Name;
use f3_tree::program::{Header, Procedure, ProcedureKind, Unit, UnitKind};
use std::alloc::Global;

/// A procedure whose END was not read yet.
#[derive(Drop)]
pub struct OpenProcedure {
    pub header: Header,
    pub scope: Scope,
}

/// A unit whose END was not read yet.
#[derive(Drop)]
pub struct OpenUnit {
    /// The source in which it stands, by its number.
    pub file: usize,
    /// Its first token.
    pub place: Place,
    pub kind: UnitKind,
    pub name: Name,
    /// Its own specification part and executable statements.
    pub scope: Scope,
    /// Its CONTAINS statement, once read.
    pub contains: Option<Place>,
    /// The procedures whose END was read.
    pub procedures: Vec<Procedure>,
    /// The procedure that is open.
    pub procedure: Option<OpenProcedure>,
}

/// The units that were read, and the one that is open.
#[derive(Drop)]
pub struct Builder {
    pub units: Vec<Unit>,
    pub unit: Option<OpenUnit>,
}

/// Whether an END may name this kind of unit, or none.
fn fits_unit(written: Option<Ended>, kind: UnitKind) -> bool
    ensures { result ≡ fits_unit written kind }
{
    match written {
        None => true,
        Some(Ended::Module) => kind == UnitKind::Module,
        Some(Ended::Program) => kind == UnitKind::Program,
        _ => false,
    }
}

/// Whether an END may name this kind of procedure, or none.
fn fits_procedure(written: Option<Ended>, kind: ProcedureKind) -> bool
    ensures { result ≡ fits_procedure written kind }
{
    match written {
        None => true,
        Some(Ended::Subroutine) => match kind {
            ProcedureKind::Subroutine => true,
            ProcedureKind::Function(_, _) => false,
        },
        Some(Ended::Function) => match kind {
            ProcedureKind::Subroutine => false,
            ProcedureKind::Function(_, _) => true,
        },
        _ => false,
    }
}

/// The procedure, closed by an END at this place; none where that is out of place.
fn procedure_closed(
    open_procedure: OpenProcedure,
    place: Place,
    what: Option<Ended>,
    label: Option<Name>,
) -> Option<Procedure>
    ensures { option_map procedure_view result ≡ procedure_closed place what label (opened_view open_procedure) }
{
    if !open_procedure.scope.is_over()
        || !fits_procedure(what, open_procedure.header.kind)
        || !fits_label(label, open_procedure.header.name)
    {
        drop(open_procedure);
        return None;
    }
    let OpenProcedure { header, scope } = open_procedure;
    let Scope { part, block } = scope;
    Some(Procedure {
        header,
        part: part.part,
        body: block.body,
        end: place,
    })
}

/// The unit, closed by an END at this place; none where that is out of place.
fn unit_closed(
    unit: OpenUnit,
    place: Place,
    what: Option<Ended>,
    label: Option<Name>,
) -> Option<Unit>
    ensures { option_map unit_view result ≡ unit_closed place what label (begun_view unit) }
{
    if !unit.scope.is_over() || !fits_unit(what, unit.kind) || !fits_label(label, unit.name) {
        drop(unit);
        return None;
    }
    let Scope { part, block } = unit.scope;
    Some(Unit {
        place: unit.place,
        kind: unit.kind,
        name: unit.name,
        part: part.part,
        body: block.body,
        contains: unit.contains,
        procedures: unit.procedures,
        end: place,
    })
}

impl OpenUnit {
    /// A unit behind its first statement.
    fn begun(alloc: Global, place: Place, kind: UnitKind, name: Name) -> Self
        ensures { begun_view result ≡ begun place kind name }
    {
        OpenUnit {
            file: place.file,
            place,
            kind,
            name,
            scope: Scope::new(alloc),
            contains: None,
            procedures: Vec::new(alloc),
            procedure: None,
        }
    }

    /// Goes on before CONTAINS in a module.
    fn in_module(&mut self, alloc: Global, place: Place, form: Form) -> Result<(), StepError>
        requires contains { self.old.contains ≡ None }
        requires procedure { self.old.procedure ≡ None }
        ensures { Becomes begun_depth result (begun_view self.old) (begun_view self.new) (in_own Module (role (form_view form)) (record { place = place; form = form_view form }) (begun_view self.old)) }
    {
        match role_of(&form) {
            Role::Specifies => self.scope.specify(alloc, true, place, form),
            Role::Contains => {
                if self.scope.is_over() {
                    drop(form);
                    self.contains = Some(place);
                    Ok(())
                } else {
                    self.scope.specify(alloc, true, place, form)
                }
            }
            _ => Err(out_of_place(form)),
        }
    }

    /// Goes on before CONTAINS.
    fn before_contains(&mut self, alloc: Global, place: Place, form: Form) -> Result<(), StepError>
        requires contains { self.old.contains ≡ None }
        requires procedure { self.old.procedure ≡ None }
        ensures { Becomes begun_depth result (begun_view self.old) (begun_view self.new) (in_own self.old.kind (role (form_view form)) (record { place = place; form = form_view form }) (begun_view self.old)) }
    {
        match self.kind {
            UnitKind::Program => self.scope.step(alloc, false, place, form),
            UnitKind::Module => self.in_module(alloc, place, form),
        }
    }

    /// Goes on between procedures.
    fn between_procedures(&mut self, alloc: Global, form: Form) -> Result<(), StepError>
        ensures { (place : Place) → self.old.contains ≡ Some place → Becomes begun_depth result (begun_view self.old) (begun_view self.new) (between_procedures (role (form_view form)) (begun_view self.old)) }
    {
        match form {
            Form::Procedure(header) => {
                drop(
                    self.procedure.replace(OpenProcedure {
                        header,
                        scope: Scope::new(alloc),
                    }),
                );
                Ok(())
            }
            _ => Err(out_of_place(form)),
        }
    }

    /// Goes on in the open procedure.
    fn in_procedure(&mut self, alloc: Global, place: Place, form: Form) -> Result<(), StepError>
        ensures { (at : Place) (o : OpenProcedure) → self.old.contains ≡ Some at → self.old.procedure ≡ Some o
            → Becomes begun_depth result (begun_view self.old) (begun_view self.new) (option_map (with_procedure (begun_view self.old) (opened_view o).header) (in_scope true (role (form_view form)) (record { place = place; form = form_view form }) (opened_view o).scope)) }
    {
        match &mut self.procedure {
            Some(open) => open.scope.step(alloc, true, place, form),
            None => Err(out_of_place(form)),
        }
    }

    /// Goes on with a statement that ends neither the unit nor a procedure.
    fn step(&mut self, alloc: Global, place: Place, form: Form) -> Result<(), StepError>
        ensures { (IsEnd (role (form_view form)) → ⊥) → Becomes begun_depth result (begun_view self.old) (begun_view self.new) (in_unit (begun_view self.old).contains (begun_view self.old).procedure (role (form_view form)) (record { place = place; form = form_view form }) (begun_view self.old)) }
    {
        match self.procedure {
            None => match self.contains {
                None => self.before_contains(alloc, place, form),
                Some(_) => self.between_procedures(alloc, form),
            },
            Some(_) => match self.contains {
                None => Err(out_of_place(form)),
                Some(_) => self.in_procedure(alloc, place, form),
            },
        }
    }

    /// Ends the open procedure.
    fn end_procedure(
        &mut self,
        place: Place,
        what: Option<Ended>,
        label: Option<Name>,
    ) -> Result<(), StepError>
        ensures { (at : Place) (o : OpenProcedure) → self.old.contains ≡ Some at → self.old.procedure ≡ Some o
            → Becomes begun_depth result (begun_view self.old) (begun_view self.new) (option_map (with_closed (begun_view self.old)) (procedure_closed place what label (opened_view o))) }
    {
        match self.procedure.take() {
            None => Err(StepError::OutOfPlace),
            Some(open) => match procedure_closed(open, place, what, label) {
                None => Err(StepError::OutOfPlace),
                Some(procedure) => {
                    self.procedures.push(procedure)?;
                    Ok(())
                }
            },
        }
    }
}

impl Builder {
    /// No unit yet.
    pub fn new(alloc: Global) -> Self
        ensures { builder_view result ≡ start }
    {
        Builder {
            units: Vec::new(alloc),
            unit: None,
        }
    }

    /// Goes on with a statement, from its place. Answers `Memory` where a growth of the host's memory is refused,
    /// `OutOfPlace` where no list of units goes on so (2.2, 11.1), and `TooDeep` where it opens a 65th construct in a
    /// procedure or in a program (own rule). Behind an error the builder is not to be used again: it may have lost
    /// statements.
    pub fn step(&mut self, alloc: Global, place: Place, form: Form) -> Result<(), StepError>
        ensures { Steps result (builder_view self.old) (builder_view self.new) (step (record { place = place; form = form_view form }) (builder_view self.old)) }
    {
        match &self.unit {
            None => self.begin(alloc, place, form),
            Some(unit) => {
                if unit.file == place.file {
                    self.inside(alloc, place, form)
                } else {
                    Err(out_of_place(form))
                }
            }
        }
    }

    /// Goes on between units.
    fn begin(&mut self, alloc: Global, place: Place, form: Form) -> Result<(), StepError>
        requires { self.old.unit ≡ None }
        ensures { Steps result (builder_view self.old) (builder_view self.new) (between_units (role (form_view form)) (record { place = place; form = form_view form }) (map unit_view self.old.units.items)) }
    {
        match role_of(&form) {
            Role::Begins(kind, name) => {
                drop(form);
                drop(self.unit.replace(OpenUnit::begun(alloc, place, kind, name)));
                Ok(())
            }
            _ => Err(out_of_place(form)),
        }
    }

    /// Goes on in the open unit.
    fn inside(&mut self, alloc: Global, place: Place, form: Form) -> Result<(), StepError>
        ensures { (u : OpenUnit) → self.old.unit ≡ Some u
            → Steps result (builder_view self.old) (builder_view self.new) (inside (begun_view u).procedure (role (form_view form)) (record { place = place; form = form_view form }) (map unit_view self.old.units.items) (begun_view u)) }
    {
        match role_of(&form) {
            Role::Ends(what, label) => {
                drop(form);
                self.end(place, what, label)
            }
            _ => self.go_on(alloc, place, form),
        }
    }

    /// Goes on in the open unit with a statement that ends neither it nor a procedure.
    fn go_on(&mut self, alloc: Global, place: Place, form: Form) -> Result<(), StepError>
        ensures { (u : OpenUnit) → self.old.unit ≡ Some u → (IsEnd (role (form_view form)) → ⊥)
            → Steps result (builder_view self.old) (builder_view self.new) (still (map unit_view self.old.units.items) (in_unit (begun_view u).contains (begun_view u).procedure (role (form_view form)) (record { place = place; form = form_view form }) (begun_view u))) }
    {
        match &mut self.unit {
            Some(unit) => unit.step(alloc, place, form),
            None => Err(out_of_place(form)),
        }
    }

    /// Ends the open procedure, or else the open unit.
    fn end(
        &mut self,
        place: Place,
        what: Option<Ended>,
        label: Option<Name>,
    ) -> Result<(), StepError>
        ensures { (u : OpenUnit) (p : Placed) → self.old.unit ≡ Some u → p.place ≡ place
            → Steps result (builder_view self.old) (builder_view self.new) (inside (begun_view u).procedure (ends what label) p (map unit_view self.old.units.items) (begun_view u)) }
    {
        match self.unit.take() {
            None => Err(StepError::OutOfPlace),
            Some(unit) => match unit.procedure {
                None => self.close(unit, place, what, label),
                Some(_) => match unit.contains {
                    None => {
                        drop(unit);
                        Err(StepError::OutOfPlace)
                    }
                    Some(_) => self.end_procedure(unit, place, what, label),
                },
            },
        }
    }

    /// Ends the open procedure of this unit, which was taken out.
    fn end_procedure(
        &mut self,
        unit: OpenUnit,
        place: Place,
        what: Option<Ended>,
        label: Option<Name>,
    ) -> Result<(), StepError>
        ensures { (at : Place) (o : OpenProcedure) → unit.contains ≡ Some at → unit.procedure ≡ Some o
            → Steps result (busy (map unit_view self.old.units.items) (begun_view unit)) (builder_view self.new) (still (map unit_view self.old.units.items) (option_map (with_closed (begun_view unit)) (procedure_closed place what label (opened_view o)))) }
    {
        let mut unit = unit;
        let ended = unit.end_procedure(place, what, label);
        drop(self.unit.replace(unit));
        ended
    }

    /// Ends this unit, which was taken out.
    fn close(
        &mut self,
        unit: OpenUnit,
        place: Place,
        what: Option<Ended>,
        label: Option<Name>,
    ) -> Result<(), StepError>
        requires { self.old.unit ≡ None }
        ensures { (s : State) → Steps result s (builder_view self.new) (ended (map unit_view self.old.units.items) (unit_closed place what label (begun_view unit))) }
    {
        match unit_closed(unit, place, what, label) {
            None => Err(StepError::OutOfPlace),
            Some(unit) => {
                self.units.push(unit)?;
                Ok(())
            }
        }
    }
}
