//! A specification part, as it grows statement by statement.

ghost use Rattle.std.specs.Prelude.{◌≡◌, ◌&&◌, if◌then◌else◌, Some, None, IsSome};
ghost use Rattle.std.specs.Option.{option_map};
ghost use Rattle.f3_tree.specs.Declarations.{use_view, access_view, declaration_view, type_view, specification_view, part_tree};
ghost use Rattle.f3_form.specs.Forms.{form_view};
ghost use Rattle.f3_parts.specs.Pieces.{piece};
ghost use Rattle.f3_parts.specs.Parts.{fits_label};
ghost use Rattle.f3_parts.specs.Machine.{is_nil, is_none, start, step, step_from, at_uses, with_use, with_implicit, with_specification, begun, is_private, with_private, with_component, with_contains, with_finals, open_in, closed, ended, in_type, outside, builder_view, Becomes};

use f3_blocks::error::{StepError, out_of_place};
use f3_form::form::{Ended, Form};
use f3_places::source::Place;
use f3_tree::declaration::{
    Access, Accessibility, Declaration, Specification, SpecificationPart, TypeDefinition, Use,
};
use f3_tree::expression::Name;
use std::alloc::Global;

/// A specification part so far.
#[derive(Drop)]
pub struct PartBuilder {
    pub part: SpecificationPart,
    /// The type definition that is open in it.
    pub open_type: Option<TypeDefinition>,
}

/// Whether an END may name this name, or none.
pub fn fits_label(written: Option<Name>, name: Name) -> bool
    ensures { result ≡ fits_label written name }
{
    match written {
        None => true,
        Some(label) => label.symbol == name.symbol,
    }
}

/// Whether nothing stands behind the USE statements yet.
fn at_uses(part: &SpecificationPart) -> bool
    ensures { result ≡ at_uses (part_tree part.now) }
{
    match part.implicit_none {
        Some(_) => false,
        None => part.specifications.is_empty(),
    }
}

fn with_use(part: &mut SpecificationPart, statement: Use) -> Result<(), StepError>
    ensures { Becomes result (part_tree part.new) (with_use (use_view statement) (part_tree part.old)) }
{
    if !at_uses(part) {
        return Err(StepError::OutOfPlace);
    }
    part.uses.push(statement)?;
    Ok(())
}

fn with_implicit(part: &mut SpecificationPart, place: Place) -> Result<(), StepError>
    ensures { Becomes result (part_tree part.new) (with_implicit place (part_tree part.old)) }
{
    if !at_uses(part) {
        return Err(StepError::OutOfPlace);
    }
    part.implicit_none = Some(place);
    Ok(())
}

fn with_specification(
    part: &mut SpecificationPart,
    statement: Specification,
) -> Result<(), StepError>
    ensures { Becomes result (part_tree part.new) (Some (with_specification (specification_view statement) (part_tree part.old))) }
{
    part.specifications.push(statement)?;
    Ok(())
}

/// A type definition behind its TYPE statement.
fn begun(
    alloc: Global,
    place: Place,
    access: Option<(Place, Accessibility)>,
    name: Name,
) -> TypeDefinition
    ensures { type_view result ≡ begun place access name }
{
    TypeDefinition {
        place,
        access,
        name,
        private: None,
        components: Vec::new(alloc),
        contains: None,
        finals: Vec::new(alloc),
    }
}

/// Whether it is PRIVATE without a list.
fn is_private(access: &Access) -> bool
    ensures { result ≡ (is_private (access_view access.now).accessibility && is_nil (access_view access.now).names) }
{
    match access.accessibility {
        Accessibility::Private => access.names.is_empty(),
        Accessibility::Public => false,
    }
}

/// Whether a type definition may go on with PRIVATE.
fn at_private(definition: &TypeDefinition) -> bool
    ensures { result ≡ (is_none (type_view definition.now).private && (is_nil (type_view definition.now).components && is_none (type_view definition.now).contains)) }
{
    match (definition.private, definition.contains) {
        (None, None) => definition.components.is_empty(),
        _ => false,
    }
}

fn with_private(definition: &mut TypeDefinition, access: Access) -> Result<(), StepError>
    ensures { Becomes result (type_view definition.new) (with_private (access_view access) (type_view definition.old)) }
{
    if !is_private(&access) {
        return Err(StepError::OutOfPlace);
    }
    if !at_private(definition) {
        return Err(StepError::OutOfPlace);
    }
    definition.private = Some(access.place);
    Ok(())
}

fn with_component(
    definition: &mut TypeDefinition,
    declaration: Declaration,
) -> Result<(), StepError>
    ensures { Becomes result (type_view definition.new) (with_component (declaration_view declaration) (type_view definition.old)) }
{
    match definition.contains {
        Some(_) => Err(StepError::OutOfPlace),
        None => {
            definition.components.push(declaration)?;
            Ok(())
        }
    }
}

fn with_contains(definition: &mut TypeDefinition, place: Place) -> Result<(), StepError>
    ensures { Becomes result (type_view definition.new) (with_contains place (type_view definition.old)) }
{
    match definition.contains {
        Some(_) => Err(StepError::OutOfPlace),
        None => {
            if definition.components.is_empty() {
                return Err(StepError::OutOfPlace);
            }
            definition.contains = Some(place);
            Ok(())
        }
    }
}

fn with_finals(definition: &mut TypeDefinition, names: Vec<Name>) -> Result<(), StepError>
    ensures { Becomes result (type_view definition.new) (with_finals names.items (type_view definition.old)) }
{
    match definition.contains {
        None => Err(StepError::OutOfPlace),
        Some(_) => {
            definition.finals.extend_from_slice(&names)?;
            Ok(())
        }
    }
}

impl PartBuilder {
    /// No statement yet.
    pub fn new(alloc: Global) -> Self
        ensures { builder_view result ≡ start }
    {
        PartBuilder {
            part: SpecificationPart {
                uses: Vec::new(alloc),
                implicit_none: None,
                specifications: Vec::new(alloc),
            },
            open_type: None,
        }
    }

    /// Goes on with a statement of the part of a module, or of another part. Answers `Memory` where a growth of the
    /// host's memory is refused, and `OutOfPlace` where no specification part goes on so (2.2, 4.5). Behind an error the
    /// builder is not to be used again: it may have lost statements.
    pub fn step(
        &mut self,
        alloc: Global,
        of_module: bool,
        place: Place,
        form: Form,
    ) -> Result<(), StepError>
        ensures { Becomes result (builder_view self.new) (step of_module (piece place (form_view form)) (builder_view self.old)) }
    {
        match self.open_type {
            None => self.outside(alloc, of_module, place, form),
            Some(_) => match self.open_type.take() {
                None => Err(out_of_place(form)),
                Some(definition) => self.in_type(definition, place, form),
            },
        }
    }

    /// Goes on with a statement in this type definition, which was taken out.
    fn in_type(
        &mut self,
        definition: TypeDefinition,
        place: Place,
        form: Form,
    ) -> Result<(), StepError>
        requires { self.old.open_type ≡ None }
        ensures { Becomes result (builder_view self.new) (in_type (piece place (form_view form)) (part_tree self.old.part) (type_view definition)) }
    {
        let mut definition = definition;
        match form {
            Form::Access(access) => {
                with_private(&mut definition, access)?;
                self.open(definition)
            }
            Form::Declare(declaration) => {
                with_component(&mut definition, declaration)?;
                self.open(definition)
            }
            Form::Contains => {
                with_contains(&mut definition, place)?;
                self.open(definition)
            }
            Form::Final(names) => {
                with_finals(&mut definition, names)?;
                self.open(definition)
            }
            Form::End(what, label) => match what {
                Some(Ended::Type) => self.end(label, definition),
                _ => Err(StepError::OutOfPlace),
            },
            _ => Err(out_of_place(form)),
        }
    }

    /// The type definition is open.
    fn open(&mut self, definition: TypeDefinition) -> Result<(), StepError>
        ensures { Becomes result (builder_view self.new) (Some (open_in (part_tree self.old.part) (type_view definition))) }
    {
        self.open_type = Some(definition);
        Ok(())
    }

    /// The END of this type definition, which was taken out.
    fn end(&mut self, label: Option<Name>, definition: TypeDefinition) -> Result<(), StepError>
        requires { self.old.open_type ≡ None }
        ensures { Becomes result (builder_view self.new) (ended (part_tree self.old.part) label (type_view definition)) }
    {
        if definition.components.is_empty() {
            return Err(StepError::OutOfPlace);
        }
        if !fits_label(label, definition.name) {
            return Err(StepError::OutOfPlace);
        }
        with_specification(&mut self.part, Specification::Type(definition))
    }

    /// Goes on with a statement outside of type definitions.
    fn outside(
        &mut self,
        alloc: Global,
        of_module: bool,
        place: Place,
        form: Form,
    ) -> Result<(), StepError>
        requires { self.old.open_type ≡ None }
        ensures { Becomes result (builder_view self.new) (outside of_module (piece place (form_view form)) (part_tree self.old.part)) }
    {
        match form {
            Form::Use(statement) => with_use(&mut self.part, statement),
            Form::ImplicitNone => with_implicit(&mut self.part, place),
            Form::Declare(declaration) => with_specification(
                &mut self.part,
                Specification::Declaration(declaration),
            ),
            Form::Access(access) => with_specification(
                &mut self.part,
                Specification::Access(access),
            ),
            Form::Protected(names) => with_specification(
                &mut self.part,
                Specification::Protected(place, names),
            ),
            Form::Save => {
                if !of_module {
                    return Err(StepError::OutOfPlace);
                }
                with_specification(&mut self.part, Specification::Save(place))
            }
            Form::Type(access, name) => {
                if !of_module {
                    return Err(StepError::OutOfPlace);
                }
                self.open(begun(alloc, place, access, name))
            }
            _ => Err(out_of_place(form)),
        }
    }
}
