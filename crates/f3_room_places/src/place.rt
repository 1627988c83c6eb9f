//! Places of parts of variables.

ghost use Rattle.std.specs.Prelude.{◌≡◌, []};
ghost use Rattle.f3_live_blocks.specs.Blocks.{Live};
ghost use Rattle.f3_rooms.specs.Forms.{Laid, form_of};
ghost use Rattle.f3_room_places.specs.Places.{IsFormed, without_bounds};

use crate::types::Types;
use f3_heap::BlockId;
use f3_program::declarations::{Base, Declared, Dimension};

/// The bounds of an array: those that are declared, or those that words of a block tell from one on, of each dimension its lower bound
/// and its extent.
#[derive(Clone, Copy)]
pub enum Bounds<'a> {
    Declared(&'a [Dimension]),
    Told(BlockId, usize),
}

/// One object, or, of a rank of 1 and more, an array; or an allocatable of a rank.
#[derive(Clone, Copy)]
pub enum Form<'a> {
    Laid(usize, Bounds<'a>),
    Allocatable(usize),
}

/// Where a part of a variable stands: from a word of a block on. Its type is among these types.
#[derive(Clone, Copy)]
pub struct Place<'a> {
    pub block: BlockId,
    pub at: usize,
    pub types: Types<'a>,
    pub of: Base,
    pub form: Form<'a>,
}

/// How what is declared so is laid out.
pub(crate) fn form_of(declared: &Declared) -> Form<'_>
    ensures { (m : Live) → IsFormed m result (without_bounds (form_of declared.now)) }
{
    if declared.kind.is_allocatable {
        return Form::Allocatable(declared.kind.rank);
    }
    Form::Laid(declared.kind.rank, Bounds::Declared(&declared.dimensions))
}

/// One object.
pub(crate) fn one_object<'a>() -> Form<'a>
    ensures { (m : Live) → IsFormed m result (Laid 0 []) }
{
    Form::Laid(0, Bounds::Declared(&[]))
}

/// The same bounds.
fn same_bounds<'a>(bounds: &Bounds<'a>) -> Bounds<'a>
    ensures { result ≡ bounds.now }
{
    match *bounds {
        Bounds::Declared(dimensions) => Bounds::Declared(dimensions),
        Bounds::Told(block, at) => Bounds::Told(block, at),
    }
}

/// The same form.
fn same_form<'a>(form: &Form<'a>) -> Form<'a>
    ensures { result ≡ form.now }
{
    match form {
        Form::Laid(rank, bounds) => Form::Laid(*rank, same_bounds(bounds)),
        Form::Allocatable(rank) => Form::Allocatable(*rank),
    }
}

/// The same place.
pub(crate) fn same_place<'a>(place: &Place<'a>) -> Place<'a>
    ensures { result ≡ place.now }
{
    Place {
        block: place.block,
        at: place.at,
        types: place.types,
        of: place.of,
        form: same_form(&place.form),
    }
}
