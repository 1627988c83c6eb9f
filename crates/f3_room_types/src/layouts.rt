//! The layouts of the types of a program.

ghost use Rattle.std.specs.Prelude.{◌≡◌, ◌<◌, ℕ, List, IsTrue, IfOk, IfSome, MatchOption, All, nat_lt};
ghost use Rattle.std.specs.List.{list_all};
ghost use Rattle.f3_desc.specs.Layout.{piece_count, shape_in as layout_in};
ghost use Rattle.f3_desc.specs.Shape as desc;
ghost use Rattle.f3_meaning_whole.specs.Shape.{Shape, Record, parts_in, shape_in, shapes_of};
ghost use Rattle.f3_room_objects.specs.Trees.{layout_for};
ghost use Rattle.f3_room_types.specs.Pieces.{AddsPart, AddsType, AreNumbered, HasLayout, HasParts, IsAt, layouts_of};

use crate::pieces::Pieces;
use f3_desc::Layout;
use f3_program::declarations::{Base, Component, Declared, Derived};
use f3_type_words::words::elements;
use std::alloc::{AllocError, Global};

/// The most dimensions of an array (ISO/IEC 1539-1:2004, 5.1.2.5).
const MOST_DIMENSIONS: usize = 7;

/// Pieces of which the objects of the types of a program are made, and which of them each type is.
#[derive(Drop)]
pub struct Layouts {
    pub layout: Layout,
    /// The number of the piece of each type.
    pub numbers: Vec<usize>,
    ghost some: { 0 < piece_count layout },
    ghost within: { IsTrue (list_all (λ k. nat_lt k (piece_count layout)) numbers.items) },
}

/// The number of the piece of a type, by those of the derived types: a scalar is the first.
fn number_of(numbers: &[usize], of: Base) -> usize
    ensures at { (ls : List desc.Shape) (ts : List Shape) → AreNumbered ls ts numbers.now → IsAt ls (layout_for (shape_in ts of)) result }
    ensures within { (n : ℕ) → 0 < n → IsTrue (list_all (λ k. nat_lt k n) numbers.now) → result < n }
{
    match of {
        Base::Integer | Base::Long | Base::Logical => 0,
        Base::Derived(number) => {
            if number >= numbers.len() {
                return 0;
            }
            numbers[number]
        }
    }
}

/// The number of the piece of a component, which may be a new one: none where it cannot be a piece.
fn part(
    pieces: &mut Pieces,
    numbers: &[usize],
    declared: &Declared,
) -> Result<Option<usize>, AllocError>
    requires { (ts : List Shape) × AreNumbered (layouts_of pieces.old.pieces.items) ts numbers.now }
    ensures { IfOk result (λ r. (ts : List Shape) → AreNumbered (layouts_of pieces.old.pieces.items) ts numbers.now
        → AddsPart ts declared.now pieces.old.pieces.items pieces.new.pieces.items r) }
{
    let of = number_of(numbers, declared.kind.of);
    if declared.kind.is_allocatable {
        if declared.kind.rank > MOST_DIMENSIONS {
            return Ok(None);
        }
        return Ok(Some(pieces.allocatable(declared.kind.rank, of)?));
    }
    if declared.kind.rank == 0 {
        return Ok(Some(of));
    }
    match elements(&declared.dimensions) {
        Some(count) => pieces.array(count as usize, of),
        None => Ok(None),
    }
}

/// The numbers of the pieces of components: none where one cannot be a piece, or has too many words.
fn parts(
    alloc: Global,
    pieces: &mut Pieces,
    numbers: &[usize],
    components: &[Component],
) -> Result<Option<Vec<usize>>, AllocError>
    requires { (ts : List Shape) × AreNumbered (layouts_of pieces.old.pieces.items) ts numbers.now }
    ensures { IfOk result (λ r. (ts : List Shape) (t : ℕ) → AreNumbered (layouts_of pieces.old.pieces.items) ts numbers.now
        → MatchOption r (¬ (HasLayout (Record t (parts_in ts components.now)))) (λ ks. HasParts pieces.old.pieces.items pieces.new.pieces.items (parts_in ts components.now) ks.items)) }
{
    let mut parts = Vec::new(alloc);
    for component in components {
        match part(pieces, numbers, &component.declared)? {
            Some(number) => parts.push(number)?,
            None => return Ok(None),
        }
    }
    Ok(Some(parts))
}

/// The number of the piece of a type with these components, by those of the types before it: none where it has no layout.
fn whole(
    alloc: Global,
    pieces: &mut Pieces,
    numbers: &[usize],
    components: &[Component],
) -> Result<Option<usize>, AllocError>
    requires { (ts : List Shape) × AreNumbered (layouts_of pieces.old.pieces.items) ts numbers.now }
    ensures { IfOk result (λ r. (ts : List Shape) (t : ℕ) → AreNumbered (layouts_of pieces.old.pieces.items) ts numbers.now
        → AddsType (Record t (parts_in ts components.now)) pieces.old.pieces.items pieces.new.pieces.items r) }
{
    match parts(alloc, pieces, numbers, components)? {
        Some(parts) => pieces.record(parts),
        None => Ok(None),
    }
}

impl Layouts {
    ghost use Rattle.f3_room_types.specs.Layouts.{AreLayouts};

    /// The layouts of the types of a program: none exactly where one of them has none.
    ///
    /// `AllocError` where the host has no memory for them.
    pub fn new(alloc: Global, types: &[Derived]) -> Result<Option<Layouts>, AllocError>
        ensures layouts { IfOk result (λ r. MatchOption r (¬ (All HasLayout (shapes_of types.now))) (AreLayouts (shapes_of types.now))) }
        ensures all { IfOk result (λ r. IfSome r (λ l. All HasLayout (shapes_of types.now))) }
    {
        let mut pieces = Pieces::new(alloc)?;
        let mut numbers = Vec::new(alloc);
        for one in types {
            match whole(alloc, &mut pieces, &numbers, &one.components)? {
                Some(number) => numbers.push(number)?,
                None => return Ok(None),
            }
        }
        let layout = pieces.layout(alloc)?;
        Ok(Some(Layouts { layout, numbers }))
    }

    /// The number of the piece of a type: of a scalar, a word.
    pub fn piece_of(&self, of: Base) -> usize
        ensures within { result < piece_count self.now.layout }
        ensures shape { (ts : List Shape) → AreLayouts ts self.now → layout_in self.now.layout result ≡ layout_for (shape_in ts of) }
    {
        number_of(&self.numbers, of)
    }
}
