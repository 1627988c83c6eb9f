//! The layouts of a program.

ghost use Rattle.std.specs.Prelude.{◌≡◌, List, [], IfOk, MatchOption};
ghost use Rattle.f3_meaning_whole.specs.Shape.{Shape, shape_in};
ghost use Rattle.f3_rooms.specs.Forms.{words_for, total};
ghost use Rattle.f3_type_words.specs.Tables.{AreTables};
ghost use Rattle.f3_room_frames.specs.States.{types_of, variables_of};
ghost use Rattle.f3_room_frames.specs.Sound.{CanStand};
ghost use Rattle.std.specs.Bool.{MatchBool};
ghost use Rattle.f3_program.specs.declared.declarations.Declared.{Declared};
ghost use Rattle.f3_rooms.specs.Flat as whole;
ghost use Rattle.f3_rooms.specs.Laws.{IsBare};
ghost use Rattle.f3_room_frames.specs.Bare.{TellBare};
ghost use Rattle.f3_room_frames.specs.FlatTypes.{TellFlat};
ghost use Rattle.f3_room_frames.specs.Initial.{HaveBareTypes};
ghost use Rattle.f3_room_frames.specs.Layouts.{IsLayout, HaveLayouts, AreLayouts, CanBeLaidOut};
ghost use Rattle.f3_room_frames.specs.LayoutProps.{layouts-prop, tables-prop, bare-prop, flat-prop, fits-prop};

use crate::bare::{bare_types, have_bare_types, is_bare};
use crate::flatness::{flat_types, is_flat};
use crate::laying::{lay_out_procedure, lay_out_statics};
use crate::layout::Layout;
use f3_program::declarations::Base;
use f3_program::program::{Procedure, Program};
use f3_type_words::table::TypeTable;
use f3_type_words::tabling::tables;
use f3_type_words::words::base_words;
use std::alloc::{AllocError, Global};

/// The tables of the types of a program, whether none of their components is initialized, whether none is allocatable, and where its variables
/// stand: those that live for the whole run, the main program's, and each procedure's, which has no layout where its variables cannot stand in
/// a block.
#[derive(Drop)]
pub struct Layouts<'a> {
    pub program: &'a Program,
    pub tables: Vec<TypeTable>,
    pub bare: Vec<bool>,
    pub flat: Vec<bool>,
    pub statics: Layout,
    pub main: Layout,
    pub procedures: Vec<Option<Layout>>,
    pub ghost typed: { AreTables (types_of program.now) tables.items } by { tables-prop _ _ },
    pub ghost told: { TellBare (types_of program.now) bare.items } by { bare-prop _ _ },
    pub ghost level: { TellFlat (types_of program.now) flat.items } by { flat-prop _ _ },
    pub ghost fits: { CanBeLaidOut program.now } by { fits-prop _ },
    pub ghost laid: { AreLayouts program.now statics main procedures.items } by { layouts-prop _ _ _ _ },
}

/// The layouts of procedures.
fn lay_out_all(
    alloc: Global,
    tables: &[TypeTable],
    procedures: &[Procedure],
) -> Result<Vec<Option<Layout>>, AllocError>
    ensures { IfOk result (λ r. (ts : List Shape) → AreTables ts tables.now → HaveLayouts ts procedures.now r.items) }
{
    let mut layouts = Vec::new(alloc);
    for procedure in procedures {
        layouts.push(lay_out_procedure(alloc, tables, procedure)?)?;
    }
    Ok(layouts)
}

impl<'a> Layouts<'a> {
    /// The layouts of a program: none where objects of some type have too many words, or where the main program's variables, or those
    /// that live for the whole run, cannot stand in a block.
    ///
    /// `AllocError` where the host has no memory for them.
    pub fn new(alloc: Global, program: &'a Program) -> Result<Option<Layouts<'a>>, AllocError>
        ensures { IfOk result (λ r. MatchOption r (CanBeLaidOut program.now → ⊥) (λ l. l.program.now ≡ program.now)) }
    {
        let Some(tables) = tables(alloc, &program.types)? else {
            return Ok(None);
        };
        let Some(statics) = lay_out_statics(alloc, &tables, &program.statics)? else {
            return Ok(None);
        };
        let Some(main) = lay_out_procedure(alloc, &tables, &program.main)? else {
            return Ok(None);
        };
        let procedures = lay_out_all(alloc, &tables, &program.procedures)?;
        let bare = bare_types(alloc, &program.types)?;
        let flat = flat_types(alloc, &program.types)?;
        Ok(Some(Layouts {
            program,
            tables,
            bare,
            flat,
            statics,
            main,
            procedures,
        }))
    }

    /// The layout of the variables of an activation of a procedure, by its number, or of the main program: none where they cannot
    /// stand in a block, or are none.
    #[inline(always)]
    pub fn of(&self, procedure: Option<usize>) -> Option<&Layout>
        ensures { MatchOption result (CanStand (types_of self.now.program.now) (variables_of self.now.program.now procedure) → variables_of self.now.program.now procedure ≡ [])
            (λ l. IsLayout (types_of self.now.program.now) (variables_of self.now.program.now procedure) l.now) }
    {
        let Some(number) = procedure else {
            return Some(&self.main);
        };
        if number >= self.procedures.len() {
            return None;
        }
        match &self.procedures[number] {
            Some(layout) => Some(layout),
            None => None,
        }
    }

    /// How many words the variables of an activation have together.
    #[inline(always)]
    pub fn words(&self, procedure: Option<usize>) -> usize
        requires { CanStand (types_of self.now.program.now) (variables_of self.now.program.now procedure) }
        ensures { result ≡ total (types_of self.now.program.now) (variables_of self.now.program.now procedure) }
    {
        match self.of(procedure) {
            Some(layout) => layout.words,
            None => 0,
        }
    }

    /// How many words an object of a type has (ISO/IEC 1539-1:2004, 4.5.1).
    pub fn width(&self, of: Base) -> usize
        ensures { result ≡ words_for (shape_in (types_of self.now.program.now) of) }
    {
        base_words(&self.tables, of)
    }

    /// Whether no component of a type is initialized, at any depth (4.5.3.4).
    pub fn is_bare(&self, of: Base) -> bool
        ensures { MatchBool result (IsBare (shape_in (types_of self.now.program.now) of)) (IsBare (shape_in (types_of self.now.program.now) of) → ⊥) }
    {
        is_bare(&self.bare, of)
    }

    /// Whether no component of a type is allocatable, at any depth (6.3.1).
    pub fn is_flat(&self, of: Base) -> bool
        ensures { result ≡ whole.is_flat (shape_in (types_of self.now.program.now) of) }
    {
        is_flat(&self.flat, of)
    }

    /// Whether no component is initialized of the types of all variables of a layout.
    pub fn have_bare_types(&self, layout: &Layout) -> bool
        ensures { (ds : List Declared) → IsLayout (types_of self.now.program.now) ds layout.now
            → MatchBool result (HaveBareTypes (types_of self.now.program.now) ds) (HaveBareTypes (types_of self.now.program.now) ds → ⊥) }
    {
        have_bare_types(&self.bare, layout)
    }
}
