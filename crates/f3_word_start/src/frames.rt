//! How the variables of a program stand in blocks.

ghost use Rattle.std.specs.Prelude.{◌≡◌, ◌<◌, ◌^◌, List, [], IfOk, MatchOption, All, map};
ghost use Rattle.f3_program.specs.declared.program.Procedure as q;
ghost use Rattle.f3_program.specs.declared.program.Static as y;
ghost use Rattle.f3_meaning_whole.specs.Shape.{Shape};
ghost use Rattle.f3_meaning_whole.specs.Exec.{declared_in};
ghost use Rattle.f3_gen_values.specs.Emission.{code_in};
ghost use Rattle.f3_room_places.specs.Places.{HasTables, shapes};
ghost use Rattle.f3_word_cells.specs.Scenes.{IsFrame, IsScene, code_of};
ghost use Rattle.f3_word_start.specs.Frames.{CanStand, Added, HasFrame, HaveFrames, CanBeFramed, AreFrames};

use f3_gen_values::emission::Emission;
use f3_program::declarations::Declared;
use f3_program::program::{Procedure, Program, Static};
use f3_room_levels::can_begin;
use f3_room_places::types::Types;
use f3_type_words::table::TypeTable;
use f3_type_words::tabling::tables;
use f3_type_words::words::words_of;
use f3_word_cells::scene::{Frame, Scene};
use std::alloc::{AllocError, Global};
use std::slice;

/// The words of the variables of an activation are fewer (own rule).
const WORDS: usize = 0x4000_0000_0000_0000;

/// The tables of the types of a program, and how its variables stand in blocks: those that live for the whole run, those of the main
/// program, and those of each procedure.
#[derive(Drop)]
pub struct Frames {
    pub tables: Vec<TypeTable>,
    pub statics: Frame,
    pub main: Frame,
    pub procedures: Vec<Frame>,
}

/// Of no variables.
fn empty(alloc: Global) -> Frame
    ensures { (ts : List Shape) → IsFrame ts [] result }
{
    Frame {
        starts: Vec::new(alloc),
        words: 0,
    }
}

/// One variable more stands behind others: `false` where it cannot begin with its values, or there are too many words.
fn add(frame: &mut Frame, types: Types<'_>, declared: &Declared) -> Result<bool, AllocError>
    requires tables { HasTables types }
    requires small { frame.old.words < 2 ^ 62 }
    ensures { IfOk result (Added (shapes types.entry) frame.old declared.now frame.new) }
{
    if !can_begin(types, slice::from_ref(declared)) {
        return Ok(false);
    }
    match words_of(types.tables, declared) {
        Some(words) if words < (WORDS - frame.words) as u64 => {
            frame.starts.push(frame.words)?;
            frame.words += words as usize;
            Ok(true)
        }
        _ => Ok(false),
    }
}

/// How variables stand: none where they cannot stand in a block.
fn frame_of(
    alloc: Global,
    types: Types<'_>,
    declared: &[Declared],
) -> Result<Option<Frame>, AllocError>
    requires tables { HasTables types }
    ensures { IfOk result (HasFrame (shapes types.entry) declared.now) }
{
    let mut frame = empty(alloc);
    for one in declared {
        if !add(&mut frame, types, one)? {
            return Ok(None);
        }
    }
    Ok(Some(frame))
}

/// How those stand that live for the whole run.
fn frame_of_statics(
    alloc: Global,
    types: Types<'_>,
    statics: &[Static],
) -> Result<Option<Frame>, AllocError>
    requires tables { HasTables types }
    ensures { IfOk result (HasFrame (shapes types.entry) (map (λ (x : y.Static). x.declared) statics.now)) }
{
    let mut frame = empty(alloc);
    for one in statics {
        if !add(&mut frame, types, &one.declared)? {
            return Ok(None);
        }
    }
    Ok(Some(frame))
}

/// How those of a procedure stand, the result behind the others (ISO/IEC 1539-1:2004, 12.5.2.1).
fn frame_of_procedure(
    alloc: Global,
    types: Types<'_>,
    procedure: &Procedure,
) -> Result<Option<Frame>, AllocError>
    requires tables { HasTables types }
    ensures { IfOk result (HasFrame (shapes types.entry) (declared_in procedure.now)) }
{
    let Some(mut frame) = frame_of(alloc, types, &procedure.locals)? else {
        return Ok(None);
    };
    let Some(result) = &procedure.result else {
        return Ok(Some(frame));
    };
    if add(&mut frame, types, result)? {
        Ok(Some(frame))
    } else {
        Ok(None)
    }
}

/// How those of each procedure stand.
fn frames_of_procedures(
    alloc: Global,
    types: Types<'_>,
    procedures: &[Procedure],
) -> Result<Option<Vec<Frame>>, AllocError>
    requires tables { HasTables types }
    ensures { IfOk result (λ r. MatchOption r (All (λ (x : q.Procedure). CanStand (shapes types.entry) (declared_in x)) procedures.now → ⊥)
        (λ fs. HaveFrames (shapes types.entry) procedures.now fs.items)) }
{
    let mut frames = Vec::new(alloc);
    for procedure in procedures {
        match frame_of_procedure(alloc, types, procedure)? {
            Some(frame) => frames.push(frame)?,
            None => return Ok(None),
        }
    }
    Ok(Some(frames))
}

impl Frames {
    /// The frames of a program: none exactly where objects of some type have more words than one may have, or some variables of an
    /// activation have 2 to the 62 words or more together, or cannot begin with their values.
    ///
    /// `AllocError` where the host has no memory for them.
    pub fn new(alloc: Global, program: &Program) -> Result<Option<Frames>, AllocError>
        ensures { IfOk result (λ r. MatchOption r (CanBeFramed program.now → ⊥) (λ f. AreFrames program.now f × CanBeFramed program.now)) }
    {
        let Some(tables) = tables(alloc, &program.types)? else {
            return Ok(None);
        };
        let types = Types {
            derived: &program.types,
            tables: &tables,
        };
        let Some(statics) = frame_of_statics(alloc, types, &program.statics)? else {
            return Ok(None);
        };
        let Some(main) = frame_of_procedure(alloc, types, &program.main)? else {
            return Ok(None);
        };
        let Some(procedures) = frames_of_procedures(alloc, types, &program.procedures)? else {
            return Ok(None);
        };
        Ok(Some(Frames {
            tables,
            statics,
            main,
            procedures,
        }))
    }

    /// What a machine knows of a program and of the code that was emitted for it.
    pub fn scene<'a>(&'a self, program: &'a Program, emission: &'a Emission) -> Scene<'a>
        requires frames { AreFrames program.now self.now }
        requires code { code_in program.now emission.now ≡ code_of program.now }
        ensures scene { IsScene result }
        ensures program { result.program.now ≡ program.now }
        ensures emission { result.emission.now ≡ emission.now }
    {
        Scene {
            program,
            emission,
            types: Types {
                derived: &program.types,
                tables: &self.tables,
            },
            statics: &self.statics,
            main: &self.main,
            procedures: &self.procedures,
        }
    }
}
