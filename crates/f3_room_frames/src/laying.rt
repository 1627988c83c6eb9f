//! How variables are laid out.

ghost use Rattle.std.specs.Prelude.{◌≡◌, ◌≤◌, ◌<◌, ◌+◌, List, [], IfOk, IfSome, MatchOption, map};
ghost use Rattle.f3_program.specs.declared.program.Static as static;
ghost use Rattle.f3_meaning_whole.specs.Exec.{declared_in};
ghost use Rattle.f3_meaning_whole.specs.Shape.{Shape};
ghost use Rattle.f3_rooms.specs.Forms.{room};
ghost use Rattle.f3_type_words.specs.Tables.{AreTables};
ghost use Rattle.f3_room_frames.specs.Sound.{most_words};
ghost use Rattle.f3_room_frames.specs.Layouts.{StandsFrom, IsLayout, HasLayout, Added};

use crate::layout::{Layout, Variable};
use f3_program::declarations::Declared;
use f3_program::program::{Procedure, Static};
use f3_type_words::table::TypeTable;
use f3_type_words::words::words_of;
use std::alloc::{AllocError, Global};

/// How many words the variables of an activation may have together (own rule).
const MOST_WORDS: u64 = 0x1_0000_0000;

/// A variable whose words begin at a place, by the tables of the types: none where there are too many words up to its last.
fn placed(
    alloc: Global,
    tables: &[TypeTable],
    declared: &Declared,
    offset: usize,
) -> Result<Option<Variable>, AllocError>
    requires { offset ≤ most_words }
    ensures stands { IfOk result (λ r. (ts : List Shape) → AreTables ts tables.now
        → MatchOption r (most_words < offset + room ts declared.now) (StandsFrom ts offset declared.now)) }
    ensures there { IfOk result (λ r. IfSome r (λ v. v.offset ≡ offset)) }
{
    match words_of(tables, declared) {
        Some(words) if words <= MOST_WORDS - offset as u64 => {
            let bounds = declared.dimensions.iter().copied().collect(alloc)?;
            Ok(Some(Variable {
                offset,
                words: words as usize,
                of: declared.kind.of,
                rank: declared.kind.rank,
                bounds,
                is_allocatable: declared.kind.is_allocatable,
            }))
        }
        _ => Ok(None),
    }
}

impl Layout {
    /// Of no variables.
    fn new(alloc: Global) -> Layout
        ensures { (ts : List Shape) → IsLayout ts [] result }
    {
        Layout {
            variables: Vec::new(alloc),
            words: 0,
        }
    }

    /// Lays out one variable more: `false` where these cannot stand in a block together.
    fn add(
        &mut self,
        alloc: Global,
        tables: &[TypeTable],
        declared: &Declared,
    ) -> Result<bool, AllocError>
        ensures { IfOk result (λ r. (ts : List Shape) → AreTables ts tables.now → Added ts self.old declared.now self.new r) }
    {
        let Some(variable) = placed(alloc, tables, declared, self.words)? else {
            return Ok(false);
        };
        let words = self.words + variable.words;
        self.variables.push(variable)?;
        self.words = words;
        Ok(true)
    }
}

/// Lays out variables, by the tables of the types: none where they cannot stand in a block.
///
/// `AllocError` where the host has no memory for it.
pub fn lay_out(
    alloc: Global,
    tables: &[TypeTable],
    declared: &[Declared],
) -> Result<Option<Layout>, AllocError>
    ensures { IfOk result (λ r. (ts : List Shape) → AreTables ts tables.now → HasLayout ts declared.now r) }
{
    let mut layout = Layout::new(alloc);
    for one in declared {
        if !layout.add(alloc, tables, one)? {
            return Ok(None);
        }
    }
    Ok(Some(layout))
}

/// Lays out the variables of a procedure, the result behind the others: none where they cannot stand in a block.
pub(crate) fn lay_out_procedure(
    alloc: Global,
    tables: &[TypeTable],
    procedure: &Procedure,
) -> Result<Option<Layout>, AllocError>
    ensures { IfOk result (λ r. (ts : List Shape) → AreTables ts tables.now → HasLayout ts (declared_in procedure.now) r) }
{
    let Some(mut layout) = lay_out(alloc, tables, &procedure.locals)? else {
        return Ok(None);
    };
    let Some(result) = &procedure.result else {
        return Ok(Some(layout));
    };
    if layout.add(alloc, tables, result)? {
        Ok(Some(layout))
    } else {
        Ok(None)
    }
}

/// Lays out what lives for the whole run: none where it cannot stand in a block.
pub(crate) fn lay_out_statics(
    alloc: Global,
    tables: &[TypeTable],
    statics: &[Static],
) -> Result<Option<Layout>, AllocError>
    ensures { IfOk result (λ r. (ts : List Shape) → AreTables ts tables.now → HasLayout ts (map (λ (s : static.Static). s.declared) statics.now) r) }
{
    let mut layout = Layout::new(alloc);
    for one in statics {
        if !layout.add(alloc, tables, &one.declared)? {
            return Ok(None);
        }
    }
    Ok(Some(layout))
}
