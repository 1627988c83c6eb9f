//! How many words variables have that stand one after another.

ghost use Rattle.std.specs.Prelude.{◌+◌, ℕ, List};
ghost use Rattle.f3_meaning_whole.specs.Exec.{declared_in};
ghost use Rattle.f3_meaning_whole.specs.Shape.{Shape};
ghost use Rattle.f3_rooms.specs.Forms.{room, total};
ghost use Rattle.f3_type_words.specs.Tables.{AreTables};
ghost use Rattle.f3_sizes.specs.Words.{AreWords, declared_statics};

use f3_program::declarations::Declared;
use f3_program::program::{Procedure, Program};
use f3_type_words::table::TypeTable;
use f3_type_words::words::words_of;

/// One object more behind so many words: none where they are 2 to the 64 or more.
fn behind(tables: &[TypeTable], words: Option<u64>, declared: &Declared) -> Option<u64>
    ensures { (ts : List Shape) (n : ℕ) → AreTables ts tables.now → AreWords words n → AreWords result (n + room ts declared.now) }
{
    words?.checked_add(words_of(tables, declared)?)
}

/// Objects one after another.
fn row(tables: &[TypeTable], declared: &[Declared]) -> Option<u64>
    ensures { (ts : List Shape) → AreTables ts tables.now → AreWords result (total ts declared.now) }
{
    let mut words = Some(0);
    for one in declared {
        words = behind(tables, words, one);
    }
    words
}

/// How many words the variables of an activation of a procedure, or of the main program, have, one after another: those that do not
/// live for the whole run, and the result. None where they are 2 to the 64 or more.
///
/// The tables are those of the program's types (`f3_type_words::tabling::tables`).
pub fn frame(tables: &[TypeTable], procedure: &Procedure) -> Option<u64>
    ensures { (ts : List Shape) → AreTables ts tables.now → AreWords result (total ts (declared_in procedure.now)) }
{
    let locals = row(tables, &procedure.locals);
    match &procedure.result {
        Some(last) => behind(tables, locals, last),
        None => locals,
    }
}

/// How many words the variables have that live for the whole run, one after another. None where they are 2 to the 64 or more.
///
/// The tables are those of the program's types (`f3_type_words::tabling::tables`).
pub fn statics(tables: &[TypeTable], program: &Program) -> Option<u64>
    ensures { (ts : List Shape) → AreTables ts tables.now → AreWords result (total ts (declared_statics program.now)) }
{
    let mut words = Some(0);
    for one in &program.statics {
        words = behind(tables, words, &one.declared);
    }
    words
}
