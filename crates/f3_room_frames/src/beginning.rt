//! Variables that live for the whole run, with their initial values.

ghost use Rattle.f3_meaning_whole.specs.Shape.{Shape};
ghost use Rattle.std.specs.Prelude.{◌≡◌, ◌++◌, List, [], replicate, true, false, IfOk, MatchOption, map};
ghost use Rattle.std.specs.Bool.{MatchBool};
ghost use Rattle.f3_program.specs.declared.program.Static as static;
ghost use Rattle.f3_room_frames.specs.Layouts.{IsLayout};
ghost use Rattle.f3_room_frames.specs.Scalars.{word_for};
ghost use Rattle.f3_room_frames.specs.Initial.{initial_word, initial_by, AreOf, AreEnough, BeginWith};

use crate::layout::Layout;
use f3_program::declarations::{Base, Constant, Declared};
use f3_program::program::Static;
use std::alloc::{AllocError, Global};

/// The word of a scalar of a type: none where it is of another sort.
fn word(of: Base, scalar: Constant) -> Option<i64>
    ensures { result ≡ word_for of scalar }
{
    match (of, scalar) {
        (Base::Integer | Base::Long, Constant::Number(number)) => Some(number),
        (Base::Logical, Constant::Truth(truth)) => Some(truth as i64),
        _ => None,
    }
}

/// Adds a word so many times.
fn add_copies(words: &mut Vec<i64>, count: usize, word: i64) -> Result<(), AllocError>
    ensures { IfOk result (λ r. words.new.items ≡ words.old.items ++ replicate count word) }
{
    for _each in 0..count {
        words.push(word)?;
    }
    Ok(())
}

/// Adds the words of values of a type: `false` where some is of another sort.
fn add_all(words: &mut Vec<i64>, of: Base, values: &[Constant]) -> Result<bool, AllocError>
    ensures { IfOk result (λ r. MatchBool r (AreOf of values.now × (words.new.items ≡ words.old.items ++ map (initial_word of) values.now)) (AreOf of values.now → ⊥)) }
{
    for value in values {
        match word(of, *value) {
            Some(word) => words.push(word)?,
            None => return Ok(false),
        }
    }
    Ok(true)
}

/// Adds the words with which a variable of so many words begins: `false` where its values are of another sort, or are too few or too
/// many, or where it is an allocatable that has some.
fn add_initial(words: &mut Vec<i64>, declared: &Declared, count: usize) -> Result<bool, AllocError>
    ensures { IfOk result (λ r. MatchBool r
        (AreOf declared.now.kind.of declared.now.initial.items × AreEnough declared.now.kind.rank count declared.now.initial.items
        × (declared.now.kind.is_allocatable ≡ true → declared.now.initial.items ≡ [])
        × (words.new.items ≡ words.old.items ++ initial_by count declared.now.kind.of declared.now.initial.items))
        (AreOf declared.now.kind.of declared.now.initial.items → AreEnough declared.now.kind.rank count declared.now.initial.items
        → (declared.now.kind.is_allocatable ≡ true → declared.now.initial.items ≡ []) → ⊥)) }
{
    if declared.kind.is_allocatable && !declared.initial.is_empty() {
        return Ok(false);
    }
    match declared.initial.as_slice() {
        [] => {
            add_copies(words, count, 0)?;
            Ok(true)
        }
        [value] => match word(declared.kind.of, *value) {
            Some(word) => {
                add_copies(words, count, word)?;
                Ok(true)
            }
            None => Ok(false),
        },
        values => {
            if declared.kind.rank == 0 || values.len() != count {
                return Ok(false);
            }
            add_all(words, declared.kind.of, values)
        }
    }
}

/// The words with which variables that live for the whole run begin: none where some cannot begin with its values (16.5).
///
/// `AllocError` where the host has no memory for them.
pub fn begin_words(
    alloc: Global,
    layout: &Layout,
    statics: &[Static],
) -> Result<Option<Vec<i64>>, AllocError>
    requires { (ts : List Shape) × IsLayout ts (map (λ (s : static.Static). s.declared) statics.now) layout.now }
    ensures { IfOk result (λ r. (ts : List Shape) → IsLayout ts (map (λ (s : static.Static). s.declared) statics.now) layout.now
        → BeginWith ts (map (λ (s : static.Static). s.declared) statics.now) r) }
{
    let mut words = Vec::new(alloc);
    for (slot, one) in statics.iter().enumerate() {
        if !add_initial(&mut words, &one.declared, layout.variables[slot].words)? {
            return Ok(None);
        }
    }
    Ok(Some(words))
}
