//! Programs without allocatables.

ghost use Rattle.std.specs.Prelude.{◌≡◌, ◌↔◌, true, false, All};
ghost use Rattle.f3_program.specs.declared.declarations.Component as c;
ghost use Rattle.f3_program.specs.declared.declarations.Derived as t;
ghost use Rattle.f3_program.specs.declared.program.Procedure as q;
ghost use Rattle.f3_program.specs.declared.program.Static as y;
ghost use Rattle.f3_meaning_whole.specs.Exec.{declared_in};
ghost use Rattle.f3_gen_values.specs.declared.line.Line as l;
ghost use Rattle.f3_gen_values.specs.Emission.{code_in};
ghost use Rattle.f3_word_cells.specs.Plain.{ArePlain, IsPlain, is_plain_act};
ghost use Rattle.f3_word_cells.specs.Scenes.{code_of};
ghost use Rattle.f3_word_start.specs.Inner.Declared.{IsDeclaredPlain};

use f3_code::instruction::Instruction;
use f3_gen_values::emission::Emission;
use f3_gen_values::line::Line;
use f3_program::declarations::{Component, Declared, Derived};
use f3_program::program::{Procedure, Program, Static};

/// Whether none of these variables is allocatable (ISO/IEC 1539-1:2004, 5.1.2.2).
fn are_plain(declared: &[Declared]) -> bool
    ensures { (result ≡ true) ↔ ArePlain declared.now }
{
    declared.iter().all(|one| !one.kind.is_allocatable)
}

/// Whether none is that lives for the whole run.
fn statics_are_plain(statics: &[Static]) -> bool
    ensures { (result ≡ true) ↔ All (λ (x : y.Static). x.declared.kind.is_allocatable ≡ false) statics.now }
{
    statics.iter().all(|one| !one.declared.kind.is_allocatable)
}

/// Whether no component is.
fn components_are_plain(components: &[Component]) -> bool
    ensures { (result ≡ true) ↔ All (λ (x : c.Component). x.declared.kind.is_allocatable ≡ false) components.now }
{
    components
        .iter()
        .all(|one| !one.declared.kind.is_allocatable)
}

/// Whether no variable of a procedure is, nor its result.
fn procedure_is_plain(procedure: &Procedure) -> bool
    ensures { (result ≡ true) ↔ ArePlain (declared_in procedure.now) }
{
    if !are_plain(&procedure.locals) {
        return false;
    }
    match &procedure.result {
        Some(result) => !result.kind.is_allocatable,
        None => true,
    }
}

/// Whether no variable of any of these procedures is.
fn procedures_are_plain(procedures: &[Procedure]) -> bool
    ensures { (result ≡ true) ↔ All (λ (x : q.Procedure). ArePlain (declared_in x)) procedures.now }
{
    procedures.iter().all(|one| procedure_is_plain(one))
}

/// Whether no component of any of these types is.
fn types_are_plain(types: &[Derived]) -> bool
    ensures { (result ≡ true) ↔ All (λ (x : t.Derived). All (λ (y : c.Component). y.declared.kind.is_allocatable ≡ false) x.components.items) types.now }
{
    types
        .iter()
        .all(|one| components_are_plain(&one.components))
}

/// Whether an instruction is none of those for allocatables and finalization (6.3, 4.5.5).
fn is_plain_act(act: Instruction) -> bool
    ensures { result ≡ is_plain_act act }
{
    match act {
        Instruction::Select(is_opened, _) => !is_opened,
        Instruction::SelectOf(is_opened, _, count) => !is_opened && count > 0,
        Instruction::IsAllocated
        | Instruction::Contents
        | Instruction::ByState(_, _)
        | Instruction::TestRank(_)
        | Instruction::New(_)
        | Instruction::LendBoth
        | Instruction::TakeOver
        | Instruction::Dimension
        | Instruction::Allocate(_, _)
        | Instruction::TestFree(_)
        | Instruction::NoError
        | Instruction::SkipIfFailed(_)
        | Instruction::Check
        | Instruction::StoreStatus
        | Instruction::SkipUnlessRank(_, _)
        | Instruction::PassObject
        | Instruction::Routine(_)
        | Instruction::Back
        | Instruction::WorkComponent(_)
        | Instruction::WalkBegin
        | Instruction::WalkNext(_)
        | Instruction::SkipUnlessAllocated(_)
        | Instruction::OpenContents
        | Instruction::Free => false,
        _ => true,
    }
}

/// Whether that holds of each of these lines.
fn lines_are_plain(lines: &[Line]) -> bool
    ensures { (result ≡ true) ↔ All (λ (x : l.Line). is_plain_act x.act ≡ true) lines.now }
{
    lines.iter().all(|one| is_plain_act(one.act))
}

/// Whether nothing that is declared in a program is allocatable: no variable, and no component of any type (5.1.2.2, 4.5.3).
fn is_declared_plain(program: &Program) -> bool
    ensures { (result ≡ true) ↔ IsDeclaredPlain program.now }
{
    if !types_are_plain(&program.types) {
        return false;
    }
    if !statics_are_plain(&program.statics) {
        return false;
    }
    if !procedure_is_plain(&program.main) {
        return false;
    }
    procedures_are_plain(&program.procedures)
}

/// Whether a program is one without allocatables, by the code that was emitted for it: no variable is one, and no component of any type,
/// and no line of the code asks for more.
pub fn is_plain(program: &Program, emission: &Emission) -> bool
    requires { code_in program.now emission.now ≡ code_of program.now }
    ensures { (result ≡ true) ↔ IsPlain program.now }
{
    if !is_declared_plain(program) {
        return false;
    }
    lines_are_plain(&emission.lines)
}
