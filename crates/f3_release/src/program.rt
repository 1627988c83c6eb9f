//! Programs and procedures.

use crate::statement::release_statement;
use f3_program::program::{Procedure, Program};

/// Lets a program go.
pub fn release(program: Program) {
    for procedure in program.procedures {
        release_procedure(procedure);
    }
    release_procedure(program.main);
}

/// Lets a procedure go.
fn release_procedure(procedure: Procedure) {
    release_statement(procedure.body);
}
