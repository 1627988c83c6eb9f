//! The acts of the plan of a program.

use f3_compile::compile::compile;
use f3_gen_laws::generate;
use f3_gen_values::emission::Emission;
use f3_places::source::Source;
use f3_plans::planning::plan;
use f3_program::program::Program;
use f3_room_frames::layouts::Layouts;
use f3_row_cases::showing::listed;
use std::alloc::{AllocError, Global};

/// The acts of the plan of a program whose variables have these layouts.
fn planned_by(
    alloc: Global,
    layouts: &Layouts<'_>,
    emission: &Emission,
) -> Result<String, AllocError> {
    let plan = plan(alloc, layouts, emission)?;
    let text = match &plan {
        Some(plan) => listed(alloc, &plan.code.acts),
        None => String::from_str(alloc, "no plan\n"),
    };
    drop(plan);
    text
}

/// The acts of the plan of a program by its code.
fn planned_for(
    alloc: Global,
    program: &Program,
    emission: &Emission,
) -> Result<String, AllocError> {
    let layouts = Layouts::new(alloc, program)?;
    let text = match &layouts {
        Some(layouts) => planned_by(alloc, layouts, emission),
        None => String::from_str(alloc, "no layouts\n"),
    };
    drop(layouts);
    text
}

/// The acts of the plan of a program.
fn planned(alloc: Global, program: &Program) -> Result<String, AllocError> {
    let emission = generate(alloc, program)?;
    let text = planned_for(alloc, program, &emission);
    drop(emission);
    text
}

/// The acts of the plan of a program in these sources, one a line, or why there is none.
pub fn acts_of(alloc: Global, sources: &[Source]) -> Result<String, AllocError> {
    let compiled = compile(alloc, sources);
    let text = match &compiled {
        Ok(compiled) => planned(alloc, &compiled.program),
        Err(_) => String::from_str(alloc, "refused\n"),
    };
    drop(compiled);
    text
}
