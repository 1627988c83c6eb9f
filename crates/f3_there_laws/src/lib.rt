//! In a program without allocatables everything is there to which references lead.
#![tactic(auto)]

ghost use Rattle.f3_there_laws.specs.Laws.{PlainPartsAreThere, PlainRunsAccord};

/// In each state of each run of a program without allocatables the parts are there to which the objects on the stack lead (own rule).
pub fn plain_parts_are_there()
    ensures { PlainPartsAreThere }
{}

/// So cells hold what their types say, objects stand, and references lead to objects of their kinds (own rule).
pub fn plain_runs_accord()
    ensures { PlainRunsAccord }
{}
