//! Laws on the bodies of programs that sources spell: no run of a parser.
#![tactic(auto)]

ghost use Rattle.f3_spelled_laws.specs.Laws.{AcceptedBodiesAreSpelled, ModulesHaveNoStatements, ProgramsHaveNoProcedures};

/// Where sources spell a tree and its scopes break no rule, the bodies of the tree are spelled: each designator has a name and each array
/// constructor a value (6.1, 4.7), and no ASSOCIATE construct names an associate name twice (16.3).
pub fn bodies_are_spelled()
    ensures { AcceptedBodiesAreSpelled }
{}

/// A main program that sources spell has no procedures, and a module no executable statements (11.1, 11.2).
pub fn programs_have_no_procedures()
    ensures programs { ProgramsHaveNoProcedures }
    ensures modules { ModulesHaveNoStatements }
{}
