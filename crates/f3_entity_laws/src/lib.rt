//! Laws on the entities of a program: what the rules on types know of them, what the tables of names have, and what the elaboration names are
//! listed in one order, that of what declares them.
#![tactic(auto)]

ghost use Rattle.f3_entity_laws.specs.Laws.{ThingsAreOfProgram, NaturesAreThings, ThingsHaveNatures, EntitiesAreThings, ThingsStand};
ghost use Rattle.f3_entity_laws.specs.Laws.{ThingsAreDeclared, DeclaredAreThings, KindsAreThings, HomesAreScopes, ThingsHaveHolders};
ghost use Rattle.f3_entity_laws.specs.Laws.{HoldersAreThings, NamesAreThings, ThingsAreNames, TypesAreThings, ThingsAreTypes};
ghost use Rattle.f3_entity_laws.specs.Laws.{ProceduresAreThings, ThingsAreProcedures, ResultsAreThings, ThingsAreResults, StaticsAreFound};
ghost use Rattle.f3_entity_laws.specs.Laws.{ProceduresAreFound, TypesAreFound, TypesAreNumbered, LocalsAreFound, MemberLocalsAreFound};

/// What declares an entity stands in a unit of the program or in a procedure of one.
pub fn things_are_of_program()
    ensures { ThingsAreOfProgram }
{}

/// What the rules on types know of the entities, they know in the order of what declares these.
pub fn natures_are_things()
    ensures natures { NaturesAreThings }
    ensures things { ThingsHaveNatures }
{}

/// The tables of names number the entities in that order, scope by scope (ISO/IEC 1539-1:2004, 16.2).
pub fn entities_are_things()
    ensures entities { EntitiesAreThings }
    ensures stand { ThingsStand }
    ensures declared { ThingsAreDeclared }
    ensures things { DeclaredAreThings }
    ensures kinds { KindsAreThings }
    ensures homes { HomesAreScopes }
{}

/// What the rules on definitions ask of the entities, they ask in that order.
pub fn holders_are_things()
    ensures things { ThingsHaveHolders }
    ensures holders { HoldersAreThings }
{}

/// The elaboration knows declared names, types, procedures and results by their places in that order.
pub fn numbers_are_things()
    ensures names { NamesAreThings }
    ensures things_names { ThingsAreNames }
    ensures types { TypesAreThings }
    ensures things_types { ThingsAreTypes }
    ensures procedures { ProceduresAreThings }
    ensures things_procedures { ThingsAreProcedures }
    ensures results { ResultsAreThings }
    ensures things_results { ThingsAreResults }
{}

/// No entity stands twice in a list by which the elaboration numbers variables, procedures or types.
pub fn numbers_are_found()
    ensures statics { StaticsAreFound }
    ensures procedures { ProceduresAreFound }
    ensures types { TypesAreFound }
    ensures numbered { TypesAreNumbered }
    ensures locals { LocalsAreFound }
    ensures member_locals { MemberLocalsAreFound }
{}
