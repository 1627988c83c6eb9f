//! The code of statements, with the ways out of blocks, and of the constructs that hold them.

ghost use Rattle.std.specs.Prelude.{◌∷◌, ◌++◌, [], true, length, map, OnOk};
ghost use Rattle.f3_code.specs.Core as c;
ghost use Rattle.f3_code.specs.Lower.{lowered, selecting};
ghost use Rattle.f3_code.specs.State.{line};
ghost use Rattle.f3_code.specs.Code.{code_of, counting, farther, locate_code, turns_code, up_code};
ghost use Rattle.f3_gen_work.specs.EmittedIn.{EmittedIn};
ghost use Rattle.f3_gen_statements.specs.Chain.{IsSingle, taken_code};
ghost use Rattle.f3_gen_statements.specs.Leading.{LeadInto, lowered_list, ways_from};

use crate::chain::{Link, chain_of};
use crate::leaving::{
    close_loop, emit_cycle, emit_departing, emit_exit, emit_leaving, emit_return,
};
use crate::parts::{emit_allocate, emit_deallocate, emit_limits, emit_scope_end, emit_test};
use crate::site::{Exits, Site};
use f3_code::instruction::Instruction;
use f3_gen_actions::actions::{emit_assignment, emit_move};
use f3_gen_actions::output::emit_items;
use f3_gen_actions::selecting::emit_selectors;
use f3_gen_values::line::{Line, put};
use f3_gen_values::value::{emit_object_then, emit_value, emit_value_then};
use f3_places::source::Place;
use f3_program::declarations::Kind;
use f3_program::expression::{Designator, Expression};
use f3_program::statement::{Selector, Statement};
use std::alloc::AllocError;

/// A statement at its site: behind it the code goes on, or it leads out by the site's exits. The links of a chain are taken
/// one by one, the last first: so a long chain takes no more of the stack than a short one.
#[cycle(statement)]
pub fn emit_statement(
    code: &mut Vec<Line>,
    site: Site<'_>,
    statement: &Statement,
) -> Result<(), AllocError>
    requires { LeadInto code.old.items site.exits }
    ensures { OnOk result (EmittedIn site.entry.types.now code.old.items code.new.items (λ g.
        code_of (length site.entry.types.now) site.entry.place (lowered g statement.now) (ways_from code.old.items site.entry.exits))) }
{
    let chain = chain_of(*code.allocator(), site.place, statement)?;
    let place = chain.place;
    let behind = code.len();
    emit_single(code, Site { place, ..site }, chain.last)?;
    let mut i = chain.links.len();
    while i > 0 {
        i -= 1;
        let others = code.len() - behind;
        emit_link(code, site, chain.links[i], others)?;
    }
    Ok(())
}

/// A statement that is no IF, ELSE IF or case.
#[cycle(statement)]
fn emit_single(
    code: &mut Vec<Line>,
    site: Site<'_>,
    statement: &Statement,
) -> Result<(), AllocError>
    requires leads { LeadInto code.old.items site.exits }
    requires single { IsSingle statement.now }
    ensures { OnOk result (EmittedIn site.entry.types.now code.old.items code.new.items (λ g.
        code_of (length site.entry.types.now) site.entry.place (lowered g statement.now) (ways_from code.old.items site.entry.exits))) }
{
    let place = site.place;
    match statement {
        Statement::At(at, true, inner) => emit_at(code, site, *at, inner),
        Statement::At(_, false, _) => unreachable!(),
        Statement::Block(list) => emit_block(code, site, list),
        Statement::Assign(x, kind, e) => emit_assignment(code, place, site.types, x, *kind, e),
        Statement::Call(e) => emit_value_then(code, place, e, Instruction::Drop),
        Statement::MoveAlloc(kind, is_from_first, x, y) => {
            emit_move(code, place, site.types, *kind, *is_from_first, x, y)
        }
        Statement::Allocate(list, status) => emit_allocate(code, place, list, status),
        Statement::Deallocate(list, status) => emit_deallocate(code, site, list, status),
        Statement::Print(items) => emit_items(code, place, items),
        Statement::Stop(number) => put(code, place, Instruction::Stop(*number)),
        Statement::Return => emit_return(code, place, site.exits),
        Statement::Cycle => emit_cycle(code, place, site.exits),
        Statement::Exit => emit_exit(code, place, site.exits),
        Statement::If(_, _, _) => unreachable!(),
        Statement::Select(e, cases) => emit_select(code, site, e, cases),
        Statement::Case(_, _, _) => unreachable!(),
        Statement::While(e, body) => emit_while(code, site, e, body),
        Statement::Count(x, kind, from, to, by, body) => {
            emit_count(code, site, x, *kind, body)?;
            emit_limits(code, place, *kind, from, to, by)
        }
        Statement::Associate(list, body) => emit_associate(code, site, list, body),
    }
}

/// An action or a construct that begins at a place (2.3.1).
#[cycle(statement)]
fn emit_at(
    code: &mut Vec<Line>,
    site: Site<'_>,
    at: Place,
    inner: &Statement,
) -> Result<(), AllocError>
    requires { LeadInto code.old.items site.exits }
    ensures { OnOk result (EmittedIn site.entry.types.now code.old.items code.new.items (λ g.
        code_of (length site.entry.types.now) site.entry.place (c.At at true (lowered g inner.now)) (ways_from code.old.items site.entry.exits))) }
{
    let place = Some(at);
    emit_statement(code, Site { place, ..site }, inner)?;
    put(code, place, Instruction::Begin)
}

/// Statements, one after another (8.1.1).
#[cycle(statement)]
fn emit_block(code: &mut Vec<Line>, site: Site<'_>, list: &[Statement]) -> Result<(), AllocError>
    requires { LeadInto code.old.items site.exits }
    ensures { OnOk result (EmittedIn site.entry.types.now code.old.items code.new.items (λ g.
        code_of (length site.entry.types.now) site.entry.place (lowered_list g list.now) (ways_from code.old.items site.entry.exits))) }
{
    let mut i = list.len();
    while i > 0 {
        i -= 1;
        emit_statement(code, site, &list[i])?;
    }
    Ok(())
}

/// An IF, an ELSE IF or a case, in front of so many lines for what is done where it is not taken (8.1.2, 8.1.3).
#[cycle(statement)]
fn emit_link(
    code: &mut Vec<Line>,
    site: Site<'_>,
    link: Link<'_>,
    others: usize,
) -> Result<(), AllocError>
    requires { LeadInto code.old.items site.exits }
    ensures { OnOk result (EmittedIn site.entry.types.now code.old.items code.new.items (λ g. taken_code link.entry.place link.entry.test
        (code_of (length site.entry.types.now) link.entry.place (lowered g link.entry.then.now) (farther 1 (ways_from code.old.items site.entry.exits))) others)) }
{
    let place = link.place;
    let behind = code.len();
    put(code, place, Instruction::GoOn(others))?;
    emit_statement(code, Site { place, ..site }, link.then)?;
    let within = code.len() - behind;
    emit_test(code, place, link.test, within)
}

/// A DO WHILE (8.1.6).
#[cycle(statement)]
fn emit_while(
    code: &mut Vec<Line>,
    site: Site<'_>,
    condition: &Expression,
    body: &Statement,
) -> Result<(), AllocError>
    requires { LeadInto code.old.items site.exits }
    ensures { OnOk result (EmittedIn site.entry.types.now code.old.items code.new.items (λ g.
        code_of (length site.entry.types.now) site.entry.place (c.While condition.now (lowered g body.now)) (ways_from code.old.items site.entry.exits))) }
{
    let behind = code.len();
    put(code, site.place, Instruction::GoBack(0))?;
    let exits = Exits {
        cycle: code.len(),
        exit: behind,
        ..site.exits
    };
    emit_statement(code, Site { exits, ..site }, body)?;
    let within = code.len() - behind;
    put(code, site.place, Instruction::SkipIfFalse(within))?;
    emit_value(code, site.place, condition)?;
    close_loop(code, site.place, behind);
    Ok(())
}

/// The turns of a DO with a variable of a kind, behind its bounds and its step (8.1.6.4).
#[cycle(statement)]
fn emit_count(
    code: &mut Vec<Line>,
    site: Site<'_>,
    variable: &Designator,
    kind: Kind,
    body: &Statement,
) -> Result<(), AllocError>
    requires { LeadInto code.old.items site.exits }
    ensures { OnOk result (EmittedIn site.entry.types.now code.old.items code.new.items (λ g. locate_code site.entry.place variable.now ++ (line site.entry.place Instruction.CountBegin
        ∷ turns_code site.entry.place (code_of (length site.entry.types.now) site.entry.place (lowered g body.now)
        (counting (length (up_code site.entry.place variable.now kind)) (ways_from code.old.items site.entry.exits))) (up_code site.entry.place variable.now kind)))) }
{
    put(code, site.place, Instruction::Unwind(1))?;
    let behind = code.len();
    put(code, site.place, Instruction::GoBack(0))?;
    emit_object_then(code, site.place, variable, Instruction::CountUp(kind.of))?;
    let exits = Exits {
        cycle: code.len(),
        exit: behind,
        ret: site.exits.ret,
        cells: site.exits.cells + 1,
    };
    emit_statement(code, Site { exits, ..site }, body)?;
    let within = code.len() - behind;
    put(code, site.place, Instruction::CountNext(within))?;
    close_loop(code, site.place, behind);
    emit_object_then(code, site.place, variable, Instruction::CountBegin)
}

/// A SELECT CASE (8.1.3).
#[cycle(statement)]
fn emit_select(
    code: &mut Vec<Line>,
    site: Site<'_>,
    value: &Expression,
    cases: &Statement,
) -> Result<(), AllocError>
    requires { LeadInto code.old.items site.exits }
    ensures { OnOk result (EmittedIn site.entry.types.now code.old.items code.new.items (λ g.
        code_of (length site.entry.types.now) site.entry.place (c.Select value.now (lowered g cases.now)) (ways_from code.old.items site.entry.exits))) }
{
    emit_departing(code, site.place, site.exits)?;
    let exits = emit_leaving(code, site.place)?;
    emit_statement(code, Site { exits, ..site }, cases)?;
    emit_value_then(code, site.place, value, Instruction::Selecting)
}

/// An ASSOCIATE (8.1.4).
#[cycle(statement)]
fn emit_associate(
    code: &mut Vec<Line>,
    site: Site<'_>,
    selectors: &[Selector],
    body: &Statement,
) -> Result<(), AllocError>
    requires { LeadInto code.old.items site.exits }
    ensures { OnOk result (EmittedIn site.entry.types.now code.old.items code.new.items (λ g.
        code_of (length site.entry.types.now) site.entry.place (c.Associate (map (selecting g) selectors.now) (lowered g body.now)) (ways_from code.old.items site.entry.exits))) }
{
    emit_scope_end(code, site.place, site.exits, selectors)?;
    let exits = emit_leaving(code, site.place)?;
    emit_statement(code, Site { exits, ..site }, body)?;
    put(code, site.place, Instruction::Associate(selectors.len()))?;
    emit_selectors(code, site.place, selectors)
}
