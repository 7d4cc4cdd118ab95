//! The ends of modules, of the main program and of procedures.

ghost use Rattle.std.specs.Prelude.{◌≡◌, ◌&&◌, ◌++◌, ◌∷◌, [], true, IfOk, OnOk, Some};
ghost use Rattle.f95_nesting.specs.declared.open.State.TheVariants as state_of;
ghost use Rattle.f95_nesting.specs.declared.open.Place.TheVariants as place_of;
ghost use Rattle.f95_nesting.specs.Lists.{some};
ghost use Rattle.f95_nesting.specs.Placed.{same_unit, may_end, is_filled, heading_word};
ghost use Rattle.f95_nesting.specs.Machine.{end_module, end_main, end_host, more_procedures, end_procedure};

use a95_base::Line;
use f95_nesting::{Host, Place, State};
use f95_tree::{Ending, Heading, Main, Module, Source, Subprogram, UnitWord};
use sqlite_items::Items;
use std::alloc::AllocError;

fn same_unit(a: UnitWord, b: UnitWord) -> bool
    ensures { result ≡ same_unit a b }
{
    match a {
        UnitWord::Program => matches!(b, UnitWord::Program),
        UnitWord::Module => matches!(b, UnitWord::Module),
        UnitWord::Subroutine => matches!(b, UnitWord::Subroutine),
        UnitWord::Function => matches!(b, UnitWord::Function),
    }
}

/// Whether a unit of this word may end so; END alone ends no procedure.
fn may_end(word: UnitWord, alone: bool, end: &Ending) -> bool
    ensures { result ≡ may_end word alone end.now.word end.now.name }
{
    match end.word {
        Some(other) => same_unit(word, other),
        None => match &end.name {
            None => alone,
            Some(_) => false,
        },
    }
}

fn some(procedures: &[Subprogram]) -> bool
    ensures { result ≡ some procedures.now }
{
    match procedures {
        [] => false,
        [_, ..] => true,
    }
}

/// Whether a procedure stands behind CONTAINS, where that stands.
fn is_filled(procedures: &Option<(Line, Items<Subprogram>)>) -> bool
    ensures { result ≡ is_filled procedures.now }
{
    match procedures {
        None => true,
        Some((_, procedures)) => some(procedures.as_slice()),
    }
}

fn heading_word(heading: &Heading) -> UnitWord
    ensures { result ≡ heading_word heading.now }
{
    match heading {
        Heading::Subroutine(_, _) => UnitWord::Subroutine,
        Heading::Function(_, _, _) => UnitWord::Function,
    }
}

/// Whether a module or a main program with these procedures may end so.
fn ends(word: UnitWord, end: &Ending, procedures: &Option<(Line, Items<Subprogram>)>) -> bool
    ensures { result ≡ (may_end word true end.now.word end.now.name && is_filled procedures.now) }
{
    may_end(word, true, end) && is_filled(procedures)
}

/// The end of a module.
pub fn end_module(modules: Items<Module>, ended: Module) -> Result<State, AllocError>
    ensures { IfOk result (λ s. s ≡ end_module modules ended.line ended.name ended.section ended.procedures ended.end) }
{
    if !ends(UnitWord::Module, &ended.end, &ended.procedures) {
        drop(modules);
        drop(ended);
        return Ok(State::Stops);
    }
    let mut modules = modules;
    match modules.push(ended) {
        Ok(()) => Ok(State::Goes(modules, Place::Start)),
        Err(error) => {
            drop(modules);
            Err(error)
        }
    }
}

/// The end of the main program.
pub fn end_main(modules: Items<Module>, main: Main) -> State
    ensures { result ≡ end_main modules main.opening main.section main.procedures main.end main.body }
{
    if ends(UnitWord::Program, &main.end, &main.procedures) {
        State::Ended(Source { modules, main })
    } else {
        drop(modules);
        drop(main);
        State::Stops
    }
}

/// The end of a module or a main program behind CONTAINS.
pub fn end_host(modules: Items<Module>, host: Host, end: Ending) -> Result<State, AllocError>
    ensures { IfOk result (λ s. s ≡ end_host modules host end) }
{
    match host {
        Host::Module(line, name, section, contains, procedures) => {
            let ended = Module {
                line,
                name,
                section,
                procedures: Some((contains, procedures)),
                end,
            };
            end_module(modules, ended)
        }
        Host::Main(opening, section, body, contains, procedures) => {
            let main = Main {
                opening,
                section,
                body,
                procedures: Some((contains, procedures)),
                end,
            };
            Ok(end_main(modules, main))
        }
    }
}

/// One procedure more behind CONTAINS.
fn add_procedure(host: &mut Host, procedure: Subprogram) -> Result<(), AllocError>
    ensures { OnOk result (host.new ≡ more_procedures host.old procedure) }
{
    match host {
        Host::Module(_, _, _, _, procedures) => procedures.push(procedure),
        Host::Main(_, _, _, _, procedures) => procedures.push(procedure),
    }
}

/// The end of a procedure.
pub fn end_procedure(
    modules: Items<Module>,
    host: Host,
    ended: Subprogram,
) -> Result<State, AllocError>
    ensures { IfOk result (λ s. s ≡ end_procedure modules host ended.line ended.procedure ended.section ended.end ended.body) }
{
    if !may_end(heading_word(&ended.procedure.heading), false, &ended.end) {
        drop(modules);
        drop(host);
        drop(ended);
        return Ok(State::Stops);
    }
    let mut host = host;
    match add_procedure(&mut host, ended) {
        Ok(()) => Ok(State::Goes(modules, Place::Contains(host))),
        Err(error) => {
            drop(modules);
            drop(host);
            Err(error)
        }
    }
}
