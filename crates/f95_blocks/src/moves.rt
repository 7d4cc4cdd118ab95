//! One statement more in a source: what is open behind it.

ghost use Rattle.std.specs.Prelude.{◌≡◌, [], IfOk, None};
ghost use Rattle.f95_nesting.specs.declared.open.State.TheVariants as state_of;
ghost use Rattle.f95_nesting.specs.declared.open.Place.TheVariants as place_of;
ghost use Rattle.f95_nesting.specs.declared.open.Host.TheVariants as host_of;
ghost use Rattle.f95_nesting.specs.Machine.{into, before_body, no_section, no_body, end_main, end_procedure, place_move};
ghost use Rattle.f95_blocks.specs.declared.roles.Role.TheVariants as role_of;
ghost use Rattle.f95_blocks.specs.Units.{module_by, main_by, start_begin, start_by, contains_begin, contains_by, procedure_by};
ghost use Rattle.f95_blocks.specs.Units.{place_by};

use crate::ends::{end_host, end_main, end_module, end_procedure};
use crate::roles::{Beginning, Role, SectionForm, role_of};
use crate::sections::{no_section, with_form};
use a95_base::{Line, SharedBytes};
use f95_bodies::{body_move, done_of, is_empty, no_body};
use f95_nesting::{Body, Host, Place, State};
use f95_tree::{Ending, Form, Main, Module, Procedure, Section, Statement, Subprogram};
use sqlite_items::Items;
use std::alloc::{AllocError, Global};

/// What a module begins with, behind the modules that are ended.
#[derive(Drop)]
struct ModuleHead {
    modules: Items<Module>,
    line: Line,
    name: SharedBytes,
}

/// What the main program begins with, behind the modules.
#[derive(Drop)]
struct MainHead {
    modules: Items<Module>,
    opening: Option<(Line, SharedBytes)>,
}

/// What a procedure begins with, in its host and behind the modules that are ended.
#[derive(Drop)]
struct ProcedureHead {
    modules: Items<Module>,
    host: Host,
    line: Line,
    procedure: Procedure,
}

// Modules.

fn module_contains(alloc: Global, head: ModuleHead, section: Section, line: Line) -> State
    ensures { result ≡ module_by head.modules head.line head.name section line role_of.Contains }
{
    let host = Host::Module(head.line, head.name, section, line, Items::new(alloc));
    State::Goes(head.modules, Place::Contains(host))
}

fn module_ends(
    head: ModuleHead,
    section: Section,
    line: Line,
    end: Ending,
) -> Result<State, AllocError>
    ensures { IfOk result (λ s. s ≡ module_by head.modules head.line head.name section line (role_of.Ends end)) }
{
    let ended = Module {
        line: head.line,
        name: head.name,
        section,
        procedures: None,
        end,
    };
    end_module(head.modules, ended)
}

/// A module with this section, if there is one.
fn in_module(head: ModuleHead, section: Option<Section>) -> State
    ensures { result ≡ into (λ s. state_of.Goes head.modules (place_of.«Module» head.line head.name s)) section }
{
    match section {
        None => {
            drop(head);
            State::Stops
        }
        Some(section) => {
            let place = Place::Module(head.line, head.name, section);
            State::Goes(head.modules, place)
        }
    }
}

fn module_section(
    head: ModuleHead,
    section: Section,
    line: Line,
    form: SectionForm,
) -> Result<State, AllocError>
    ensures { IfOk result (λ s. s ≡ module_by head.modules head.line head.name section line (role_of.Section form)) }
{
    match with_form(section, line, form) {
        Err(error) => {
            drop(head);
            Err(error)
        }
        Ok(section) => Ok(in_module(head, section)),
    }
}

/// One statement more in a module before CONTAINS.
fn module_by(
    alloc: Global,
    head: ModuleHead,
    section: Section,
    line: Line,
    role: Role,
) -> Result<State, AllocError>
    ensures { IfOk result (λ s. s ≡ module_by head.modules head.line head.name section line role) }
{
    match role {
        Role::Contains => Ok(module_contains(alloc, head, section, line)),
        Role::Ends(end) => module_ends(head, section, line, end),
        Role::Section(form) => module_section(head, section, line, form),
        Role::Begins(beginning) => {
            drop(head);
            drop(section);
            drop(beginning);
            Ok(State::Stops)
        }
        Role::Within(form) => {
            drop(head);
            drop(section);
            drop(form);
            Ok(State::Stops)
        }
    }
}

// The main program.

/// The main program behind CONTAINS, if no block is open in its statements.
fn main_host(
    alloc: Global,
    head: MainHead,
    section: Section,
    line: Line,
    done: Option<Items<Statement>>,
) -> State
    ensures { result ≡ into (λ xs. state_of.Goes head.modules (place_of.Contains (host_of.Main head.opening section xs line [])))
        done }
{
    match done {
        None => {
            drop(head);
            drop(section);
            State::Stops
        }
        Some(done) => {
            let host = Host::Main(head.opening, section, done, line, Items::new(alloc));
            State::Goes(head.modules, Place::Contains(host))
        }
    }
}

fn main_contains(alloc: Global, head: MainHead, section: Section, body: Body, line: Line) -> State
    ensures { result ≡ main_by head.modules head.opening section body line role_of.Contains }
{
    main_host(alloc, head, section, line, done_of(body))
}

/// The main program without procedures, ended if no block is open in its statements.
fn main_done(head: MainHead, section: Section, end: Ending, done: Option<Items<Statement>>) -> State
    ensures { result ≡ into (end_main head.modules head.opening section None end) done }
{
    match done {
        None => {
            drop(head);
            drop(section);
            State::Stops
        }
        Some(body) => {
            let main = Main {
                opening: head.opening,
                section,
                body,
                procedures: None,
                end,
            };
            end_main(head.modules, main)
        }
    }
}

fn main_ends(head: MainHead, section: Section, body: Body, line: Line, end: Ending) -> State
    ensures { result ≡ main_by head.modules head.opening section body line (role_of.Ends end) }
{
    main_done(head, section, end, done_of(body))
}

fn main_goes(head: MainHead, section: Section, body: Body) -> State
    ensures { result ≡ state_of.Goes head.modules (place_of.Main head.opening section body) }
{
    State::Goes(head.modules, Place::Main(head.opening, section, body))
}

/// The main program with this section, if there is one.
fn main_with(head: MainHead, body: Body, section: Option<Section>) -> State
    ensures { result ≡ into (λ s. state_of.Goes head.modules (place_of.Main head.opening s body)) section }
{
    match section {
        None => {
            drop(head);
            drop(body);
            State::Stops
        }
        Some(section) => main_goes(head, section, body),
    }
}

/// The same, where no statement stands in it.
fn before_main(head: MainHead, body: Body, section: Option<Section>) -> State
    ensures { result ≡ before_body body (λ s. state_of.Goes head.modules (place_of.Main head.opening s body)) section }
{
    if is_empty(&body) {
        main_with(head, body, section)
    } else {
        drop(head);
        drop(body);
        drop(section);
        State::Stops
    }
}

fn main_section(
    head: MainHead,
    section: Section,
    body: Body,
    line: Line,
    form: SectionForm,
) -> Result<State, AllocError>
    ensures { IfOk result (λ s. s ≡ main_by head.modules head.opening section body line (role_of.Section form)) }
{
    match with_form(section, line, form) {
        Err(error) => {
            drop(head);
            drop(body);
            Err(error)
        }
        Ok(section) => Ok(before_main(head, body, section)),
    }
}

/// The main program with these statements, if there are such.
fn in_main(head: MainHead, section: Section, body: Option<Body>) -> State
    ensures { result ≡ into (λ b. state_of.Goes head.modules (place_of.Main head.opening section b)) body }
{
    match body {
        None => {
            drop(head);
            drop(section);
            State::Stops
        }
        Some(body) => main_goes(head, section, body),
    }
}

fn main_within(
    alloc: Global,
    head: MainHead,
    section: Section,
    body: Body,
    line: Line,
    form: Form,
) -> Result<State, AllocError>
    ensures { IfOk result (λ s. s ≡ main_by head.modules head.opening section body line (role_of.Within form)) }
{
    match body_move(alloc, false, body, line, form) {
        Err(error) => {
            drop(head);
            drop(section);
            Err(error)
        }
        Ok(body) => Ok(in_main(head, section, body)),
    }
}

/// One statement more in the main program before CONTAINS.
fn main_by(
    alloc: Global,
    head: MainHead,
    section: Section,
    body: Body,
    line: Line,
    role: Role,
) -> Result<State, AllocError>
    ensures { IfOk result (λ s. s ≡ main_by head.modules head.opening section body line role) }
{
    match role {
        Role::Contains => Ok(main_contains(alloc, head, section, body, line)),
        Role::Ends(end) => Ok(main_ends(head, section, body, line, end)),
        Role::Section(form) => main_section(head, section, body, line, form),
        Role::Within(form) => main_within(alloc, head, section, body, line, form),
        Role::Begins(beginning) => {
            drop(head);
            drop(section);
            drop(body);
            drop(beginning);
            Ok(State::Stops)
        }
    }
}

// Behind the modules.

fn start_begin(alloc: Global, modules: Items<Module>, line: Line, beginning: Beginning) -> State
    ensures { result ≡ start_begin modules line beginning }
{
    match beginning {
        Beginning::Module(name) => {
            State::Goes(modules, Place::Module(line, name, no_section(alloc)))
        }
        Beginning::Program(name) => {
            let place = Place::Main(Some((line, name)), no_section(alloc), no_body(alloc));
            State::Goes(modules, place)
        }
        Beginning::Procedure(procedure) => {
            drop(modules);
            drop(procedure);
            State::Stops
        }
    }
}

/// The first statement of a main program without PROGRAM.
fn first_by(
    alloc: Global,
    modules: Items<Module>,
    line: Line,
    role: Role,
) -> Result<State, AllocError>
    ensures { IfOk result (λ s. s ≡ main_by modules None no_section no_body line role) }
{
    let head = MainHead {
        modules,
        opening: None,
    };
    main_by(alloc, head, no_section(alloc), no_body(alloc), line, role)
}

/// One statement more behind the modules that are ended.
fn start_by(
    alloc: Global,
    modules: Items<Module>,
    line: Line,
    role: Role,
) -> Result<State, AllocError>
    ensures { IfOk result (λ s. s ≡ start_by modules line role) }
{
    match role {
        Role::Begins(beginning) => Ok(start_begin(alloc, modules, line, beginning)),
        Role::Contains => first_by(alloc, modules, line, Role::Contains),
        Role::Ends(end) => first_by(alloc, modules, line, Role::Ends(end)),
        Role::Section(form) => first_by(alloc, modules, line, Role::Section(form)),
        Role::Within(form) => first_by(alloc, modules, line, Role::Within(form)),
    }
}

// Behind CONTAINS.

fn contains_begin(
    alloc: Global,
    modules: Items<Module>,
    host: Host,
    line: Line,
    beginning: Beginning,
) -> State
    ensures { result ≡ contains_begin modules host line beginning }
{
    match beginning {
        Beginning::Procedure(procedure) => {
            let place = Place::Procedure(host, line, procedure, no_section(alloc), no_body(alloc));
            State::Goes(modules, place)
        }
        Beginning::Module(name) => {
            drop(modules);
            drop(host);
            drop(name);
            State::Stops
        }
        Beginning::Program(name) => {
            drop(modules);
            drop(host);
            drop(name);
            State::Stops
        }
    }
}

/// One statement more behind CONTAINS or the end of a procedure.
fn contains_by(
    alloc: Global,
    modules: Items<Module>,
    host: Host,
    line: Line,
    role: Role,
) -> Result<State, AllocError>
    ensures { IfOk result (λ s. s ≡ contains_by modules host line role) }
{
    match role {
        Role::Begins(beginning) => Ok(contains_begin(alloc, modules, host, line, beginning)),
        Role::Ends(end) => end_host(modules, host, end),
        Role::Contains => {
            drop(modules);
            drop(host);
            Ok(State::Stops)
        }
        Role::Section(form) => {
            drop(modules);
            drop(host);
            drop(form);
            Ok(State::Stops)
        }
        Role::Within(form) => {
            drop(modules);
            drop(host);
            drop(form);
            Ok(State::Stops)
        }
    }
}

// Procedures.

/// The procedure ended, if no block is open in its statements.
fn procedure_done(
    head: ProcedureHead,
    section: Section,
    end: Ending,
    done: Option<Items<Statement>>,
) -> Result<State, AllocError>
    ensures { IfOk result (λ s. s ≡ into (end_procedure head.modules head.host head.line head.procedure section end) done) }
{
    match done {
        None => {
            drop(head);
            drop(section);
            Ok(State::Stops)
        }
        Some(body) => {
            let ended = Subprogram {
                line: head.line,
                procedure: head.procedure,
                section,
                body,
                end,
            };
            end_procedure(head.modules, head.host, ended)
        }
    }
}

fn procedure_ends(
    head: ProcedureHead,
    section: Section,
    body: Body,
    line: Line,
    end: Ending,
) -> Result<State, AllocError>
    ensures { IfOk result
        (λ s. s ≡ procedure_by head.modules head.host head.line head.procedure section body line (role_of.Ends end)) }
{
    procedure_done(head, section, end, done_of(body))
}

fn procedure_goes(head: ProcedureHead, section: Section, body: Body) -> State
    ensures { result ≡ state_of.Goes head.modules (place_of.Procedure head.host head.line head.procedure section body) }
{
    let place = Place::Procedure(head.host, head.line, head.procedure, section, body);
    State::Goes(head.modules, place)
}

/// The procedure with this section, if there is one.
fn procedure_with(head: ProcedureHead, body: Body, section: Option<Section>) -> State
    ensures { result ≡ into (λ s. state_of.Goes head.modules (place_of.Procedure head.host head.line head.procedure s body)) section }
{
    match section {
        None => {
            drop(head);
            drop(body);
            State::Stops
        }
        Some(section) => procedure_goes(head, section, body),
    }
}

/// The same, where no statement stands in it.
fn before_procedure(head: ProcedureHead, body: Body, section: Option<Section>) -> State
    ensures { result
        ≡ before_body body (λ s. state_of.Goes head.modules (place_of.Procedure head.host head.line head.procedure s body)) section }
{
    if is_empty(&body) {
        procedure_with(head, body, section)
    } else {
        drop(head);
        drop(body);
        drop(section);
        State::Stops
    }
}

fn procedure_section(
    head: ProcedureHead,
    section: Section,
    body: Body,
    line: Line,
    form: SectionForm,
) -> Result<State, AllocError>
    ensures { IfOk result
        (λ s. s ≡ procedure_by head.modules head.host head.line head.procedure section body line (role_of.Section form)) }
{
    match with_form(section, line, form) {
        Err(error) => {
            drop(head);
            drop(body);
            Err(error)
        }
        Ok(section) => Ok(before_procedure(head, body, section)),
    }
}

/// The procedure with these statements, if there are such.
fn in_procedure(head: ProcedureHead, section: Section, body: Option<Body>) -> State
    ensures { result ≡ into (λ b. state_of.Goes head.modules (place_of.Procedure head.host head.line head.procedure section b)) body }
{
    match body {
        None => {
            drop(head);
            drop(section);
            State::Stops
        }
        Some(body) => procedure_goes(head, section, body),
    }
}

fn procedure_within(
    alloc: Global,
    head: ProcedureHead,
    section: Section,
    body: Body,
    line: Line,
    form: Form,
) -> Result<State, AllocError>
    ensures { IfOk result
        (λ s. s ≡ procedure_by head.modules head.host head.line head.procedure section body line (role_of.Within form)) }
{
    match body_move(alloc, true, body, line, form) {
        Err(error) => {
            drop(head);
            drop(section);
            Err(error)
        }
        Ok(body) => Ok(in_procedure(head, section, body)),
    }
}

/// One statement more in a procedure.
fn procedure_by(
    alloc: Global,
    head: ProcedureHead,
    section: Section,
    body: Body,
    line: Line,
    role: Role,
) -> Result<State, AllocError>
    ensures { IfOk result (λ s. s ≡ procedure_by head.modules head.host head.line head.procedure section body line role) }
{
    match role {
        Role::Ends(end) => procedure_ends(head, section, body, line, end),
        Role::Section(form) => procedure_section(head, section, body, line, form),
        Role::Within(form) => procedure_within(alloc, head, section, body, line, form),
        Role::Contains => {
            drop(head);
            drop(section);
            drop(body);
            Ok(State::Stops)
        }
        Role::Begins(beginning) => {
            drop(head);
            drop(section);
            drop(body);
            drop(beginning);
            Ok(State::Stops)
        }
    }
}

/// One statement more, by what it is, behind the modules that are ended and what is open.
fn place_by(
    alloc: Global,
    modules: Items<Module>,
    place: Place,
    line: Line,
    role: Role,
) -> Result<State, AllocError>
    ensures { IfOk result (λ s. s ≡ place_by modules place line role) }
{
    match place {
        Place::Start => start_by(alloc, modules, line, role),
        Place::Module(first, name, section) => {
            let head = ModuleHead {
                modules,
                line: first,
                name,
            };
            module_by(alloc, head, section, line, role)
        }
        Place::Main(opening, section, body) => {
            let head = MainHead { modules, opening };
            main_by(alloc, head, section, body, line, role)
        }
        Place::Contains(host) => contains_by(alloc, modules, host, line, role),
        Place::Procedure(host, first, procedure, section, body) => {
            let head = ProcedureHead {
                modules,
                host,
                line: first,
                procedure,
            };
            procedure_by(alloc, head, section, body, line, role)
        }
    }
}

/// One statement more behind the modules that are ended and what is open.
#[tactic(auto, using(crate::proofs::ByRole::place_role))]
pub fn place_move(
    alloc: Global,
    modules: Items<Module>,
    place: Place,
    line: Line,
    form: Form,
) -> Result<State, AllocError>
    ensures { IfOk result (λ s. s ≡ place_move modules place line form) }
{
    place_by(alloc, modules, place, line, role_of(line, form))
}
