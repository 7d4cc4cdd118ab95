//! A list of forms nested to a source, or refused by the first rule that it breaks.

ghost use Rattle.std.specs.Prelude.{◌≡◌, ◌<◌, ◌++◌, ℕ, IfOk, IfErr, OnOk};
ghost use Rattle.a95_base.specs.Breaks.{broken_at, first_of, noted};
ghost use Rattle.f95_nesting.specs.declared.open.State.TheVariants.{Goes};
ghost use Rattle.f95_nesting.specs.Nesting.{Nests, IsBroken, Refuses};
ghost use Rattle.f95_nesting.specs.Machine.{place_move, move, run, start};
ghost use Rattle.f95_nesting.specs.Breaks.{step_breaks, passed, end_breaks, breaks};
ghost use Rattle.f95_blocks.specs.Units.{noted_in_place, noted_of};

use crate::mark::{differs, end_name, is_deep, place_depth, place_name};
use crate::moves::place_move;
use a95_base::{Break, Line, PhaseError, Rule, first_of};
use f95_nesting::{Place, State};
use f95_tree::{Form, Module, Source};
use sqlite_items::Items;
use std::alloc::{AllocError, Global};

fn broken_at(line: u32, rule: Rule) -> Break
    ensures { result ≡ broken_at line rule.0 }
{
    Break { line, rule: rule.0 }
}

fn note(breaks: &mut Items<Break>, holds: bool, found: Break) -> Result<(), AllocError>
    ensures { OnOk result (breaks.new ≡ breaks.old ++ noted holds found) }
{
    if holds {
        breaks.push(found)?;
    }
    Ok(())
}

/// The rules that a statement breaks which may stand where it does.
#[tactic(auto, using(crate::proofs::Steps::noted_both))]
fn note_place(
    breaks: &mut Items<Break>,
    line: Line,
    misnamed: bool,
    deep: bool,
) -> Result<(), AllocError>
    ensures { OnOk result (breaks.new ≡ breaks.old ++ noted_in_place line misnamed deep) }
{
    note(
        breaks,
        misnamed,
        broken_at(line.0, Rule::WRONG_CONSTRUCT_NAME),
    )?;
    note(breaks, deep, broken_at(line.0, Rule::TOO_MANY_BLOCKS))
}

/// The rules that a statement breaks, by what is open behind it.
fn note_statement(
    breaks: &mut Items<Break>,
    line: Line,
    misnamed: bool,
    deep: bool,
    state: &State,
) -> Result<(), AllocError>
    ensures { OnOk result (breaks.new ≡ breaks.old ++ noted_of line misnamed deep state.now) }
{
    match state {
        State::Stops => note(breaks, true, broken_at(line.0, Rule::WRONG_NESTING)),
        State::Goes(_, _) => note_place(breaks, line, misnamed, deep),
        State::Ended(_) => note_place(breaks, line, misnamed, deep),
    }
}

/// One statement more where something is open, with what it breaks.
#[tactic(auto, using(crate::proofs::Steps::goes_breaks))]
fn goes_on(
    alloc: Global,
    modules: Items<Module>,
    place: Place,
    line: Line,
    form: Form,
    breaks: &mut Items<Break>,
) -> Result<State, AllocError>
    ensures moved { IfOk result (λ s. s ≡ place_move modules place line form) }
    ensures noted { OnOk result (breaks.new ≡ breaks.old ++ step_breaks (Goes modules place) (line, form)) }
{
    let misnamed = differs(end_name(&form), place_name(&place));
    let deep = is_deep(&form, place_depth(&place));
    let state = place_move(alloc, modules, place, line, form)?;
    match note_statement(breaks, line, misnamed, deep, &state) {
        Err(error) => {
            drop(state);
            Err(error)
        }
        Ok(()) => Ok(state),
    }
}

/// One statement more, with what it breaks.
fn next(
    alloc: Global,
    state: State,
    line: Line,
    form: Form,
    breaks: &mut Items<Break>,
) -> Result<State, AllocError>
    ensures moved { IfOk result (λ s. s ≡ move state line form) }
    ensures noted { OnOk result (breaks.new ≡ breaks.old ++ step_breaks state (line, form)) }
{
    match state {
        State::Goes(modules, place) => goes_on(alloc, modules, place, line, form, breaks),
        State::Ended(source) => {
            drop(source);
            drop(form);
            note(breaks, true, broken_at(line.0, Rule::WRONG_NESTING))?;
            Ok(State::Stops)
        }
        State::Stops => {
            drop(form);
            Ok(State::Stops)
        }
    }
}

/// What forms nest to so far, and all that they break.
#[derive(Drop)]
struct Passed {
    state: State,
    breaks: Items<Break>,
}

#[tactic(auto, using(crate::proofs::Steps::run_end, crate::proofs::Steps::run_step, crate::proofs::Steps::passed_end, crate::proofs::Steps::passed_step))]
fn pass_all(alloc: Global, forms: Vec<(Line, Form)>) -> Result<Passed, AllocError>
    ensures run { IfOk result (λ p. p.state ≡ run start forms.items) }
    ensures breaks { IfOk result (λ p. p.breaks ≡ passed start forms.items) }
{
    let mut state = State::Goes(Items::new(alloc), Place::Start);
    let mut breaks = Items::new(alloc);
    for lined in forms {
        let (line, form) = lined;
        state = match next(alloc, state, line, form, &mut breaks) {
            Ok(state) => state,
            Err(error) => {
                drop(breaks);
                return Err(error);
            }
        };
    }
    Ok(Passed { state, breaks })
}

/// The rule that is broken at the end of the file.
fn note_end(breaks: &mut Items<Break>, feeds: u32, state: &State) -> Result<(), AllocError>
    requires { feeds < 4294967295 }
    ensures { OnOk result (breaks.new ≡ breaks.old ++ end_breaks feeds state.now) }
{
    match state {
        State::Goes(_, _) => note(breaks, true, broken_at(feeds + 1, Rule::NO_END)),
        State::Ended(_) => Ok(()),
        State::Stops => Ok(()),
    }
}

/// What forms nest to, and the first rule that they break.
#[derive(Drop)]
struct Judged {
    state: State,
    first: Option<Break>,
}

fn judge(alloc: Global, forms: Vec<(Line, Form)>, feeds: u32) -> Result<Judged, AllocError>
    requires { feeds < 4294967295 }
    ensures run { IfOk result (λ j. j.state ≡ run start forms.items) }
    ensures first { IfOk result (λ j. first_of (breaks forms.items feeds) ≡ j.first) }
{
    let Passed { state, mut breaks } = pass_all(alloc, forms)?;
    if let Err(error) = note_end(&mut breaks, feeds, &state) {
        drop(state);
        drop(breaks);
        return Err(error);
    }
    let first = first_of(breaks.as_slice());
    drop(breaks);
    Ok(Judged { state, first })
}

/// The forms nested to a source. A refusal says the first line on which a rule of this phase is broken, and the least rule that is
/// broken there: rule 14 where the statements up to this one begin no nesting, 15 where a name differs from that of its opening, 16
/// where more than 64 blocks are open, and 17 on the line after the last where the main program doesn't end. `feeds` is the number
/// of line feeds in the file.
#[tactic(auto, using(crate::proofs::Steps::none_goes, crate::proofs::Steps::none_stops, crate::proofs::Steps::none_broken, crate::proofs::Steps::first_refuses, f95_nesting::proofs::Exact::read_nests))]
pub fn nest(alloc: Global, forms: Vec<(Line, Form)>, feeds: u32) -> Result<Source, PhaseError>
    requires { feeds < 4294967295 }
    ensures nested { IfOk result (λ s. Nests forms.items s) }
    ensures unbroken { OnOk result ((line rule : ℕ) → IsBroken forms.items feeds line rule → ⊥) }
    ensures refused { IfErr result (Refuses forms.items feeds) }
{
    let Judged { state, first } = judge(alloc, forms, feeds)?;
    match first {
        Some(first) => {
            drop(state);
            Err(PhaseError::Broken {
                line: Line(first.line),
                rule: Rule(first.rule),
            })
        }
        None => match state {
            State::Ended(source) => Ok(source),
            State::Goes(_, _) => unreachable!(),
            State::Stops => unreachable!(),
        },
    }
}
