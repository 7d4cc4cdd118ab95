//! Reads nested forms: the unit that they are, or the rules that they break (`specs/Reading.antt`). What is broken is noted one
//! statement after another (`specs/Noting.antt`), and the first of it is told.
ghost use Rattle.std.specs.Prelude.{◌≡◌, ◌++◌, ◌<◌, ◌^◌, ◌≤◌, [], map, fold, nat_lt, is_some, Some, IfOk, IfErr, OnOk};
ghost use Rattle.std.specs.List.{flat_map};
ghost use Rattle.a95_base.specs.Breaks.{broken_at, first_of, noted};
ghost use Rattle.a95_base.specs.Limits.{most_elements};
ghost use Rattle.a95_base.specs.Lists.{Every};
ghost use Rattle.rank_one.specs.Conditions.{place_of};
ghost use Rattle.rank_one.specs.Forms.{arrays_in, named_in, statement_line};
ghost use Rattle.rank_one.specs.Noting.{not_yet_at, is_refused, symbols_breaks, arrays_breaks, declarations_breaks};
ghost use Rattle.rank_one.specs.Noting.{statement_breaks, implicit_breaks, procedures_breaks, module_break, use_break};
ghost use Rattle.rank_one.specs.Noting.{around_breaks, not_yet_breaks, names_breaks, action_breaks, name_breaks, undeclared_breaks};
ghost use Rattle.rank_one.specs.Reading.{symbol_on, with_symbol, symbols_in, declared_in, symbols_of, statement_in, acted, unit_of};
ghost use Rattle.rank_one.specs.Reading.{LineFits, StatementFits, Fits, IsUnit, refusal_of, told, RefusesForm, RefusesNames};
ghost use Rattle.rank_one.specs.Typed.{IsTyped, size_of};
ghost use Rattle.rank_one.specs.Sizes.{terminals_in};

use crate::failure::Failure;
use crate::form::{NamedAction, NamedArray};
use crate::name::Name;
use crate::symbols::{Symbol, Symbols};
use crate::unit::{Array, Unit};
use crate::{forms, resolve, unit};
use a95_base::{Break, Line, MOST_ELEMENTS, PhaseError, Rule, SharedBytes, first_of};
use f95_tree::{Action, Declaration, Main, Module, Source, Statement, Subprogram};
use sqlite_items::Items;
use std::alloc::{AllocError, Global};

fn note(breaks: &mut Items<Break>, holds: bool, line: u32, rule: Rule) -> Result<(), AllocError>
    ensures { OnOk result (breaks.new ≡ breaks.old ++ noted holds (broken_at line rule.0)) }
{
    if holds {
        breaks.push(Break { line, rule: rule.0 })?;
    }
    Ok(())
}

fn note_modules(breaks: &mut Items<Break>, modules: &[Module]) -> Result<(), AllocError>
    ensures { OnOk result (breaks.new ≡ breaks.old ++ map module_break modules.now) }
{
    for module in modules {
        note(breaks, true, module.line.0, Rule::NOT_YET)?;
    }
    Ok(())
}

fn note_uses(
    breaks: &mut Items<Break>,
    uses: &[(Line, SharedBytes, Option<Items<SharedBytes>>)],
) -> Result<(), AllocError>
    ensures { OnOk result (breaks.new ≡ breaks.old ++ map use_break uses.now) }
{
    for used in uses {
        note(breaks, true, used.0.0, Rule::NOT_YET)?;
    }
    Ok(())
}

fn note_implicit(breaks: &mut Items<Break>, implicit: Option<Line>) -> Result<(), AllocError>
    ensures { OnOk result (breaks.new ≡ breaks.old ++ implicit_breaks implicit) }
{
    match implicit {
        None => Ok(()),
        Some(line) => note(breaks, true, line.0, Rule::NOT_YET),
    }
}

fn note_procedures(
    breaks: &mut Items<Break>,
    procedures: &Option<(Line, Items<Subprogram>)>,
) -> Result<(), AllocError>
    ensures { OnOk result (breaks.new ≡ breaks.old ++ procedures_breaks procedures.now) }
{
    match procedures {
        None => Ok(()),
        Some(contains) => note(breaks, true, contains.0.0, Rule::NOT_YET),
    }
}

/// Notes what stands around the declarations and the statements.
fn note_around(alloc: Global, source: &Source) -> Result<Items<Break>, AllocError>
    ensures { IfOk result (λ breaks. breaks ≡ around_breaks source.now) }
{
    let mut breaks = Items::new(alloc);
    note_modules(&mut breaks, source.modules.as_slice())?;
    note_uses(&mut breaks, source.main.section.uses.as_slice())?;
    note_implicit(&mut breaks, source.main.section.implicit)?;
    note_procedures(&mut breaks, &source.main.procedures)?;
    Ok(breaks)
}

fn is_too_large(extent: u32) -> bool
    ensures { result ≡ nat_lt most_elements extent }
{
    extent > MOST_ELEMENTS
}

/// Declares an array, unless its name is declared.
fn declare_if<'a>(
    symbols: &mut Symbols<'a>,
    line: u32,
    array: &NamedArray<'a>,
    declared: bool,
) -> Result<(), AllocError>
    requires { declared ≡ is_some (place_of symbols.old array.now.name) }
    ensures { OnOk result (symbols.new ≡ with_symbol symbols.old (symbol_on line array.now)) }
{
    if declared {
        return Ok(());
    }
    symbols.push(Symbol {
        name: Name::new(array.name.as_slice()),
        array: Array {
            line,
            extent: array.extent,
        },
    })
}

fn declare_one<'a>(
    symbols: &mut Symbols<'a>,
    breaks: &mut Items<Break>,
    line: u32,
    array: &NamedArray<'a>,
) -> Result<(), AllocError>
    ensures symbols { OnOk result (symbols.new ≡ with_symbol symbols.old (symbol_on line array.now)) }
    ensures breaks { OnOk result (breaks.new ≡ breaks.old ++ noted (is_refused symbols.old (symbol_on line array.now)) (not_yet_at line)) }
{
    let declared = symbols.place(array.name.as_slice()).is_some();
    let refused = declared || is_too_large(array.extent);
    note(breaks, refused, line, Rule::NOT_YET)?;
    declare_if(symbols, line, array, declared)
}

fn declare_all<'a>(
    symbols: &mut Symbols<'a>,
    breaks: &mut Items<Break>,
    line: u32,
    arrays: &[NamedArray<'a>],
) -> Result<(), AllocError>
    ensures symbols { OnOk result (symbols.new ≡ fold with_symbol symbols.old (map (symbol_on line) arrays.now)) }
    ensures breaks { OnOk result (breaks.new ≡ breaks.old ++ symbols_breaks symbols.old (map (symbol_on line) arrays.now)) }
{
    for array in arrays {
        declare_one(symbols, breaks, line, array)?;
    }
    Ok(())
}

fn declare<'a>(
    alloc: Global,
    symbols: &mut Symbols<'a>,
    breaks: &mut Items<Break>,
    declared: &'a (Line, Declaration),
) -> Result<(), AllocError>
    ensures symbols { OnOk result (symbols.new ≡ fold with_symbol symbols.old (symbols_in declared.now)) }
    ensures breaks { OnOk result (breaks.new ≡ breaks.old ++ arrays_breaks symbols.old declared.now.0.0 (arrays_in declared.now.1)) }
    ensures line { LineFits declared.now }
{
    let line = declared.0.0;
    match forms::declaration(alloc, &declared.1) {
        Ok(arrays) => declare_all(symbols, breaks, line, arrays.as_slice()),
        Err(Failure::OtherForm) => note(breaks, true, line, Rule::NOT_YET),
        Err(Failure::Memory) => Err(AllocError),
    }
}

fn declarations<'a>(
    alloc: Global,
    symbols: &mut Symbols<'a>,
    breaks: &mut Items<Break>,
    declarations: &'a [(Line, Declaration)],
) -> Result<(), AllocError>
    ensures symbols { OnOk result (symbols.new ≡ fold with_symbol symbols.old (declared_in declarations.now)) }
    ensures breaks { OnOk result (breaks.new ≡ breaks.old ++ declarations_breaks symbols.old declarations.now) }
    ensures lines { OnOk result (Every LineFits declarations.now) }
{
    for declared in declarations {
        declare(alloc, symbols, breaks, declared)?;
    }
    Ok(())
}

/// What has been read of the statements.
#[derive(Drop)]
struct Acts {
    statements: Items<unit::Statement>,
    not_yet: Items<Break>,
    undeclared: Items<Break>,
}

impl Acts {
    fn add(
        &mut self,
        alloc: Global,
        symbols: &Symbols<'_>,
        line: u32,
        action: &NamedAction<'_>,
    ) -> Result<(), AllocError>
        ensures statements { OnOk result (self.new.statements ≡ self.old.statements ++ acted symbols.now line (Some action.now)) }
        ensures not_yet { OnOk result (self.new.not_yet ≡ self.old.not_yet ++ action_breaks symbols.now line (Some action.now)) }
        ensures undeclared { OnOk result (self.new.undeclared ≡ self.old.undeclared ++ name_breaks symbols.now line (Some action.now)) }
    {
        let resolved = resolve::action(alloc, symbols, action)?;
        let conforming = resolved.conforming;
        let declared = resolved.declared;
        note(&mut self.not_yet, !conforming, line, Rule::NOT_YET)?;
        note(&mut self.undeclared, !declared, line, Rule::UNDECLARED)?;
        self.statements.push(unit::Statement {
            line,
            action: resolved.action,
        })?;
        Ok(())
    }

    fn act(
        &mut self,
        alloc: Global,
        symbols: &Symbols<'_>,
        statement: &Statement,
    ) -> Result<(), AllocError>
        ensures statements { OnOk result (self.new.statements ≡ self.old.statements ++ statement_in symbols.now statement.now) }
        ensures not_yet { OnOk result (self.new.not_yet ≡ self.old.not_yet ++ statement_breaks symbols.now statement.now) }
        ensures undeclared { OnOk result (self.new.undeclared ≡ self.old.undeclared ++ names_breaks symbols.now statement.now) }
        ensures line { StatementFits statement.now }
    {
        let line = forms::line(statement);
        match forms::statement(alloc, statement) {
            Ok(action) => self.add(alloc, symbols, line, &action),
            Err(Failure::OtherForm) => note(&mut self.not_yet, true, line, Rule::NOT_YET),
            Err(Failure::Memory) => Err(AllocError),
        }
    }

    /// Goes on to all statements. Each is gone once it is noted, since its tree takes more memory than what it becomes.
    #[tactic(auto, using(crate::proofs::Acting::goes_on, crate::proofs::Acting::stays, crate::proofs::Acting::fits_on))]
    fn act_all(
        &mut self,
        alloc: Global,
        symbols: &Symbols<'_>,
        body: Items<Statement>,
    ) -> Result<(), AllocError>
        ensures statements { OnOk result (self.new.statements ≡ self.old.statements ++ flat_map (statement_in symbols.now) body) }
        ensures not_yet { OnOk result (self.new.not_yet ≡ self.old.not_yet ++ flat_map (statement_breaks symbols.now) body) }
        ensures undeclared { OnOk result (self.new.undeclared ≡ self.old.undeclared ++ flat_map (names_breaks symbols.now) body) }
        ensures lines { OnOk result (Every StatementFits body) }
    {
        let mut left = body;
        for at in 0..left.len() {
            self.act(alloc, symbols, &left.as_slice()[at])?;
            left.set(at, Statement::Action(Line(0), Action::Continue));
        }
        Ok(())
    }
}

/// The unit that a source is, by what has been noted.
#[derive(Drop)]
struct Judged {
    unit: Unit,
    not_yet: Items<Break>,
    undeclared: Items<Break>,
}

fn judge(alloc: Global, source: Source) -> Result<Judged, AllocError>
    ensures unit { IfOk result (λ j. j.unit ≡ unit_of source) }
    ensures not_yet { IfOk result (λ j. j.not_yet ≡ not_yet_breaks source) }
    ensures undeclared { IfOk result (λ j. j.undeclared ≡ undeclared_breaks source) }
    ensures fits { IfOk result (λ j. Fits source) }
{
    let mut not_yet = match note_around(alloc, &source) {
        Ok(not_yet) => not_yet,
        Err(error) => {
            drop(source);
            return Err(error);
        }
    };
    let Source { modules, main } = source;
    let Main {
        opening,
        section,
        body,
        procedures,
        end,
    } = main;
    drop(modules);
    drop(opening);
    drop(procedures);
    drop(end);
    let mut symbols = Symbols::new(alloc);
    let declared = section.declarations.as_slice();
    if let Err(error) = declarations(alloc, &mut symbols, &mut not_yet, declared) {
        drop(body);
        return Err(error);
    }
    let mut acts = Acts {
        statements: Items::new(alloc),
        not_yet,
        undeclared: Items::new(alloc),
    };
    acts.act_all(alloc, &symbols, body)?;
    let arrays = symbols.arrays(alloc)?;
    let Acts {
        statements,
        not_yet,
        undeclared,
    } = acts;
    Ok(Judged {
        unit: Unit { arrays, statements },
        not_yet,
        undeclared,
    })
}

fn refusal(first: Break) -> PhaseError
    ensures { result ≡ refusal_of first }
{
    PhaseError::Broken {
        line: Line(first.line),
        rule: Rule(first.rule),
    }
}

/// The first of what is broken, or the unit.
fn tell(judged: Judged) -> Result<Result<Unit, PhaseError>, PhaseError>
    ensures { result ≡ told (first_of judged.not_yet) (first_of judged.undeclared) judged.unit }
{
    if let Some(first) = first_of(judged.not_yet.as_slice()) {
        return Err(refusal(first));
    }
    if let Some(first) = first_of(judged.undeclared.as_slice()) {
        return Ok(Err(refusal(first)));
    }
    Ok(Ok(judged.unit))
}

/// The unit that a source is. An error of the third phase is outside: what isn't built yet, or no memory. One of the fourth is
/// inside: a name that isn't declared, where all is built.
pub fn unit_of(alloc: Global, source: Source) -> Result<Result<Unit, PhaseError>, PhaseError>
    ensures unit { IfOk result (λ named. IfOk named (λ u. IsUnit source u)) }
    ensures typed { IfOk result (λ named. IfOk named (λ u. IsTyped u)) }
    ensures size { IfOk result (λ named. IfOk named (λ u. size_of u ≤ terminals_in source)) }
    ensures names { IfOk result (λ named. IfErr named (λ e. RefusesNames source e)) }
    ensures form { IfErr result (λ e. RefusesForm source e) }
{
    let judged = judge(alloc, source)?;
    tell(judged)
}
