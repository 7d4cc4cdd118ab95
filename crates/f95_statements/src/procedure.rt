//! Statements that begin procedures, as `specs/Declarations` says.

ghost use Rattle.std.specs.Prelude.{◌≡◌, [], ◌∷◌, true, false, ◌&&◌, IfOk, MatchOption, option_map, option_and_then, map, reverse};
ghost use Rattle.f95_tree.specs.WellFormed.{distinct, is_among, prefix_kind, well_heading};
ghost use Rattle.f95_expressions.specs.Machine.{bracket};
ghost use Rattle.f95_parts.specs.Views.{behind_keyword, nothing_more};
ghost use Rattle.f95_statements.specs.Actions.{whole_bracket};
ghost use Rattle.f95_statements.specs.Declarations.{names_in, dummies_of, subroutine_of, result_name, result_of, function_in};
ghost use Rattle.f95_statements.specs.Declarations.{function_of, heading_by, prefix_word, as_prefix, prefixes_of, next_prefix};
ghost use Rattle.f95_statements.specs.Declarations.{kept, procedure, headed_procedure, procedure_behind, typed_procedure};
ghost use Rattle.f95_statements.specs.Declarations.{procedure_keyed, procedure_from, procedure_of, is_keyed, typed_form};

use crate::action::whole_bracket;
use crate::declaration::{Typed, declaration_of, type_of};
use a95_base::{SharedBytes, Stack};
use f95_expressions::{Field, within};
use f95_fields::{Closed, bracket};
use f95_parts::{
    Keyed, Named, behind, behind_keyword, behind_name, behind_word, collected, is_nil, parted,
};
use f95_tree::{
    Form, Heading, Keyword, Prefix, PrefixWord, Procedure, Punctuation, Terminal, UnitForm,
    UnitWord,
};
use sqlite_items::{Boxed, Items};
use std::alloc::{AllocError, Global};

fn names_in(alloc: Global, fields: Stack<Field>) -> Result<Option<Items<SharedBytes>>, AllocError>
    ensures { IfOk result (λ names. names ≡ names_in fields) }
{
    let fields = within(fields)?;
    collected(alloc, fields)
}

fn dummies_of(
    alloc: Global,
    terminals: &[Terminal],
) -> Result<Option<Option<Items<SharedBytes>>>, AllocError>
    ensures { IfOk result (λ dummies. dummies ≡ dummies_of terminals.now) }
{
    if is_nil(terminals) {
        return Ok(Some(None));
    }
    let Some(fields) = whole_bracket(alloc, terminals)? else {
        return Ok(None);
    };
    match names_in(alloc, fields)? {
        None => Ok(None),
        Some(names) => Ok(Some(Some(names))),
    }
}

fn subroutine_of(alloc: Global, named: Named<'_>) -> Result<Option<Heading>, AllocError>
    ensures { IfOk result (λ heading. heading ≡ subroutine_of (named.entry.name.now, named.entry.rest.now)) }
{
    let name = named.name.share()?;
    match dummies_of(alloc, named.rest) {
        Ok(Some(dummies)) => Ok(Some(Heading::Subroutine(name, dummies))),
        Ok(None) => {
            drop(name);
            Ok(None)
        }
        Err(error) => {
            drop(name);
            Err(error)
        }
    }
}

/// The name in `RESULT ( name )`.
fn result_name(terminals: &[Terminal]) -> Option<&SharedBytes>
    ensures { option_map (λ name. name.now) result ≡ result_name terminals.now }
{
    let open = behind_word(b"result", terminals)?;
    let inside = behind(Punctuation::Open, open)?;
    let named = behind_name(inside)?;
    let rest = behind(Punctuation::Close, named.rest)?;
    if is_nil(rest) { Some(named.name) } else { None }
}

fn result_of(terminals: &[Terminal]) -> Result<Option<Option<SharedBytes>>, AllocError>
    ensures { IfOk result (λ name. name ≡ result_of terminals.now) }
{
    if is_nil(terminals) {
        return Ok(Some(None));
    }
    match result_name(terminals) {
        None => Ok(None),
        Some(name) => {
            let name = name.share()?;
            Ok(Some(Some(name)))
        }
    }
}

/// A function's heading, of its parts.
fn function_heading(
    name: &SharedBytes,
    dummies: Items<SharedBytes>,
    outcome: Option<SharedBytes>,
) -> Result<Heading, AllocError>
    ensures { IfOk result (λ heading. heading ≡ Heading.Function name.now dummies outcome) }
{
    match name.share() {
        Ok(name) => Ok(Heading::Function(name, dummies, outcome)),
        Err(error) => {
            drop(dummies);
            drop(outcome);
            Err(error)
        }
    }
}

fn function_of(alloc: Global, named: Named<'_>) -> Result<Option<Heading>, AllocError>
    ensures { IfOk result (λ heading. heading ≡ function_of (named.entry.name.now, named.entry.rest.now)) }
{
    let Some(inside) = behind(Punctuation::Open, named.rest) else {
        return Ok(None);
    };
    let Some(Closed { fields, rest }) = bracket(alloc, inside)? else {
        return Ok(None);
    };
    let Some(dummies) = names_in(alloc, fields)? else {
        return Ok(None);
    };
    match result_of(rest) {
        Ok(Some(outcome)) => {
            let heading = function_heading(named.name, dummies, outcome)?;
            Ok(Some(heading))
        }
        Ok(None) => {
            drop(dummies);
            Ok(None)
        }
        Err(error) => {
            drop(dummies);
            Err(error)
        }
    }
}

fn heading_by(
    alloc: Global,
    word: UnitWord,
    terminals: &[Terminal],
) -> Result<Option<Heading>, AllocError>
    ensures { IfOk result (λ heading. heading ≡ heading_by word terminals.now) }
{
    match word {
        UnitWord::Subroutine => match behind_name(terminals) {
            None => Ok(None),
            Some(named) => subroutine_of(alloc, named),
        },
        UnitWord::Function => match behind_name(terminals) {
            None => Ok(None),
            Some(named) => function_of(alloc, named),
        },
        UnitWord::Program => Ok(None),
        UnitWord::Module => Ok(None),
    }
}

fn prefix_word(word: PrefixWord) -> Prefix
    ensures { result ≡ prefix_word word }
{
    match word {
        PrefixWord::Recursive => Prefix::Recursive,
        PrefixWord::Pure => Prefix::Pure,
        PrefixWord::Elemental => Prefix::Elemental,
    }
}

/// Prefixes, the newest one first, and what stands behind them.
#[derive(Drop)]
struct Prefixed<'a> {
    prefixes: Stack<Prefix>,
    rest: &'a [Terminal],
}

/// A prefix that is a word, and what stands behind it.
#[derive(Drop)]
struct Worded<'a> {
    prefix: Prefix,
    rest: &'a [Terminal],
}

fn next_prefix(terminals: &[Terminal]) -> Option<Worded<'_>>
    ensures { option_map (λ w. (w.prefix, w.rest.now)) result ≡ next_prefix terminals.now }
{
    match parted(terminals) {
        Some((Terminal::Keyword(Keyword::Prefix(word)), rest)) => Some(Worded {
            prefix: prefix_word(*word),
            rest,
        }),
        _ => None,
    }
}

/// All prefixes that are words, before others.
#[tactic(auto, using(crate::proofs::PrefixSteps::prefix_step, crate::proofs::PrefixSteps::prefix_stop, crate::proofs::PrefixSteps::shorter))]
fn prefixes_of<'a>(
    prefixes: Stack<Prefix>,
    terminals: &'a [Terminal],
) -> Result<Prefixed<'a>, AllocError>
    ensures { IfOk result (λ p. (p.prefixes, p.rest.now) ≡ prefixes_of prefixes terminals.now) }
{
    let mut prefixes = prefixes;
    let mut rest = terminals;
    'taking: while let Some(next) = next_prefix(rest) {
        if let Err(error) = prefixes.push(next.prefix) {
            drop(prefixes);
            return Err(error);
        }
        rest = next.rest;
    }
    Ok(Prefixed { prefixes, rest })
}

fn prefix_kind(prefix: &Prefix) -> u8
    ensures { result ≡ prefix_kind prefix.now }
{
    match prefix {
        Prefix::Recursive => 0,
        Prefix::Pure => 1,
        Prefix::Elemental => 2,
        Prefix::Type(_) => 3,
    }
}

fn has_kind(prefixes: &[Prefix], kind: u8) -> bool
    ensures { result ≡ is_among (map prefix_kind prefixes.now) kind }
{
    for prefix in prefixes {
        if prefix_kind(prefix) == kind {
            return true;
        }
    }
    false
}

fn first_prefix(prefixes: &[Prefix]) -> Option<(&Prefix, &[Prefix])>
    ensures { MatchOption result (prefixes.now ≡ []) (λ p. prefixes.now ≡ p.0.now ∷ p.1.now) }
{
    prefixes.split_first()
}

/// Whether no kind of prefix stands twice.
fn distinct(prefixes: &[Prefix]) -> bool
    ensures { result ≡ distinct (map prefix_kind prefixes.now) }
{
    let mut rest = prefixes;
    'comparing: while let Some((first, more)) = first_prefix(rest) {
        if has_kind(more, prefix_kind(first)) {
            return false;
        }
        rest = more;
    }
    true
}

fn well_heading(prefixes: &[Prefix], heading: &Heading) -> bool
    ensures { result ≡ well_heading (map prefix_kind prefixes.now) heading.now }
{
    match heading {
        Heading::Subroutine(..) => !has_kind(prefixes, 3),
        Heading::Function(..) => true,
    }
}

fn is_kept(prefixes: &[Prefix], heading: &Heading) -> bool
    ensures { result ≡ distinct (map prefix_kind prefixes.now) && well_heading (map prefix_kind prefixes.now) heading.now }
{
    distinct(prefixes) && well_heading(prefixes, heading)
}

/// Each prefix at most once, and a type before FUNCTION alone.
fn kept(prefixes: Items<Prefix>, heading: Heading) -> Option<Procedure>
    ensures { result ≡ kept (procedure prefixes heading) }
{
    if is_kept(prefixes.as_slice(), &heading) {
        Some(Procedure { prefixes, heading })
    } else {
        drop(prefixes);
        drop(heading);
        None
    }
}

/// What stands behind UNIT words, with all prefixes before.
fn headed(
    alloc: Global,
    prefixes: Stack<Prefix>,
    word: UnitWord,
    rest: &[Terminal],
) -> Result<Option<Procedure>, AllocError>
    ensures { IfOk result (λ p. p ≡ option_and_then (λ h. kept (procedure (reverse prefixes) h)) (heading_by word rest.now)) }
{
    match heading_by(alloc, word, rest) {
        Ok(Some(heading)) => Ok(kept(prefixes.into_reversed(), heading)),
        Ok(None) => {
            drop(prefixes);
            Ok(None)
        }
        Err(error) => {
            drop(prefixes);
            Err(error)
        }
    }
}

fn procedure_behind(alloc: Global, prefixed: Prefixed<'_>) -> Result<Option<Procedure>, AllocError>
    ensures { IfOk result (λ p. p ≡ procedure_behind (prefixed.entry.prefixes, prefixed.entry.rest.now)) }
{
    let Prefixed { prefixes, rest } = prefixed;
    let Some(Keyed { keyword, rest }) = behind_keyword(rest) else {
        drop(prefixes);
        return Ok(None);
    };
    match keyword {
        Keyword::Unit(word) => headed(alloc, prefixes, word, rest),
        _ => {
            drop(prefixes);
            Ok(None)
        }
    }
}

/// A type that is a prefix, behind others, and what stands behind it.
fn typed_procedure(
    alloc: Global,
    prefixes: Stack<Prefix>,
    typed: Typed<'_>,
) -> Result<Option<Procedure>, AllocError>
    ensures { IfOk result (λ p. p ≡ typed_procedure prefixes (typed.entry.of, typed.entry.rest.now)) }
{
    let Typed { of, rest } = typed;
    let mut prefixes = prefixes;
    if let Err(error) = prefixes.push(Prefix::Type(of)) {
        drop(prefixes);
        return Err(error);
    }
    let prefixed = prefixes_of(prefixes, rest)?;
    procedure_behind(alloc, prefixed)
}

fn procedure_from(alloc: Global, prefixed: Prefixed<'_>) -> Result<Option<Procedure>, AllocError>
    ensures { IfOk result (λ p. p ≡ procedure_from (prefixed.entry.prefixes, prefixed.entry.rest.now)) }
{
    let Prefixed { prefixes, rest } = prefixed;
    let Some(Keyed { keyword, rest }) = behind_keyword(rest) else {
        drop(prefixes);
        return Ok(None);
    };
    match keyword {
        Keyword::Type(word) => match type_of(alloc, word, rest) {
            Ok(Some(typed)) => typed_procedure(alloc, prefixes, typed),
            Ok(None) => {
                drop(prefixes);
                Ok(None)
            }
            Err(error) => {
                drop(prefixes);
                Err(error)
            }
        },
        Keyword::Unit(word) => headed(alloc, prefixes, word, rest),
        _ => {
            drop(prefixes);
            Ok(None)
        }
    }
}

/// The statement that begins a procedure, where all these terminals are one and a type doesn't stand first.
pub fn procedure_of(alloc: Global, terminals: &[Terminal]) -> Result<Option<Procedure>, AllocError>
    ensures { IfOk result (λ p. p ≡ procedure_of terminals.now) }
{
    let prefixed = prefixes_of(Stack::new(alloc), terminals)?;
    procedure_from(alloc, prefixed)
}

/// A declaration, or a function with its type first.
pub fn typed_form(alloc: Global, typed: Typed<'_>) -> Result<Option<Form>, AllocError>
    ensures { IfOk result (λ form. form ≡ typed_form (typed.entry.of, typed.entry.rest.now)) }
{
    if behind_keyword(typed.rest).is_some() {
        return match typed_procedure(alloc, Stack::new(alloc), typed)? {
            None => Ok(None),
            Some(procedure) => {
                let procedure = Boxed::new(alloc, procedure)?;
                Ok(Some(Form::Unit(UnitForm::Procedure(procedure))))
            }
        };
    }
    let Typed { of, rest } = typed;
    match declaration_of(alloc, of, rest)? {
        None => Ok(None),
        Some(declaration) => Ok(Some(Form::Declaration(Boxed::new(alloc, declaration)?))),
    }
}
