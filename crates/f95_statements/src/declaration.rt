//! Types, attributes and declarations, as `specs/Declarations` says.

ghost use Rattle.std.specs.Prelude.{◌≡◌, [], ◌∷◌, IfOk, option_map, option_and_then};
ghost use Rattle.f95_expressions.specs.Machine.{collected, bracket, row, items_of};
ghost use Rattle.f95_parts.specs.Parts.{entity_of, dims_of};
ghost use Rattle.f95_statements.specs.Actions.{only};
ghost use Rattle.f95_statements.specs.Declarations.{keyed_of, given_length, given_in, behind_len, behind_any, length_inside};
ghost use Rattle.f95_statements.specs.Declarations.{as_number, starred_length, length_at, type_of, intent_named, behind_both};
ghost use Rattle.f95_statements.specs.Declarations.{intent_at, one_word, intent_of, dimension_of, attribute_named, next_attribute};
ghost use Rattle.f95_statements.specs.Declarations.{attributes_of, entities_of, no_initials, bare, declared, declaration_of};

use crate::action::only;
use a95_base::Stack;
use f95_expressions::{Field, items_of, whole};
use f95_fields::{Closed, bracket, row};
use f95_parts::{
    Named, behind, behind_name, behind_star, behind_word, collected, dims_of, is, parted,
    spread_expression,
};
use f95_tree::{
    Attribute, Declaration, Entity, Expression, Intent, Length, Literal, Punctuation, Terminal,
    TypeSpec, TypeWord,
};
use sqlite_items::Items;
use std::alloc::{AllocError, Global};

/// Whether `LEN =` stands before a length.
fn keyed_of(left: Option<Expression>) -> Option<bool>
    ensures { result ≡ keyed_of left }
{
    match left {
        None => Some(false),
        Some(left) => {
            let name = whole(left)?;
            let is_len = is(b"len", name.as_slice());
            drop(name);
            if is_len { Some(true) } else { None }
        }
    }
}

fn given_length(field: Field) -> Option<Length>
    ensures { result ≡ given_length field }
{
    let Field { left, spread } = field;
    let Some(keyed) = keyed_of(left) else {
        drop(spread);
        return None;
    };
    let length = spread_expression(spread)?;
    Some(Length::Given(keyed, length))
}

/// A length and what stands behind it.
#[derive(Drop)]
pub struct Measured<'a> {
    pub length: Length,
    pub rest: &'a [Terminal],
}

fn given_in(closed: Closed<'_>) -> Option<Measured<'_>>
    ensures { option_map (λ m. (m.length, m.rest.now)) result ≡ given_in (closed.entry.fields, closed.entry.rest.now) }
{
    let Closed { fields, rest } = closed;
    let length = given_length(only(fields)?)?;
    Some(Measured { length, rest })
}

/// What stands behind `LEN =`.
fn behind_len(terminals: &[Terminal]) -> Option<&[Terminal]>
    ensures { option_map (λ rest. rest.now) result ≡ behind_len terminals.now }
{
    let assign = behind_word(b"len", terminals)?;
    behind(Punctuation::Assign, assign)
}

/// What stands behind a star and a closing bracket.
fn behind_any(terminals: &[Terminal]) -> Option<&[Terminal]>
    ensures { option_map (λ rest. rest.now) result ≡ behind_any terminals.now }
{
    let close = behind_star(terminals)?;
    behind(Punctuation::Close, close)
}

fn behind_len_any(terminals: &[Terminal]) -> Option<&[Terminal]>
    ensures { option_map (λ rest. rest.now) result ≡ option_and_then behind_any (behind_len terminals.now) }
{
    let star = behind_len(terminals)?;
    behind_any(star)
}

/// What stands in the brackets of a length, and behind them.
fn length_inside(alloc: Global, terminals: &[Terminal]) -> Result<Option<Measured<'_>>, AllocError>
    ensures { IfOk result (λ found. option_map (λ m. (m.length, m.rest.now)) found ≡ length_inside terminals.now) }
{
    if let Some(rest) = behind_any(terminals) {
        let length = Length::Assumed(false);
        return Ok(Some(Measured { length, rest }));
    }
    if let Some(rest) = behind_len_any(terminals) {
        let length = Length::Assumed(true);
        return Ok(Some(Measured { length, rest }));
    }
    match bracket(alloc, terminals)? {
        None => Ok(None),
        Some(closed) => Ok(given_in(closed)),
    }
}

fn as_number(literal: &Literal) -> Option<i32>
    ensures { result ≡ as_number literal.now }
{
    match literal {
        Literal::Number(number) => Some(*number),
        _ => None,
    }
}

fn starred_length(terminals: &[Terminal]) -> Option<Measured<'_>>
    ensures { option_map (λ m. (m.length, m.rest.now)) result ≡ starred_length terminals.now }
{
    match parted(terminals) {
        Some((Terminal::Literal(literal), rest)) => {
            let number = as_number(literal)?;
            let length = Length::Number(number);
            Some(Measured { length, rest })
        }
        _ => None,
    }
}

/// The length behind CHARACTER, and what stands behind it.
fn length_at(alloc: Global, terminals: &[Terminal]) -> Result<Option<Measured<'_>>, AllocError>
    ensures { IfOk result (λ found. option_map (λ m. (m.length, m.rest.now)) found ≡ length_at terminals.now) }
{
    if let Some(number) = behind_star(terminals) {
        return Ok(starred_length(number));
    }
    match behind(Punctuation::Open, terminals) {
        Some(inside) => length_inside(alloc, inside),
        None => Ok(Some(Measured {
            length: Length::One,
            rest: terminals,
        })),
    }
}

/// A type and what stands behind it.
#[derive(Drop)]
pub struct Typed<'a> {
    pub of: TypeSpec,
    pub rest: &'a [Terminal],
}

pub fn type_of(
    alloc: Global,
    word: TypeWord,
    terminals: &[Terminal],
) -> Result<Option<Typed<'_>>, AllocError>
    ensures { IfOk result (λ found. option_map (λ t. (t.of, t.rest.now)) found ≡ type_of word terminals.now) }
{
    match word {
        TypeWord::Integer => Ok(Some(Typed {
            of: TypeSpec::Integer,
            rest: terminals,
        })),
        TypeWord::Logical => Ok(Some(Typed {
            of: TypeSpec::Logical,
            rest: terminals,
        })),
        TypeWord::Character => match length_at(alloc, terminals)? {
            None => Ok(None),
            Some(Measured { length, rest }) => Ok(Some(Typed {
                of: TypeSpec::Character(length),
                rest,
            })),
        },
    }
}

fn intent_named(name: &[u8]) -> Option<Intent>
    ensures { result ≡ intent_named name.now }
{
    if is(b"in", name) {
        Some(Intent::In)
    } else if is(b"out", name) {
        Some(Intent::Out)
    } else if is(b"inout", name) {
        Some(Intent::InOut)
    } else {
        None
    }
}

/// What stands behind IN and OUT as two words.
fn behind_both(terminals: &[Terminal]) -> Option<&[Terminal]>
    ensures { option_map (λ rest. rest.now) result ≡ behind_both terminals.now }
{
    let out = behind_word(b"in", terminals)?;
    behind_word(b"out", out)
}

/// An intent and what stands behind it.
#[derive(Drop)]
struct Intended<'a> {
    intent: Intent,
    rest: &'a [Terminal],
}

fn one_word(terminals: &[Terminal]) -> Option<Intended<'_>>
    ensures { option_map (λ i. (i.intent, i.rest.now)) result ≡ one_word terminals.now }
{
    let Named { name, rest } = behind_name(terminals)?;
    let intent = intent_named(name.as_slice())?;
    Some(Intended { intent, rest })
}

fn intent_at(terminals: &[Terminal]) -> Option<Intended<'_>>
    ensures { option_map (λ i. (i.intent, i.rest.now)) result ≡ intent_at (behind_both terminals.now) terminals.now }
{
    match behind_both(terminals) {
        Some(rest) => Some(Intended {
            intent: Intent::InAndOut,
            rest,
        }),
        None => one_word(terminals),
    }
}

/// An attribute and what stands behind it.
#[derive(Drop)]
pub struct Attributed<'a> {
    pub attribute: Attribute,
    pub rest: &'a [Terminal],
}

fn intent_of(terminals: &[Terminal]) -> Option<Attributed<'_>>
    ensures { option_map (λ a. (a.attribute, a.rest.now)) result ≡ intent_of terminals.now }
{
    let inside = behind(Punctuation::Open, terminals)?;
    let intended = intent_at(inside)?;
    let rest = behind(Punctuation::Close, intended.rest)?;
    Some(Attributed {
        attribute: Attribute::Intent(intended.intent),
        rest,
    })
}

fn dimension_of(alloc: Global, terminals: &[Terminal]) -> Result<Option<Attributed<'_>>, AllocError>
    ensures { IfOk result (λ found. option_map (λ a. (a.attribute, a.rest.now)) found ≡ dimension_of terminals.now) }
{
    let Some(inside) = behind(Punctuation::Open, terminals) else {
        return Ok(None);
    };
    let Some(Closed { fields, rest }) = bracket(alloc, inside)? else {
        return Ok(None);
    };
    let Some(items) = items_of(alloc, fields)? else {
        return Ok(None);
    };
    match dims_of(alloc, items)? {
        None => Ok(None),
        Some(dims) => Ok(Some(Attributed {
            attribute: Attribute::Dimension(dims),
            rest,
        })),
    }
}

fn attribute_named<'a>(
    alloc: Global,
    name: &[u8],
    rest: &'a [Terminal],
) -> Result<Option<Attributed<'a>>, AllocError>
    ensures { IfOk result (λ found. option_map (λ a. (a.attribute, a.rest.now)) found ≡ attribute_named (name.now, rest.now)) }
{
    if is(b"parameter", name) {
        Ok(Some(Attributed {
            attribute: Attribute::Parameter,
            rest,
        }))
    } else if is(b"allocatable", name) {
        Ok(Some(Attributed {
            attribute: Attribute::Allocatable,
            rest,
        }))
    } else if is(b"dimension", name) {
        dimension_of(alloc, rest)
    } else if is(b"intent", name) {
        Ok(intent_of(rest))
    } else {
        Ok(None)
    }
}

/// A comma and an attribute, and what stands behind them.
fn next_attribute(
    alloc: Global,
    terminals: &[Terminal],
) -> Result<Option<Attributed<'_>>, AllocError>
    ensures { IfOk result (λ found. option_map (λ a. (a.attribute, a.rest.now)) found ≡ next_attribute terminals.now) }
{
    let Some(rest) = behind(Punctuation::Comma, terminals) else {
        return Ok(None);
    };
    match behind_name(rest) {
        None => Ok(None),
        Some(named) => attribute_named(alloc, named.name.as_slice(), named.rest),
    }
}

/// Attributes, the newest one first, and what stands behind them.
#[derive(Drop)]
struct Gathered<'a> {
    attributes: Stack<Attribute>,
    rest: &'a [Terminal],
}

/// As many attributes as there are.
#[tactic(auto, using(crate::proofs::AttributeSteps::attribute_step, crate::proofs::AttributeSteps::attribute_stop, crate::proofs::AttributeSteps::shorter))]
fn attributes_of(alloc: Global, terminals: &[Terminal]) -> Result<Gathered<'_>, AllocError>
    ensures { IfOk result (λ g. (g.attributes, g.rest.now) ≡ attributes_of [] terminals.now) }
{
    let mut attributes = Stack::new(alloc);
    let mut rest = terminals;
    'gathering: while let Some(next) = next_attribute(alloc, rest)? {
        attributes.push(next.attribute)?;
        rest = next.rest;
    }
    Ok(Gathered { attributes, rest })
}

fn entities_of(alloc: Global, terminals: &[Terminal]) -> Result<Option<Items<Entity>>, AllocError>
    ensures { IfOk result (λ entities. entities ≡ entities_of terminals.now) }
{
    match row(alloc, terminals)? {
        None => Ok(None),
        Some(fields) => collected(alloc, fields),
    }
}

fn no_initials(entities: &[Entity]) -> bool
    ensures { result ≡ no_initials entities.now }
{
    for entity in entities {
        if entity.initial.is_some() {
            return false;
        }
    }
    true
}

/// A declaration without `::`.
fn bare(alloc: Global, of: TypeSpec, entities: Items<Entity>) -> Option<Declaration>
    ensures { result ≡ bare of entities }
{
    if no_initials(entities.as_slice()) {
        Some(Declaration {
            of,
            attributes: Items::new(alloc),
            colons: false,
            entities,
        })
    } else {
        drop(of);
        drop(entities);
        None
    }
}

fn plain_declaration(
    alloc: Global,
    of: TypeSpec,
    terminals: &[Terminal],
) -> Result<Option<Declaration>, AllocError>
    ensures { IfOk result (λ declaration. declaration ≡ option_and_then (bare of) (entities_of terminals.now)) }
{
    match entities_of(alloc, terminals) {
        Ok(Some(entities)) => Ok(bare(alloc, of, entities)),
        Ok(None) => {
            drop(of);
            Ok(None)
        }
        Err(error) => {
            drop(of);
            Err(error)
        }
    }
}

/// The declaration that all these terminals behind a type are.
pub fn declaration_of(
    alloc: Global,
    of: TypeSpec,
    terminals: &[Terminal],
) -> Result<Option<Declaration>, AllocError>
    ensures { IfOk result (λ declaration. declaration ≡ declaration_of of terminals.now) }
{
    match attributes_of(alloc, terminals) {
        Ok(Gathered { attributes, rest }) => declared(alloc, of, attributes, rest),
        Err(error) => {
            drop(of);
            Err(error)
        }
    }
}

fn declared(
    alloc: Global,
    of: TypeSpec,
    attributes: Stack<Attribute>,
    rest: &[Terminal],
) -> Result<Option<Declaration>, AllocError>
    ensures { IfOk result (λ declaration. declaration ≡ declared of (attributes, rest.now)) }
{
    let Some(list) = behind(Punctuation::DoubleColon, rest) else {
        return match attributes.top() {
            None => {
                drop(attributes);
                plain_declaration(alloc, of, rest)
            }
            Some(_) => {
                drop(of);
                drop(attributes);
                Ok(None)
            }
        };
    };
    match entities_of(alloc, list) {
        Ok(Some(entities)) => Ok(Some(Declaration {
            of,
            attributes: attributes.into_reversed(),
            colons: true,
            entities,
        })),
        Ok(None) => {
            drop(of);
            drop(attributes);
            Ok(None)
        }
        Err(error) => {
            drop(of);
            drop(attributes);
            Err(error)
        }
    }
}
