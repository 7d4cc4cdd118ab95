//! Lexemes gathered into statements, with the rules that they break.
ghost use Rattle.std.specs.Prelude.{◌≡◌, ◌++◌, ◌∷◌, [], map, drop, length, ◌≤◌, IfOk, OnOk};
ghost use Rattle.a95_base.specs.Breaks.{broken_at};
ghost use Rattle.f95_lexer.specs.Statements.{rules_of, items_at, items_of, token_breaks, lexemes_behind, statements_of};
ghost use Rattle.f95_lexer.specs.Statements.{with_statement, first_line, read_on, reading};

use crate::character::Character;
use crate::lexeme::{Lexeme, is_dotted, lexeme_at};
use crate::token::{Statement, Token};
use crate::words::Words;
use a95_base::{Break, LONGEST_WORD, Line, Rule, SharedBytes};
use sqlite_items::Items;
use std::alloc::{AllocError, Global};
use std::mem;

/// The statements and the broken rules so far, and the tokens of a statement that isn't ended.
#[derive(Drop)]
pub struct Gatherer {
    pub list: Vec<Statement>,
    /// The line of the first of the tokens.
    line: u32,
    tokens: Items<Token>,
    words: Words,
    pub breaks: Vec<Break>,
}

impl Gatherer {
    fn token(&mut self, line: u32, token: Token) -> Result<(), AllocError>
        ensures tokens { OnOk result (self.new.tokens ≡ self.old.tokens ++ token ∷ []) }
        ensures line { OnOk result (self.new.line ≡ first_line self.old.line self.old.tokens line) }
        ensures list { self.new.list.items ≡ self.old.list.items }
        ensures breaks { self.new.breaks.items ≡ self.old.breaks.items }
    {
        if self.tokens.is_empty() {
            self.line = line;
        }
        self.tokens.push(token)
    }

    fn end(&mut self, alloc: Global) -> Result<(), AllocError>
        ensures list { OnOk result (self.new.list.items ≡ self.old.list.items ++ with_statement self.old.line self.old.tokens []) }
        ensures tokens { OnOk result (self.new.tokens ≡ []) }
        ensures line { self.new.line ≡ self.old.line }
        ensures breaks { self.new.breaks.items ≡ self.old.breaks.items }
    {
        if self.tokens.is_empty() {
            return Ok(());
        }
        let tokens = mem::replace(&mut self.tokens, Items::new(alloc));
        self.list.push(Statement {
            line: Line(self.line),
            tokens,
        })?;
        Ok(())
    }

    fn note(&mut self, line: u32, rule: Rule) -> Result<(), AllocError>
        ensures breaks { OnOk result (self.new.breaks.items ≡ self.old.breaks.items ++ broken_at line rule.0 ∷ []) }
        ensures list { self.new.list.items ≡ self.old.list.items }
        ensures line { self.new.line ≡ self.old.line }
        ensures tokens { self.new.tokens ≡ self.old.tokens }
    {
        self.breaks.push(Break { line, rule: rule.0 })?;
        Ok(())
    }

    fn number(&mut self, line: u32, value: Option<i32>, clings: bool) -> Result<(), AllocError>
        ensures read { OnOk result (reading self.new.list.items self.new.line self.new.tokens
            ≡ read_on (reading self.old.list.items self.old.line self.old.tokens) (items_at line (Lexeme.Number value clings))) }
        ensures breaks { OnOk result (self.new.breaks.items
            ≡ self.old.breaks.items ++ map (broken_at line) (rules_of (Lexeme.Number value clings))) }
    {
        match value {
            Some(value) => self.token(line, Token::Number(value))?,
            None => self.note(line, Rule::NUMBER_TOO_GREAT)?,
        }
        if clings {
            self.note(line, Rule::NUMBER_RUNS_ON)?;
        }
        Ok(())
    }

    /// Takes in what stands on that line next.
    fn take(&mut self, alloc: Global, line: u32, lexeme: Lexeme) -> Result<(), AllocError>
        ensures read { OnOk result (reading self.new.list.items self.new.line self.new.tokens
            ≡ read_on (reading self.old.list.items self.old.line self.old.tokens) (items_at line lexeme)) }
        ensures breaks { OnOk result (self.new.breaks.items ≡ self.old.breaks.items ++ map (broken_at line) (rules_of lexeme)) }
    {
        match lexeme {
            Lexeme::Blank | Lexeme::Unclosed => Ok(()),
            Lexeme::End => self.end(alloc),
            Lexeme::Word(word) => {
                if word.len() > LONGEST_WORD {
                    self.note(line, Rule::WORD_TOO_LONG)?;
                }
                let word = self.words.shared(alloc, word)?;
                self.token(line, Token::Word(word))
            }
            Lexeme::Number { value, clings } => self.number(line, value, clings),
            Lexeme::Text(bytes) => {
                let text = SharedBytes::new(alloc, bytes)?;
                self.token(line, Token::Text(text))
            }
            Lexeme::Pointed(word) => {
                if !is_dotted(word.as_slice()) {
                    self.note(line, Rule::UNKNOWN_DOTTED_WORD)?;
                }
                let word = self.words.shared(alloc, word)?;
                self.token(line, Token::Dotted(word))
            }
            Lexeme::Symbol(mark) => self.token(line, Token::Mark(mark)),
            Lexeme::Stray => self.note(line, Rule::STRAY_BYTE),
        }
    }

    /// Takes in what begins with the first character, and gives the characters behind it.
    fn next<'a>(
        &mut self,
        alloc: Global,
        first: Character,
        more: &'a [Character],
    ) -> Result<&'a [Character], AllocError>
        ensures read { IfOk result
            (λ rest. read_on (reading self.new.list.items self.new.line self.new.tokens) (items_of (lexemes_behind 0 rest.now))
            ≡ read_on (reading self.old.list.items self.old.line self.old.tokens) (items_of (lexemes_behind 0 (first ∷ more.now)))) }
        ensures breaks { IfOk result (λ rest. self.new.breaks.items ++ token_breaks (lexemes_behind 0 rest.now)
            ≡ self.old.breaks.items ++ token_breaks (lexemes_behind 0 (first ∷ more.now))) }
        ensures shorter { IfOk result (λ rest. length rest.now ≤ length more.now) }
    {
        let found = lexeme_at(alloc, first.byte, more)?;
        self.take(alloc, first.line, found.lexeme)?;
        Ok(behind(more, found.further))
    }
}

/// The characters behind the first `count`.
fn behind(characters: &[Character], count: usize) -> &[Character]
    ensures { result.now ≡ drop count characters.now }
{
    if count <= characters.len() {
        &characters[count..]
    } else {
        &[]
    }
}

/// The statements of spliced characters, with the rules that they break added to those of the lines.
pub fn gather(alloc: Global, text: &[Character], breaks: Vec<Break>) -> Result<Gatherer, AllocError>
    ensures list { IfOk result (λ g. g.list.items ≡ statements_of (items_of (lexemes_behind 0 text.now))) }
    ensures breaks { IfOk result (λ g. g.breaks.items ≡ breaks.items ++ token_breaks (lexemes_behind 0 text.now)) }
{
    let mut gatherer = Gatherer {
        list: Vec::new(alloc),
        line: 0,
        tokens: Items::new(alloc),
        words: Words::new(alloc)?,
        breaks,
    };
    let mut rest = text;
    while let [c, more @ ..] = rest {
        rest = gatherer.next(alloc, *c, more)?;
    }
    gatherer.end(alloc)?;
    Ok(gatherer)
}
