//! The forms of all statements, or the first rule that one of them breaks.
ghost use Rattle.std.specs.Prelude.{◌≡◌, None, IfOk, IfErr, OnOk};
ghost use Rattle.f95_reader.specs.Reading.{AreForms};
ghost use Rattle.f95_reader.specs.Judging.{Judged, Adds, RefusesForms};

use a95_base::{Break, Line, PhaseError, Rule, first_of};
use f95_lexer::Statement;
use f95_parser::read_form;
use f95_tree::Form;
use std::alloc::{AllocError, Global};

/// The forms so far, and the rules that were broken so far.
#[derive(Drop)]
struct Judgement {
    forms: Vec<(Line, Form)>,
    breaks: Vec<Break>,
}

impl Judgement {
    /// Goes on to a statement.
    #[tactic(auto, using(crate::proofs::Judgements::form_added, crate::proofs::Judgements::break_added))]
    fn add(&mut self, alloc: Global, statement: &Statement) -> Result<(), AllocError>
        ensures { OnOk result (Adds statement.now self.old.forms.items self.old.breaks.items
            self.new.forms.items self.new.breaks.items) }
    {
        match read_form(alloc, statement.line, statement.tokens.as_slice()) {
            Ok(form) => {
                self.forms.push((statement.line, form))?;
                Ok(())
            }
            Err(PhaseError::Broken { line, rule }) => {
                self.breaks.push(Break {
                    line: line.0,
                    rule: rule.0,
                })?;
                Ok(())
            }
            Err(PhaseError::Memory) => Err(AllocError),
        }
    }
}

/// All statements, judged.
#[tactic(auto, using(crate::proofs::Judgements::goes_on_first))]
fn judged(alloc: Global, statements: Vec<Statement>) -> Result<Judgement, AllocError>
    ensures { IfOk result (λ j. Judged statements.items j.forms.items j.breaks.items) }
{
    let mut judgement = Judgement {
        forms: Vec::new(alloc),
        breaks: Vec::new(alloc),
    };
    for statement in statements {
        judgement.add(alloc, &statement)?;
    }
    Ok(judgement)
}

/// Each statement's form, with its line. A statement is gone once its form is read.
#[tactic(auto, using(crate::proofs::Judgements::least_judged, crate::proofs::Judgements::formed_judged))]
pub fn forms_of(alloc: Global, statements: Vec<Statement>) -> Result<Vec<(Line, Form)>, PhaseError>
    ensures formed { IfOk result (λ forms. AreForms statements.items forms.items) }
    ensures refused { IfErr result (RefusesForms statements.items) }
{
    let Judgement { forms, breaks } = judged(alloc, statements)?;
    match first_of(breaks.as_slice()) {
        Some(first) => Err(PhaseError::Broken {
            line: Line(first.line),
            rule: Rule(first.rule),
        }),
        None => Ok(forms),
    }
}
