//! What statements name, those in their blocks among them.
ghost use Rattle.std.specs.Prelude.{◌≡◌, ◌++◌, map, option_map, OnOk};
ghost use Rattle.names_types.specs.View.{together, last_part, where_mentions, where_statement_mentions, elsewhere_mentions};
ghost use Rattle.names_types.specs.View.{statement_mentions, branch_mentions, case_mentions, otherwise_mentions};

use crate::lines::{note, note_assignments, note_both};
use f95_tree::{Branch, Case, ElseWhere, Otherwise, Statement, WhereBlock, WhereStatement};
use names_types::Mention;
use sqlite_items::Boxed;
use std::alloc::{AllocError, Global};

// ---- WHERE

#[cycle(where_mentions)]
pub fn where_mentions(
    alloc: Global,
    block: &WhereBlock,
    mentions: &mut Vec<Mention>,
) -> Result<(), AllocError>
    ensures { OnOk result (mentions.new.items ≡ mentions.old.items ++ where_mentions block.now) }
{
    note(alloc, block.line, &block.mask, mentions)?;
    where_statements_mentions(alloc, block.body.as_slice(), mentions)?;
    elsewheres_mentions(alloc, block.others.as_slice(), mentions)
}

#[cycle(where_mentions)]
fn where_statements_mentions(
    alloc: Global,
    statements: &[WhereStatement],
    mentions: &mut Vec<Mention>,
) -> Result<(), AllocError>
    ensures { OnOk result (mentions.new.items ≡ mentions.old.items ++ together (map where_statement_mentions statements.now)) }
{
    for statement in statements {
        where_statement_mentions(alloc, statement, mentions)?;
    }
    Ok(())
}

#[cycle(where_mentions)]
fn where_statement_mentions(
    alloc: Global,
    statement: &WhereStatement,
    mentions: &mut Vec<Mention>,
) -> Result<(), AllocError>
    ensures { OnOk result (mentions.new.items ≡ mentions.old.items ++ where_statement_mentions statement.now) }
{
    match statement {
        WhereStatement::Assignment(line, a) => note(alloc, *line, a, mentions),
        WhereStatement::Where(line, mask, a) => note_both(alloc, *line, mask, a, mentions),
        WhereStatement::Block(block) => where_mentions(alloc, block.get(), mentions),
    }
}

#[cycle(where_mentions)]
fn elsewheres_mentions(
    alloc: Global,
    others: &[ElseWhere],
    mentions: &mut Vec<Mention>,
) -> Result<(), AllocError>
    ensures { OnOk result (mentions.new.items ≡ mentions.old.items ++ together (map elsewhere_mentions others.now)) }
{
    for other in others {
        elsewhere_mentions(alloc, other, mentions)?;
    }
    Ok(())
}

#[cycle(where_mentions)]
fn elsewhere_mentions(
    alloc: Global,
    other: &ElseWhere,
    mentions: &mut Vec<Mention>,
) -> Result<(), AllocError>
    ensures { OnOk result (mentions.new.items ≡ mentions.old.items ++ elsewhere_mentions other.now) }
{
    note(alloc, other.line, &other.mask, mentions)?;
    where_statements_mentions(alloc, other.body.as_slice(), mentions)
}

// ---- statements

#[cycle(mentions)]
pub fn statements_mentions(
    alloc: Global,
    statements: &[Statement],
    mentions: &mut Vec<Mention>,
) -> Result<(), AllocError>
    ensures { OnOk result (mentions.new.items ≡ mentions.old.items ++ together (map statement_mentions statements.now)) }
{
    for statement in statements {
        statement_mentions(alloc, statement, mentions)?;
    }
    Ok(())
}

#[cycle(mentions)]
fn statement_mentions(
    alloc: Global,
    statement: &Statement,
    mentions: &mut Vec<Mention>,
) -> Result<(), AllocError>
    ensures { OnOk result (mentions.new.items ≡ mentions.old.items ++ statement_mentions statement.now) }
{
    match statement {
        Statement::Action(line, action) => note(alloc, *line, action, mentions),
        Statement::If(line, condition, action) => {
            note_both(alloc, *line, condition.get(), action.get(), mentions)
        }
        Statement::IfBlock(line, _, condition, body, branches, other, _) => {
            note(alloc, *line, condition.get(), mentions)?;
            statements_mentions(alloc, body.as_slice(), mentions)?;
            branches_mentions(alloc, branches.as_slice(), mentions)?;
            last_mentions(alloc, other, mentions)
        }
        Statement::Select(line, _, selector, cases, _) => {
            note(alloc, *line, selector.get(), mentions)?;
            cases_mentions(alloc, cases.as_slice(), mentions)
        }
        Statement::Do(line, _, control, body, _) => {
            note(alloc, *line, control, mentions)?;
            statements_mentions(alloc, body.as_slice(), mentions)
        }
        Statement::Where(block) => where_mentions(alloc, block, mentions),
        Statement::Forall(line, header, assignments, _) => {
            note(alloc, *line, header, mentions)?;
            note_assignments(alloc, assignments.as_slice(), mentions)
        }
    }
}

#[cycle(mentions)]
fn branches_mentions(
    alloc: Global,
    branches: &[Branch],
    mentions: &mut Vec<Mention>,
) -> Result<(), AllocError>
    ensures { OnOk result (mentions.new.items ≡ mentions.old.items ++ together (map branch_mentions branches.now)) }
{
    for branch in branches {
        branch_mentions(alloc, branch, mentions)?;
    }
    Ok(())
}

#[cycle(mentions)]
fn branch_mentions(
    alloc: Global,
    branch: &Branch,
    mentions: &mut Vec<Mention>,
) -> Result<(), AllocError>
    ensures { OnOk result (mentions.new.items ≡ mentions.old.items ++ branch_mentions branch.now) }
{
    note(alloc, branch.line, &branch.condition, mentions)?;
    statements_mentions(alloc, branch.body.as_slice(), mentions)
}

#[cycle(mentions)]
fn last_mentions(
    alloc: Global,
    other: &Option<Boxed<Otherwise>>,
    mentions: &mut Vec<Mention>,
) -> Result<(), AllocError>
    ensures { OnOk result (mentions.new.items ≡ mentions.old.items ++ last_part (option_map otherwise_mentions other.now)) }
{
    match other {
        None => Ok(()),
        Some(other) => otherwise_mentions(alloc, other.get(), mentions),
    }
}

#[cycle(mentions)]
fn otherwise_mentions(
    alloc: Global,
    other: &Otherwise,
    mentions: &mut Vec<Mention>,
) -> Result<(), AllocError>
    ensures { OnOk result (mentions.new.items ≡ mentions.old.items ++ otherwise_mentions other.now) }
{
    statements_mentions(alloc, other.body.as_slice(), mentions)
}

#[cycle(mentions)]
fn cases_mentions(
    alloc: Global,
    cases: &[Case],
    mentions: &mut Vec<Mention>,
) -> Result<(), AllocError>
    ensures { OnOk result (mentions.new.items ≡ mentions.old.items ++ together (map case_mentions cases.now)) }
{
    for case in cases {
        case_mentions(alloc, case, mentions)?;
    }
    Ok(())
}

#[cycle(mentions)]
fn case_mentions(alloc: Global, case: &Case, mentions: &mut Vec<Mention>) -> Result<(), AllocError>
    ensures { OnOk result (mentions.new.items ≡ mentions.old.items ++ case_mentions case.now) }
{
    note(alloc, case.line, &case.ranges, mentions)?;
    statements_mentions(alloc, case.body.as_slice(), mentions)
}
