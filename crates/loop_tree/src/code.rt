//! Statements as a lowering puts them together, one behind the other. What the grammar demands of them
//! (`specs/Program.antt`) holds of every `Code`: numbers are in range by their types, and that no loop is left from
//! outside and not too many braces are open is asked where a row or a block is pushed.

ghost use Rattle.std.specs.Prelude.{◌≡◌, ◌+◌, ◌-◌, ◌<◌, ◌≤◌, false, true, [], OnOk, OnErr};
ghost use Rattle.loop_tree.specs.Program.{leaves_row};
ghost use Rattle.loop_tree.specs.Body.{IsBody, Stands, with_statement};

use crate::atom::Atom;
use crate::fits;
use crate::row::Row;
use crate::tree::Stmt;
use sqlite_items::{Boxed, Items};
use std::alloc::{AllocError, Global};
use std::marker::Model;

/// Statements of one body. Contracts see them with the room that is left for braces, and whether they stand in a loop.
#[derive(Drop)]
pub struct Code {
    statements: Items<Stmt>,
    room: u32,
    in_loop: bool,
}

impl Model for Code {
    ghost use Rattle.loop_tree.specs.Body.{Body, IsBody, body_code};
    ghost use Rattle.loop_tree.specs.declared.code.Code.TheInside.{Inside};

    ghost Value = { Body };

    ghost coded = { body_code };

    ghost view = { λ c. record { statements = c.statements; room = c.room; in_loop = c.in_loop } };

    ghost invariant = { λ c. IsBody (record { statements = c.statements; room = c.room; in_loop = c.in_loop }) };
}

impl Code {
    /// No statements of a function's own body: 999 braces may be open in it beside the function's, and it is in no loop.
    pub fn new(alloc: Global) -> Code
        ensures { result ≡ record { statements = []; room = 999; in_loop = false } }
    {
        Code {
            statements: Items::new(alloc),
            room: 999,
            in_loop: false,
        }
    }

    /// No statements of a branch of a choice in this body.
    pub fn branch(&self, alloc: Global) -> Code
        requires { 0 < self.now.room }
        ensures { result ≡ record { statements = []; room = self.now.room - 1; in_loop = self.now.in_loop } }
    {
        Code {
            statements: Items::new(alloc),
            room: self.room - 1,
            in_loop: self.in_loop,
        }
    }

    /// No statements of the body of a loop in this body.
    pub fn loop_body(&self, alloc: Global) -> Code
        requires { 0 < self.now.room }
        ensures { result ≡ record { statements = []; room = self.now.room - 1; in_loop = true } }
    {
        Code {
            statements: Items::new(alloc),
            room: self.room - 1,
            in_loop: true,
        }
    }

    /// So many braces may be open in the statements at once.
    pub fn room(&self) -> u32
        ensures { result ≡ self.now.room }
    {
        self.room
    }

    /// A break or a continue may stand among the statements.
    pub fn in_loop(&self) -> bool
        ensures { result ≡ self.now.in_loop }
    {
        self.in_loop
    }

    pub fn statements(&self) -> &[Stmt]
        ensures statements { result.now ≡ self.now.statements }
        ensures body { IsBody self.now }
    {
        self.statements.as_slice()
    }

    pub fn into_statements(self) -> Items<Stmt>
        ensures statements { result ≡ self.statements }
        ensures body { IsBody self }
    {
        let Code { statements, .. } = self;
        statements
    }

    /// Adds a row. After an error nothing is added; so it is with each push.
    #[tactic(auto, using(crate::proofs::Bodies::row_stands))]
    pub fn push_row(&mut self, row: Row) -> Result<(), AllocError>
        requires { leaves_row row ≡ true → self.old.in_loop ≡ true }
        ensures ok { OnOk result (self.new ≡ with_statement self.old (Stmt.Row row)) }
        ensures err { OnErr result (self.new ≡ self.old) }
    {
        fits::row(&row);
        self.push(Stmt::Row(row))
    }

    /// Adds `if (test) {`, the statements and `}`.
    #[tactic(auto, using(crate::proofs::Bodies::if_stands))]
    pub fn push_if(&mut self, test: Atom, body: Code) -> Result<(), AllocError>
        requires room { body.room < self.old.room }
        requires in_loop { body.in_loop ≡ true → self.old.in_loop ≡ true }
        ensures ok { OnOk result (self.new ≡ with_statement self.old (Stmt.If test body.statements)) }
        ensures err { OnErr result (self.new ≡ self.old) }
    {
        fits::atom(&test);
        let body = body.into_statements();
        self.push(Stmt::If(test, body))
    }

    /// Adds `if (test) {`, the first statements, `} else {`, the others and `}`.
    #[tactic(auto, using(crate::proofs::Bodies::else_stands))]
    pub fn push_if_else(
        &mut self,
        alloc: Global,
        test: Atom,
        body: Code,
        other: Code,
    ) -> Result<(), AllocError>
        requires room { body.room < self.old.room }
        requires in_loop { body.in_loop ≡ true → self.old.in_loop ≡ true }
        requires other_room { other.room < self.old.room }
        requires other_in_loop { other.in_loop ≡ true → self.old.in_loop ≡ true }
        ensures ok { OnOk result (self.new ≡ with_statement self.old (Stmt.IfElse test body.statements other.statements)) }
        ensures err { OnErr result (self.new ≡ self.old) }
    {
        fits::atom(&test);
        let body = body.into_statements();
        let other = other.into_statements();
        let other = Boxed::new(alloc, other)?;
        self.push(Stmt::IfElse(test, body, other))
    }

    /// Adds the loop that counts `k` upward from 0 to below the bound.
    #[tactic(auto, using(crate::proofs::Bodies::up_stands))]
    pub fn push_for_up(&mut self, k: u32, bound: Atom, body: Code) -> Result<(), AllocError>
        requires room { body.room < self.old.room }
        ensures ok { OnOk result (self.new ≡ with_statement self.old (Stmt.ForUp k bound body.statements)) }
        ensures err { OnErr result (self.new ≡ self.old) }
    {
        fits::number(&k);
        fits::atom(&bound);
        let body = body.into_statements();
        self.push(Stmt::ForUp(k, bound, body))
    }

    /// Adds the loop that counts `k` downward from below the bound to 0.
    #[tactic(auto, using(crate::proofs::Bodies::down_stands))]
    pub fn push_for_down(&mut self, k: u32, bound: Atom, body: Code) -> Result<(), AllocError>
        requires room { body.room < self.old.room }
        ensures ok { OnOk result (self.new ≡ with_statement self.old (Stmt.ForDown k bound body.statements)) }
        ensures err { OnErr result (self.new ≡ self.old) }
    {
        fits::number(&k);
        fits::atom(&bound);
        let body = body.into_statements();
        self.push(Stmt::ForDown(k, bound, body))
    }

    /// Adds `while (1) {`, the statements and `}`.
    #[tactic(auto, using(crate::proofs::Bodies::forever_stands))]
    pub fn push_forever(&mut self, body: Code) -> Result<(), AllocError>
        requires room { body.room < self.old.room }
        ensures ok { OnOk result (self.new ≡ with_statement self.old (Stmt.Forever body.statements)) }
        ensures err { OnErr result (self.new ≡ self.old) }
    {
        let body = body.into_statements();
        self.push(Stmt::Forever(body))
    }

    fn push(&mut self, statement: Stmt) -> Result<(), AllocError>
        requires { Stands self.old statement }
        ensures ok { OnOk result (self.new ≡ with_statement self.old statement) }
        ensures err { OnErr result (self.new ≡ self.old) }
    {
        self.statements.push(statement)
    }
}
