//! Whole programs.
ghost use Rattle.std.specs.Prelude.{◌≡◌};
ghost use Rattle.loop_tree.specs.Program.{IsProgram};

use crate::tree::Function;
use sqlite_items::Items;
use std::marker::Model;

/// A program of LoopC. Contracts see the list of its functions, which is all that the grammar demands, so each
/// program has exactly one text.
#[derive(Drop)]
pub struct LoopProgram {
    functions: Items<Function>,
}

impl Model for LoopProgram {
    ghost use Rattle.std.specs.Prelude.{List};
    ghost use Rattle.loop_tree.specs.Program.{IsProgram};
    ghost use Rattle.loop_tree.specs.declared.tree.Function.{Function};
    ghost use Rattle.loop_tree.specs.contracts.tree.Stmt as stmt;
    ghost use Rattle.std.specs.Coded.{codes};

    ghost Value = { List Function };

    ghost coded = { Prim.hlevel (codes, stmt.the_row.coded) };

    ghost view = { λ p. p.functions };

    ghost invariant = { λ p. IsProgram p.functions };
}

impl LoopProgram {
    /// The program of these functions, of which the first is the main one.
    pub fn new(functions: Items<Function>) -> LoopProgram
        requires { IsProgram functions }
        ensures { result ≡ functions }
    {
        LoopProgram { functions }
    }

    pub fn functions(&self) -> &[Function]
        ensures functions { result.now ≡ self.now }
        ensures program { IsProgram self.now }
    {
        self.functions.as_slice()
    }

    pub fn into_functions(self) -> Items<Function>
        ensures functions { result ≡ self }
        ensures program { IsProgram result }
    {
        let LoopProgram { functions } = self;
        functions
    }
}
