//! The law, as the contract of a function that does nothing.

ghost use Rattle.emit_grammar.specs.GrammarLaws.{ProgramIsLoopC};

/// The program of a unit whose text fits, and which can be written down, is one by the grammar.
pub fn program_is_loop_c()
    ensures { ProgramIsLoopC }
{}
