//! What is emitted of nest units is LoopC by its grammar: variables have numbers of 32 bits, integers 64 bits, texts are bytes, few
//! braces are open, and a break stands in a loop. `specs/Written.antt` says which units can be written down so. No code.
#![tactic(auto)]

mod laws;

pub use laws::program_is_loop_c;
