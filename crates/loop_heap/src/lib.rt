//! The blocks of a running LoopC program, and references to them. The meaning of each change of a block stands in the
//! `specs/` of `loop_tree`; `specs/Heap.antt` says what contracts see of the blocks.
#![tactic(auto)]

mod blocks;
mod halt;
mod link;
mod slot;

pub use blocks::Blocks;
pub use halt::Halt;
pub use link::Link;
