//! Tests of the reader and the printer of LoopC texts.
#![tactic(auto)]

#[cfg(test)]
mod loop_texts;
