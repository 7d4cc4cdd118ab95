//! Tests of the reader's second phase: which statements are of a form, which rule the others break, and how expressions bind.
#![tactic(auto)]

#[cfg(test)]
mod forms;
#[cfg(test)]
mod shown;
