//! Tests of sections and of linear forms.
#![tactic(auto)]

#[cfg(test)]
mod forms;
#[cfg(test)]
mod sections;
