//! Where an expression has to be constant.

use crate::rules::DemandRule;
use known_scopes::Known;
use scope_names::ConstantSenses;

/// A rule on expressions that stand on the line, and what names mean there.
#[derive(Drop)]
pub struct Asked<'a, 'b> {
    pub rule: DemandRule,
    pub known: &'b Known<'a>,
    pub line: u32,
    pub senses: ConstantSenses<'b>,
}
