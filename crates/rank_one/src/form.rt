//! The statements of the first form, by names.
use crate::name::Name;
use sqlite_items::Items;

/// `name(extent)`
#[derive(Drop)]
pub struct NamedArray<'a> {
    pub name: Name<'a>,
    pub extent: u32,
}

/// What a statement between the declarations and `end` does, by names.
#[derive(Drop)]
pub enum NamedAction<'a> {
    /// `target = value`
    Assign {
        target: Name<'a>,
        value: NamedSum<'a>,
    },
    /// `print *, name {, name}`
    Print {
        first: Name<'a>,
        rest: Items<Name<'a>>,
    },
}

/// `term {+ or - term}`
#[derive(Drop)]
pub struct NamedSum<'a> {
    pub first: NamedTerm<'a>,
    pub rest: Items<NamedAddend<'a>>,
}

#[derive(Drop)]
pub struct NamedAddend<'a> {
    pub minus: bool,
    pub term: NamedTerm<'a>,
}

/// `factor {* factor}`
#[derive(Drop)]
pub struct NamedTerm<'a> {
    pub first: NamedFactor<'a>,
    pub rest: Items<NamedFactor<'a>>,
}

#[derive(Drop)]
pub enum NamedFactor<'a> {
    Number(u32),
    Name(Name<'a>),
}
