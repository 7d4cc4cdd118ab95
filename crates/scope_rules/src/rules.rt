//! The rules by name.
ghost use Rattle.std.specs.Prelude.{◌≡◌};

/// A rule on what a declaration says of a name.
#[derive(Clone, Copy)]
pub enum ObjectRule {
    WrongAttributes,
    RankTooGreat,
    ShapeTooLarge,
    NoSpecification,
}

/// A rule on an expression that has to be constant.
#[derive(Clone, Copy)]
pub enum DemandRule {
    NotConstant,
    ConstantFault,
}

/// A rule that is tried at each declaration.
#[derive(Clone, Copy)]
pub enum SiteRule {
    DeclaredTwice,
    /// INTENT on what is no dummy.
    IntendedOther,
    WrongLength,
    OfObject(ObjectRule),
    OfDemand(DemandRule),
}
