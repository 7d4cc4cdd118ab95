//! Laws of answers: each is the contract of a function that does nothing.
ghost use Rattle.expression_nodes.specs.Laws.{ThenMade, ThenMissing, MappedMade, BothCome, AskingMade, AskingBroken};

/// What is made of what was made has the answer of the second step; where the first makes nothing, its answer.
pub fn then_composes<A, B>()
    ensures made { ThenMade A B }
    ensures missing { ThenMissing A B }
    ensures mapped { MappedMade A B }
{}

/// Both parts of a pair are looked at: the lesser rule is told.
pub fn both_compose<A, B>()
    ensures { BothCome A B }
{}

/// A question that breaks a rule makes nothing.
pub fn asking_composes<A>()
    ensures made { AskingMade A }
    ensures broken { AskingBroken A }
{}
