//! What holds of the words that are mostly written. The function does nothing: its contract is the law.

ghost use Rattle.command_words.specs.UsualWords.{UsualWords};

/// The commands as they are mostly written are commands, and what differs from them in some ways isn't.
#[tactic(auto, using(crate::proofs::Usual::usual))]
pub fn usual_words()
    ensures { UsualWords }
{}
