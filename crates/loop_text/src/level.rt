//! The braces that are open where a text was read so far.
ghost use Rattle.std.specs.Prelude.{◌≡◌};
ghost use Rattle.loop_text.specs.Reader.{is_loop};

use loop_tree::{Atom, Stmt};
use sqlite_items::Items;

/// What an open brace belongs to.
#[derive(Drop)]
pub enum LevelKind {
    If(Atom),
    /// The part behind ELSE, with the statements before it.
    Else(Atom, Items<Stmt>),
    ForUp(u32, Atom),
    ForDown(u32, Atom),
    Forever,
}

/// An open brace, and the statements before it in the list that it stands in.
#[derive(Drop)]
pub struct Level {
    pub kind: LevelKind,
    pub outer: Items<Stmt>,
}

impl LevelKind {
    pub fn is_loop(&self) -> bool
        ensures { result ≡ is_loop self.now }
    {
        matches!(
            self,
            LevelKind::ForUp(..) | LevelKind::ForDown(..) | LevelKind::Forever
        )
    }
}
