//! What stands behind a name, with its parts typed.
ghost use Rattle.std.specs.Prelude.{◌≡◌, option_map};
ghost use Rattle.shape_check.specs.Nodes.{keyword_of};
ghost use Rattle.expression_nodes.specs.View.{item_of};

use a95_base::SharedBytes;
use f95_unit::{Bound, Expr};
use sqlite_items::Items;

/// What stands in brackets behind a name.
#[derive(Drop)]
pub enum Item {
    /// A value, with its keyword where it has one.
    Single(Option<SharedBytes>, Expr),
    /// First, last and stride of a triplet.
    Triple(Bound, Bound, Bound),
}

/// What stands behind a name.
#[derive(Drop)]
pub enum Behind {
    Bare,
    Applied(Items<Item>),
    /// Items, and first and last of a substring.
    Cut(Items<Item>, Bound, Bound),
}

/// The keyword of an item, where it has one.
pub fn keyword(item: &Item) -> Option<&SharedBytes>
    ensures { option_map (λ k. k.now) result ≡ keyword_of (item_of item.now) }
{
    match item {
        Item::Single(keyword, _) => keyword.as_ref(),
        Item::Triple(_, _, _) => None,
    }
}
