//! The shares of a module.
ghost use Rattle.std.specs.Prelude.{◌≡◌, ◌++◌, IfOk, OnOk};
ghost use Rattle.names_types.specs.Scopes.{home, is_shared};
ghost use Rattle.scope_entries.specs.View.{entries_of, entry_of, form_of};
ghost use Rattle.scope_offers.specs.Shares.{share, shares_by};

use a95_base::SharedBytes;
use declared_meanings::copy_meaning;
use names_types::{Meaning, Offer, Share};
use scope_entries::{Entry, Form};
use sqlite_items::Items;
use std::alloc::{AllocError, Global};

fn is_shared(meaning: &Meaning) -> bool
    ensures { result ≡ is_shared meaning.now }
{
    match meaning {
        Meaning::Constant(_) => true,
        Meaning::Variable(_) => false,
        Meaning::Called => true,
    }
}

/// The module that has a name as its own.
fn home(place: usize, form: Form<'_>) -> usize
    ensures { result ≡ home place (form_of form.entry) }
{
    match form {
        Form::Brings(share) => share.place,
        Form::Declares(..) => place,
        Form::Types(_) => place,
        Form::Begins => place,
    }
}

fn share_of(
    alloc: Global,
    place: usize,
    entry: &Entry<'_>,
    meaning: &Meaning,
) -> Result<Share, AllocError>
    ensures { IfOk result (λ s. s ≡ share place (entry_of entry.now) meaning.now) }
{
    let name = entry.name.share()?;
    let meaning = copy_meaning(alloc, meaning)?;
    Ok(Share {
        name,
        place: home(place, entry.form),
        meaning,
    })
}

fn shares_of(
    alloc: Global,
    place: usize,
    entries: &[Entry<'_>],
    meanings: &[Meaning],
) -> Result<Vec<Share>, AllocError>
    ensures { IfOk result (λ ss. ss.items ≡ shares_by place (entries_of entries.now) meanings.now) }
{
    let mut shares = Vec::new(alloc);
    let mut left = meanings;
    for entry in entries {
        let [meaning, more @ ..] = left else {
            return Ok(shares);
        };
        if is_shared(meaning) {
            shares.push(share_of(alloc, place, entry, meaning)?)?;
        }
        left = more;
    }
    Ok(shares)
}

/// What the module of this name and place has for USE, whose names mean this.
pub fn offer_of(
    alloc: Global,
    place: usize,
    name: &SharedBytes,
    entries: &[Entry<'_>],
    meanings: &[Meaning],
) -> Result<Offer, AllocError>
    ensures name { IfOk result (λ o. o.name ≡ name.now) }
    ensures shares { IfOk result (λ o. o.shares ≡ shares_by place (entries_of entries.now) meanings.now) }
{
    let name = name.share()?;
    let shares = shares_of(alloc, place, entries, meanings)?;
    Ok(Offer {
        name,
        shares: Items::from_vec(shares),
    })
}
